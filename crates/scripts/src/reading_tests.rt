// Tests of each form of line, of bad lines, and of names.
use crate::line::{Line, OwnedCall, read};
use crate::names::Names;
use bindings::rect::Rect;
use std::alloc::Global;
use std::process::Abort;
use std::test::Fail;

// The call that a line makes.
fn call(alloc: Global, text: &str) -> Result<OwnedCall, Fail> {
    match read(alloc, text)? {
        Line::Call(call) => Ok(call),
        _ => Err(Fail::new("no call")),
    }
}

// What is printed of a line that is not read.
fn refused(rt: &(impl Abort + AllocGlobal), text: &str, wanted: &str) -> Result<(), Fail> {
    let alloc = rt.alloc();
    match read(alloc, text) {
        Ok(_) => Err(Fail::new("the line was read")),
        Err(error) => {
            assert!(rt; error.to_string(alloc)?.as_str() == wanted, "{text}");
            Ok(())
        }
    }
}

#[test]
fn lines_with_nothing(rt: HostRuntime) -> Result<(), Fail> {
    for text in ["", "   ", "# draw 1 2 3 4", " \t # x"] {
        assert!(rt; matches!(read(rt.alloc(), text)?, Line::Nothing), "{text}");
    }
    assert!(rt;
        matches!(
            call(rt.alloc(), " end_encoding# x")?,
            OwnedCall::EndEncoding
        )
    );
    Ok(())
}

#[test]
fn calls_alone(rt: HostRuntime) -> Result<(), Fail> {
    let alloc = rt.alloc();
    assert!(rt; matches!(call(alloc, "begin_encoding")?, OwnedCall::BeginEncoding));
    assert!(rt; matches!(call(alloc, "discard_encoding")?, OwnedCall::DiscardEncoding));
    assert!(rt; matches!(call(alloc, "end_render_pass")?, OwnedCall::EndRenderPass));
    assert!(rt; matches!(call(alloc, "end_compute_pass")?, OwnedCall::EndComputePass));
    Ok(())
}

#[test]
fn transitions(rt: HostRuntime) -> Result<(), Fail> {
    let text = "transition_buffers 7 2 8  0x10 0 511";
    let OwnedCall::TransitionBuffers(barriers) = call(rt.alloc(), text)? else {
        return Err(Fail::new("another call"));
    };
    let read = barriers
        .iter()
        .map(|b| (b.resource, b.usage.from.bits, b.usage.to.bits));
    assert!(rt; read.eq([(7, 2, 8), (16, 0, 511)]));
    let OwnedCall::TransitionTextures(barriers) = call(rt.alloc(), "transition_textures")? else {
        return Err(Fail::new("another call"));
    };
    assert!(rt; barriers.is_empty());
    Ok(())
}

#[test]
fn render_passes(rt: HostRuntime) -> Result<(), Fail> {
    let text = "begin_render_pass C3a9 640 480 none target 4294967296 26 1 2 3 0xFFFFFFFF";
    let OwnedCall::BeginRenderPass {
        label,
        width,
        height,
        targets,
    } = call(rt.alloc(), text)?
    else {
        return Err(Fail::new("another call"));
    };
    assert!(rt; label.is_some_and(|bytes| bytes.as_slice() == [0xC3, 0xA9].as_slice()));
    assert!(rt; (width, height, targets.len()) == (640, 480, 2));
    let [None, Some(target)] = targets.as_slice() else {
        return Err(Fail::new("other targets"));
    };
    assert_eq!(rt; (target.target, target.ops), (4_294_967_296, 26));
    assert_eq!(rt; target.clear_value, [1, 2, 3, 4_294_967_295]);
    Ok(())
}

// The bytes of a compute pass's label.
fn label(alloc: Global, text: &str) -> Result<Option<Vec<u8>>, Fail> {
    match call(alloc, text)? {
        OwnedCall::BeginComputePass { label } => Ok(label),
        _ => Err(Fail::new("another call")),
    }
}

#[test]
fn labels(rt: HostRuntime) -> Result<(), Fail> {
    let alloc = rt.alloc();
    assert!(rt; label(alloc, "begin_compute_pass -")?.is_none());
    assert!(rt; label(alloc, "begin_compute_pass empty")?.is_some_and(|bytes| bytes.is_empty()));
    // No UTF-8: the call refuses it, and not the line.
    let bytes = label(alloc, "begin_compute_pass ff")?;
    assert!(rt; bytes.is_some_and(|bytes| bytes.as_slice() == [255].as_slice()));
    Ok(())
}

#[test]
fn groups_and_immediates(rt: HostRuntime) -> Result<(), Fail> {
    let text = "set_bind_group L0 4294967295 18446744073709551615 1 2 3 4";
    let OwnedCall::SetBindGroup {
        layout,
        index,
        table,
        bases,
        offsets,
    } = call(rt.alloc(), text)?
    else {
        return Err(Fail::new("another call"));
    };
    assert!(rt; layout.as_str() == "L0" && index == u32::MAX && table == u64::MAX);
    assert!(rt; bases.as_slice() == [1, 3].as_slice() && offsets.as_slice() == [2, 4].as_slice());
    let OwnedCall::SetImmediates {
        layout,
        offset_bytes,
        words,
    } = call(rt.alloc(), "set_immediates L1 8 5 6")?
    else {
        return Err(Fail::new("another call"));
    };
    assert!(rt; layout.as_str() == "L1" && offset_bytes == 8);
    assert!(rt; words.as_slice() == [5, 6].as_slice());
    Ok(())
}

#[test]
fn pipelines_buffers_and_ranges(rt: HostRuntime) -> Result<(), Fail> {
    let alloc = rt.alloc();
    let OwnedCall::SetRenderPipeline(name) = call(alloc, "set_render_pipeline R0")? else {
        return Err(Fail::new("another call"));
    };
    assert!(rt; name.as_str() == "R0");
    let OwnedCall::SetComputePipeline(name) = call(alloc, "set_compute_pipeline C0")? else {
        return Err(Fail::new("another call"));
    };
    assert!(rt; name.as_str() == "C0");
    let text = "set_vertex_buffer 1 2 3 4 5";
    let OwnedCall::SetVertexBuffer { slot, binding } = call(alloc, text)? else {
        return Err(Fail::new("another call"));
    };
    let buffer = binding.buffer;
    assert_eq!(rt; slot, 1);
    assert_eq!(rt;
        (buffer.address, buffer.size, binding.offset, binding.size),
        (2, 3, 4, 5)
    );
    let OwnedCall::SetViewport(viewport) = call(alloc, "set_viewport 1 2 3 4 5 6")? else {
        return Err(Fail::new("another call"));
    };
    assert_eq!(rt; viewport, [1, 2, 3, 4, 5, 6]);
    let rect = call(alloc, "set_scissor_rect 1 2 3 4")?;
    assert!(rt;
        matches!(
            rect,
            OwnedCall::SetScissorRect(Rect {
                x: 1,
                y: 2,
                w: 3,
                h: 4
            })
        )
    );
    Ok(())
}

#[test]
fn draws_and_dispatches(rt: HostRuntime) -> Result<(), Fail> {
    let alloc = rt.alloc();
    let draw = call(alloc, "draw 1 2 3 4")?;
    assert!(rt;
        matches!(
            draw,
            OwnedCall::Draw {
                first_vertex: 1,
                vertex_count: 2,
                first_instance: 3,
                instance_count: 4,
            }
        )
    );
    let draw = call(alloc, "draw_indirect 1 2 3")?;
    assert!(rt;
        matches!(
            draw,
            OwnedCall::DrawIndirect {
                buffer: 1,
                offset: 2,
                count: 3,
            }
        )
    );
    let OwnedCall::DispatchWorkgroups(groups) = call(alloc, "dispatch_workgroups 1 2 3")? else {
        return Err(Fail::new("another call"));
    };
    assert_eq!(rt; groups, [1, 2, 3]);
    let dispatch = call(alloc, "dispatch_workgroups_indirect 1 0x100000000")?;
    assert!(rt;
        matches!(
            dispatch,
            OwnedCall::DispatchWorkgroupsIndirect {
                buffer: 1,
                offset: 4_294_967_296,
            }
        )
    );
    Ok(())
}

#[test]
fn definitions(rt: HostRuntime) -> Result<(), Fail> {
    let alloc = rt.alloc();
    assert!(rt; matches!(read(alloc, "null_target 9")?, Line::NullTarget(9)));
    assert!(rt; matches!(read(alloc, "list_bytes 65536")?, Line::ListBytes(65536)));
    let scratch = read(alloc, "scratch 8 2")?;
    assert!(rt; matches!(scratch, Line::Scratch { length: 8, fill: 2 }));
    let text = "layout L0 5 4 special 0 own immediates 1 2 group 3 2 table 1 special 0";
    let Line::Layout { name, parts } = read(alloc, text)? else {
        return Err(Fail::new("another line"));
    };
    assert!(rt; name.as_str() == "L0" && (parts.signature, parts.total) == (5, 4));
    assert!(rt;
        parts
            .special
            .is_some_and(|s| s.root_index == 0 && !s.own_signature)
    );
    assert!(rt;
        parts
            .immediates
            .is_some_and(|i| (i.root_index, i.size) == (1, 2))
    );
    let [None, None, None, Some(info), None, None, None, None] = parts.groups else {
        return Err(Fail::new("other groups"));
    };
    assert!(rt; (info.base_root_index, info.uniforms) == (2, 1) && info.table);
    let text = "render_pipeline R0 9 L0 4 stride 15 16 stride 0 0";
    let Line::RenderPipeline { name, parts } = read(alloc, text)? else {
        return Err(Fail::new("another line"));
    };
    assert!(rt; name.as_str() == "R0" && (parts.handle, parts.topology) == (9, 4));
    assert!(rt; parts.strides[0] == Some(0) && parts.strides[15] == Some(16));
    assert!(rt; parts.strides[1].is_none() && parts.layout.as_str() == "L0");
    Ok(())
}

#[test]
fn bad_lines(rt: HostRuntime) -> Result<(), Fail> {
    for text in [
        "jump",
        "Draw 1 2 3 4",
        "begin_encoding 1",
        "draw 1 2 3",
        "draw 1 2 3 4 5",
        "draw 1 2 3 4294967296",
        "draw 1 2 3 -4",
        "draw 1 2 3 +4",
        "draw 1 2 3 0x",
        "draw 1 2 3 0x+4",
        "draw 1 2 3 four",
        "dispatch_workgroups 1 2",
        "draw_indirect 1 18446744073709551616 3",
        "transition_buffers 1 2",
        "transition_textures 1 2 3 4",
        "begin_compute_pass",
        "begin_compute_pass abc",
        "begin_compute_pass xy",
        "begin_render_pass - 1",
        "begin_render_pass - 1 1 some",
        "begin_render_pass - 1 1 target 1 2 3 4 5",
        "set_bind_group L0 1 2 3",
        "set_immediates L0",
        "set_immediates L0 0 0x100000000",
        "set_render_pipeline",
        "set_compute_pipeline C0 C1",
        "set_vertex_buffer 1 2 3 4",
        "set_viewport 1 2 3 4 5",
        "set_scissor_rect 1 2 3 4 5",
        "layout L0 1",
        "layout L0 1 2 own",
        "layout L0 1 2 special",
        "layout L0 1 2 immediates 1",
        "layout L0 1 2 group 1 2 tables 3",
        "layout L0 1 2 group 1 2 table 3 group 1 2 plain 3",
        "layout L0 1 2 group 8 2 table 3 immediates",
        "render_pipeline R0 1 L0 4 stride 16 1",
        "render_pipeline R0 1 L0 4 stride 1",
        "render_pipeline R0 1 L0 4 strides 1 1",
        "compute_pipeline C0 1",
        "null_target",
        "list_bytes 1 2",
        "scratch 1",
    ] {
        refused(&rt, text, "bad line")?;
    }
    Ok(())
}

// What is printed of a line that defines, if something is.
fn define(alloc: Global, names: &mut Names, text: &str) -> Result<Option<String>, Fail> {
    let defined = match read(alloc, text) {
        Ok(Line::Layout { name, parts }) => names.define_layout(name, &parts),
        Ok(Line::RenderPipeline { name, parts }) => names.define_render_pipeline(name, &parts),
        Ok(Line::ComputePipeline { name, parts }) => names.define_compute_pipeline(name, &parts),
        Ok(_) => return Err(Fail::new("no definition")),
        Err(error) => Err(error),
    };
    match defined {
        Ok(()) => Ok(None),
        Err(error) => Ok(Some(error.to_string(alloc)?)),
    }
}

#[test]
fn names_of_layouts_and_pipelines(rt: HostRuntime) -> Result<(), Fail> {
    let alloc = rt.alloc();
    let mut names = Names::new(alloc);
    for (text, told) in [
        ("compute_pipeline C0 9 L0", "unknown L0"),
        ("layout L0 0 1 special 0", "refused 1 0"),
        ("layout L0 5 1 special 1", "refused 11 0"),
        ("layout L0 5 1", "refused 12 0"),
        ("layout L0 5 1 group 8 0 table 0", "refused 1 0"),
        (
            "layout L0 5 1 group 4294967295 0 table 0 group 0 0 table 0",
            "refused 1 0",
        ),
        ("render_pipeline R0 9 L0 4", "unknown L0"),
        ("layout L0 5 1 special 0", ""),
        ("render_pipeline R0 9 L0 4 stride 1 16", ""),
        ("compute_pipeline C0 8 L0", ""),
        ("layout L0 6 0", ""),
        ("layout L0 0 0", "refused 1 0"),
        ("compute_pipeline C0 7 L0", ""),
    ] {
        let printed = define(alloc, &mut names, text)?;
        let printed = printed.as_ref().map_or("", |line| line.as_str());
        assert!(rt; printed == told, "{text}");
    }
    assert_eq!(rt; names.layout("L0")?.signature(), 6);
    let pipeline = names.render_pipeline("R0")?;
    assert_eq!(rt; (pipeline.handle, pipeline.topology), (9, 4));
    assert!(rt; pipeline.layout.signature() == 5 && pipeline.vertex_strides[1] == Some(16));
    let pipeline = names.compute_pipeline("C0")?;
    assert_eq!(rt; (pipeline.handle, pipeline.layout.signature()), (7, 6));
    assert!(rt; names.layout("R0").is_err() && names.render_pipeline("C0").is_err());
    Ok(())
}
