// Tests of what is printed: a record of each code, and the record of a pass.
use crate::line::{Line, OwnedCall, read};
use crate::names::Names;
use crate::not_done::NotDone;
use crate::shown::{ShownPass, ShownRecord};
use command_list::command::{Fixed, Half};
use command_list::record::{Record, Rows};
use passes::state::{BindGroup, PassState};
use std::alloc::Global;
use std::process::Abort;
use std::test::Fail;

fn printed(rt: &(impl Abort + AllocGlobal), record: Record, wanted: &str) -> Result<(), Fail> {
    let line = ShownRecord(record).to_string(rt.alloc())?;
    assert!(rt; line.as_str() == wanted, "{line}");
    Ok(())
}

#[test]
fn records_with_lists(rt: HostRuntime) -> Result<(), Fail> {
    let units = Rows::over(&[0x00, 0x78, 0, 0]);
    printed(&rt, Record::BeginEvent(units), "1 120 0")?;
    let none = Rows::over(&[]);
    printed(&rt, Record::OMSetRenderTargets(none), "16 0")?;
    let target = Rows::over(&[0, 0, 0, 0, 0xF6, 0xF8, 0x52, 0xD9]);
    printed(&rt, Record::OMSetRenderTargets(target), "16 1 4143469273")?;
    let entries = Rows::over(&[
        0, 0, 0, 0, 41, 0xFF, 0xFF, 0xFF, 0xFF, 0, 0, 0, 8, 0, 0, 4, 0xFC, 2, 0, 0, 0, 7, 0xFF,
        0xFF, 0xFF, 0xFF, 0, 0, 0, 0, 0, 0, 0, 0,
    ]);
    let wanted = "22 0 41 4294967295 8 1276 2 7 4294967295 0 0";
    printed(&rt, Record::ResourceBarrier(entries), wanted)
}

#[test]
fn records_of_a_fixed_width(rt: HostRuntime) -> Result<(), Fail> {
    let view = Fixed::IASetVertexBuffers {
        slot: 3,
        address: 62305974587376212,
        size: 1524191319,
        stride: 4,
    };
    let rect = Fixed::RSSetScissorRects {
        left: 1,
        top: 2,
        right: 5046,
        bottom: 3,
    };
    let draw = Fixed::DrawInstanced {
        vertices: 1,
        instances: 7,
        first_vertex: 3,
        first_instance: 4,
    };
    let clear = Fixed::ClearRenderTargetView {
        target: 4143474361,
        colour: [4229997132, 0, 2556421189, 3607668175],
    };
    for (fixed, wanted) in [
        (Fixed::EndEvent, "2"),
        (Fixed::SetDescriptorHeaps(true), "3 1"),
        (Fixed::SetDescriptorHeaps(false), "3 0"),
        (Fixed::SetPipelineState(104), "6 104"),
        (Fixed::IASetPrimitiveTopology(5), "7 5"),
        (view, "8 3 62305974587376212 1524191319 4"),
        (clear, "17 4143474361 4229997132 0 2556421189 3607668175"),
        (
            Fixed::RSSetViewports([0, 0, 1167962112, 1065353216, 0, 1]),
            "20 0 0 1167962112 1065353216 0 1",
        ),
        (rect, "21 1 2 5046 3"),
        (draw, "28 1 7 3 4"),
        (Fixed::Dispatch { x: 7, y: 0, z: 1 }, "30 7 0 1"),
    ] {
        printed(&rt, Record::Fixed(fixed), wanted)?;
    }
    Ok(())
}

// The records that each half has its code of.
fn of_half(half: Half) -> [Fixed; 5] {
    [
        Fixed::SetRootSignature {
            half,
            signature: 39,
        },
        Fixed::SetRoot32BitConstant {
            half,
            slot: 28,
            word: 1,
            value: 7,
        },
        Fixed::SetRootDescriptorTable {
            half,
            slot: 0,
            address: 4096,
        },
        Fixed::SetRootConstantBufferView {
            half,
            slot: 1,
            address: 27780689781856512,
        },
        Fixed::ExecuteIndirect {
            half,
            special: None,
            count: 1,
            buffer: 2228651740,
            offset: 239900934181,
        },
    ]
}

#[test]
fn records_of_each_half(rt: HostRuntime) -> Result<(), Fail> {
    let graphics = [
        "4 39",
        "10 28 1 7",
        "12 0 4096",
        "14 1 27780689781856512",
        "31 0 255 1 2228651740 239900934181",
    ];
    for (fixed, wanted) in of_half(Half::Graphics).iter().zip(graphics.iter()) {
        printed(&rt, Record::Fixed(*fixed), wanted)?;
    }
    let compute = [
        "5 39",
        "11 28 1 7",
        "13 0 4096",
        "15 1 27780689781856512",
        "31 2 255 1 2228651740 239900934181",
    ];
    for (fixed, wanted) in of_half(Half::Compute).iter().zip(compute.iter()) {
        printed(&rt, Record::Fixed(*fixed), wanted)?;
    }
    let special = Fixed::ExecuteIndirect {
        half: Half::Compute,
        special: Some(7),
        count: 1,
        buffer: 2,
        offset: 3,
    };
    printed(&rt, Record::Fixed(special), "31 2 7 1 2 3")
}

// What a line makes of the names and of the record of a pass.
fn follow(
    alloc: Global,
    names: &mut Names,
    pass: &mut PassState,
    text: &str,
) -> Result<(), NotDone> {
    match read(alloc, text)? {
        Line::Layout { name, parts } => names.define_layout(name, &parts)?,
        Line::ComputePipeline { name, parts } => names.define_compute_pipeline(name, &parts)?,
        Line::Call(OwnedCall::SetComputePipeline(name)) => {
            pass.set_compute_pipeline(&names.compute_pipeline(name.as_str())?)
        }
        Line::Call(OwnedCall::SetVertexBuffer { slot, binding }) => {
            pass.set_vertex_buffer(slot, binding)?
        }
        Line::Call(
            OwnedCall::SetImmediates {
                layout,
                offset_bytes,
                words,
            },
        ) => {
            let layout = names.layout(layout.as_str())?;
            pass.set_immediates(&layout, offset_bytes, words.as_slice())?;
        }
        Line::Call(
            OwnedCall::SetBindGroup {
                layout,
                index,
                table,
                bases,
                offsets,
            },
        ) => {
            let layout = names.layout(layout.as_str())?;
            let group = BindGroup {
                table,
                dynamic_buffers: bases.as_slice(),
            };
            pass.set_bind_group(&layout, index, group, offsets.as_slice())?;
        }
        _ => return Err(NotDone::NotOffered),
    }
    Ok(())
}

// Lines, and the record of a pass behind each.
fn followed(
    rt: &(impl Abort + AllocGlobal),
    names: &mut Names,
    half: Half,
    lines: &[(&str, &str)],
) -> Result<(), Fail> {
    let alloc = rt.alloc();
    let mut pass = PassState::new(half, false);
    for (text, wanted) in lines {
        follow(alloc, names, &mut pass, text)?;
        let line = ShownPass(&pass).to_string(alloc)?;
        assert!(rt; line.as_str() == *wanted, "{line}");
    }
    Ok(())
}

// What the Rust's encoder has after the same calls: its text was compiled unchanged over stand-ins,
// and asked.
#[test]
fn records_of_passes(rt: HostRuntime) -> Result<(), Fail> {
    let mut names = Names::new(rt.alloc());
    let render = [
        (
            "layout L1 45 3 immediates 1 1 group 0 2 plain 1 group 6 0 plain 1 group 7 1 plain 0",
            "pass 0 0x0 0x0",
        ),
        (
            "set_vertex_buffer 1 32960344008900608 117487795 0 0",
            "pass 0 0x0 0x2 v1:32960344008900608:117487795:0",
        ),
        (
            "set_bind_group L1 7 0",
            "pass 45 0x7 0x2 v1:32960344008900608:117487795:0",
        ),
    ];
    followed(&rt, &mut names, Half::Graphics, &render)?;
    let compute = [
        (
            "layout L0 83 5 special 0 immediates 1 1 group 0 2 table 2",
            "pass 0 0x0 0x0",
        ),
        ("compute_pipeline C1 103 L0", "pass 0 0x0 0x0"),
        (
            "set_compute_pipeline C1",
            "pass 83 0x1f 0x0 0:special:0,0,0",
        ),
        (
            "set_immediates L0 52 163374875 1 1 2",
            "pass 83 0x1f 0x0 0:special:0,0,0 1:immediates:0",
        ),
        (
            "set_bind_group L0 0 4096 216555008 512 212441600 3032026880",
            "pass 83 0x1f 0x0 0:special:0,0,0 1:immediates:0 2:table:4096 3:uniform:216555520 4:uniform:3244468480",
        ),
    ];
    followed(&rt, &mut names, Half::Compute, &compute)
}
