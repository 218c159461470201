// Inputs at which the Rust does otherwise, by the names that the page of differences gives them. A group before its
// pipeline, and special constants behind an indirect draw, are among the worked plots.
use crate::plots::{FIRST, agree, driven, pipeline};
use command_list::command::{Command, Fixed, Half};
use command_list::fault::Fault;
use encoder::attachment::ColorAttachment;
use layouts::info::{BindGroupInfo, PipelineLayoutSpecialConstants};
use layouts::layout::PipelineLayout;
use layouts::pipeline::{ComputePipeline, RenderPipeline};
use list_bytes::ListBytes;
use passes::state::BindGroup;
use runs::call::{Answer, Call};
use std::test::Fail;

const TARGET: ColorAttachment = ColorAttachment {
    target: 1,
    ops: 0,
    clear_value: [0; 4],
};

fn open(attachments: &[Option<ColorAttachment>]) -> Call<'_> {
    Call::BeginRenderPass {
        label: None,
        width: 1,
        height: 1,
        attachments,
    }
}

// A layout of signature 5 with one group, and perhaps special constants at slot 0.
fn layout(
    total: u32,
    special: Option<PipelineLayoutSpecialConstants>,
    info: BindGroupInfo,
) -> Result<PipelineLayout, Fault> {
    let groups = [Some(info), None, None, None, None, None, None, None];
    PipelineLayout::new(5, total, special, None, groups)
}

fn set_pipeline(pipeline: &RenderPipeline) -> Call<'_> {
    Call::SetRenderPipeline(pipeline)
}

#[test]
fn a_layout_of_64_slots(rt: HostRuntime) -> Result<(), Fail> {
    let whole = BindGroupInfo {
        base_root_index: 0,
        table: true,
        uniforms: 63,
    };
    let pipeline = pipeline(layout(64, None, whole)?);
    let attachments = [Some(TARGET)];
    let calls = [
        Call::BeginEncoding,
        open(&attachments),
        set_pipeline(&pipeline),
    ];
    assert!(rt; agree(&calls, &FIRST[..7])?);
    Ok(())
}

const SPECIAL: Option<PipelineLayoutSpecialConstants> = Some(PipelineLayoutSpecialConstants {
    root_index: 0,
    own_signature: true,
});

const SLOTLESS: BindGroupInfo = BindGroupInfo {
    base_root_index: 64,
    table: false,
    uniforms: 0,
};

fn bind(layout: &PipelineLayout) -> Call<'_> {
    Call::SetBindGroup {
        layout,
        index: 0,
        group: BindGroup {
            table: 0,
            dynamic_buffers: &[],
        },
        dynamic_offsets: &[],
    }
}

#[test]
fn a_group_that_owns_no_slot(rt: HostRuntime) -> Result<(), Fail> {
    let layout = layout(1, SPECIAL, SLOTLESS)?;
    let pipeline = pipeline(layout);
    let attachments = [Some(TARGET)];
    let calls = [
        Call::BeginEncoding,
        open(&attachments),
        set_pipeline(&pipeline),
        bind(&layout),
    ];
    assert!(rt; agree(&calls, &FIRST[..7])?);
    Ok(())
}

#[test]
fn a_clear_colour_by_its_patterns(rt: HostRuntime) -> Result<(), Fail> {
    let colour = [0x7F80_0001, 0, 0, 0];
    let attachments = [Some(ColorAttachment {
        target: 1,
        ops: 2,
        clear_value: colour,
    })];
    let calls = [Call::BeginEncoding, open(&attachments)];
    let [a, b, c, d, ..] = FIRST;
    let clear = Command::Fixed(Fixed::ClearRenderTargetView { target: 1, colour });
    assert!(rt; agree(&calls, &[a, b, clear, c, d])?);
    Ok(())
}

fn word(word: u8, value: u32) -> Command<'static> {
    Command::Fixed(Fixed::SetRoot32BitConstant {
        half: Half::Compute,
        slot: 0,
        word,
        value,
    })
}

#[test]
fn special_constants_behind_an_indirect_dispatch(rt: HostRuntime) -> Result<(), Fail> {
    let pipeline = ComputePipeline {
        handle: 9,
        layout: layout(1, SPECIAL, SLOTLESS)?,
    };
    let calls = [
        Call::BeginEncoding,
        Call::BeginComputePass { label: None },
        Call::SetComputePipeline(&pipeline),
        Call::DispatchWorkgroups([1, 2, 3]),
        Call::DispatchWorkgroupsIndirect {
            buffer: 33,
            offset: 0,
        },
        Call::DispatchWorkgroups([1, 2, 3]),
    ];
    let dispatch = Command::Fixed(Fixed::Dispatch { x: 1, y: 2, z: 3 });
    let commands = [
        Command::Fixed(Fixed::SetDescriptorHeaps(true)),
        Command::Fixed(Fixed::SetRootSignature {
            half: Half::Compute,
            signature: 5,
        }),
        Command::Fixed(Fixed::SetPipelineState(9)),
        word(0, 1),
        word(1, 2),
        word(2, 3),
        dispatch,
        Command::Fixed(Fixed::ExecuteIndirect {
            half: Half::Compute,
            special: Some(0),
            count: 1,
            buffer: 33,
            offset: 0,
        }),
        word(0, 1),
        word(1, 2),
        word(2, 3),
        dispatch,
    ];
    assert!(rt; agree(&calls, &commands)?);
    Ok(())
}

#[test]
fn nine_attachments(rt: HostRuntime) -> Result<(), Fail> {
    let attachments = [Some(TARGET); 9];
    let calls = [Call::BeginEncoding, open(&attachments)];
    let mut bytes = [0u8; 1024];
    let (_, answers) = driven(ListBytes::new(&mut bytes)?, &calls);
    let Answer::Refused(fault) = answers[1] else {
        return Err(Fail::new("the opening is not refused"));
    };
    assert_eq!(rt; (u8::from(fault.number), fault.place), (1, 8));
    Ok(())
}
