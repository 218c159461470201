// The worked plots, driven over list bytes: the same calls, and the same commands.

use bindings::binding::{Buffer, BufferBinding};
use command_list::command::{Barrier, BarrierType, Command, Fixed, Half};
use command_list::fault::Fault;
use device::recorder::Recorder;
use encoder::attachment::ColorAttachment;
use layouts::info::{BindGroupInfo, PipelineLayoutSpecialConstants};
use layouts::layout::PipelineLayout;
use layouts::pipeline::RenderPipeline;
use list_bytes::ListBytes;
use passes::state::BindGroup;
use resources::barrier::{BufferBarrier, StateTransition};
use resources::scratch::{Mark, Scratch};
use resources::uses::BufferUses;
use runs::call::{Answer, Call};
use runs::drive::encode;
use std::test::Fail;

// Float patterns.
const ONE: u32 = 0x3F80_0000;

const MOST_CALLS: usize = 12;

// Signature 5, three slots: group 0 at slot 0 with a table and one uniform, special constants at slot 2.
fn layout(own_signature: bool) -> Result<PipelineLayout, Fault> {
    let group = BindGroupInfo {
        base_root_index: 0,
        table: true,
        uniforms: 1,
    };
    PipelineLayout::new(
        5,
        3,
        Some(PipelineLayoutSpecialConstants {
            root_index: 2,
            own_signature,
        }),
        None,
        [Some(group), None, None, None, None, None, None, None],
    )
}

// Pipeline 9 of a layout, with stride 16 at vertex slot 0.
pub(crate) fn pipeline(layout: PipelineLayout) -> RenderPipeline {
    let mut vertex_strides = [None; 16];
    vertex_strides[0] = Some(16);
    RenderPipeline {
        handle: 9,
        layout,
        topology: 4,
        vertex_strides,
    }
}

// What the calls of a plot are made of.
#[derive(Clone, Copy)]
struct Parts {
    layout: PipelineLayout,
    pipeline: RenderPipeline,
    samples: BufferBinding,
    bases: [u64; 1],
    offsets: [u32; 1],
    attachments: [Option<ColorAttachment>; 1],
}

fn make_parts(own_signature: bool) -> Result<Parts, Fault> {
    let layout = layout(own_signature)?;
    Ok(Parts {
        layout,
        pipeline: pipeline(layout),
        samples: BufferBinding {
            buffer: Buffer {
                address: 1048576,
                size: 4096,
            },
            offset: 0,
            size: 0,
        },
        bases: [65536],
        offsets: [256],
        attachments: [Some(ColorAttachment {
            target: 1,
            ops: 0,
            clear_value: [0; 4],
        })],
    })
}

fn open(parts: &Parts) -> Call<'_> {
    Call::BeginRenderPass {
        label: None,
        width: 1,
        height: 1,
        attachments: &parts.attachments,
    }
}

fn set_pipeline(parts: &Parts) -> Call<'_> {
    Call::SetRenderPipeline(&parts.pipeline)
}

// Group 0: table 4096, uniform 65536 + 256.
fn group(parts: &Parts) -> Call<'_> {
    Call::SetBindGroup {
        layout: &parts.layout,
        index: 0,
        group: BindGroup {
            table: 4096,
            dynamic_buffers: &parts.bases,
        },
        dynamic_offsets: &parts.offsets,
    }
}

// The samples, at vertex slot 0.
fn set_samples<'a>(parts: &'a Parts) -> Call<'a> {
    Call::SetVertexBuffer {
        index: 0,
        binding: parts.samples,
    }
}

// Three vertices from a first one, one instance from 0.
fn curve<'a>(first_vertex: u32, _: &'a Parts) -> Call<'a> {
    Call::Draw {
        first_vertex,
        vertex_count: 3,
        first_instance: 0,
        instance_count: 1,
    }
}

// Calls driven over a recorder, with a scratch whose first entry is the host's: the recorder, and the answers.
pub(crate) fn driven<R: Recorder>(recorder: R, calls: &[Call<'_>]) -> (R, [Answer; MOST_CALLS]) {
    let mut entries = [Barrier {
        kind: BarrierType::Uav,
        resource: 0,
        subresource: 0,
        before: 0,
        after: 0,
    }; 4];
    let mut scratch = Scratch {
        entries: &mut entries,
        mark: Mark { fill: 1 },
    };
    let mut answers = [Answer::NotOffered; MOST_CALLS];
    let recorder = encode(recorder, 0, &mut scratch, calls, &mut answers);
    (recorder, answers)
}

// A recorder that is given commands.
fn given<R: Recorder + Drop>(recorder: R, commands: &[Command<'_>]) -> Result<R, Fault> {
    let mut recorder = recorder;
    for command in commands {
        recorder.record(*command)?;
    }
    Ok(recorder)
}

// Whether calls over list bytes make the same list as commands that are recorded one by one.
pub(crate) fn agree(calls: &[Call<'_>], commands: &[Command<'_>]) -> Result<bool, Fault> {
    let mut made = [0u8; 1024];
    let (list, _) = driven(ListBytes::new(&mut made)?, calls);
    let mut wanted = [0u8; 1024];
    let other = given(ListBytes::new(&mut wanted)?, commands)?;
    Ok(list.list() == other.list())
}

const fn root_constant(word: u8, value: u32) -> Command<'static> {
    Command::Fixed(Fixed::SetRoot32BitConstant {
        half: Half::Graphics,
        slot: 2,
        word,
        value,
    })
}

fn draw(first_vertex: u32) -> Command<'static> {
    Command::Fixed(Fixed::DrawInstanced {
        vertices: 3,
        instances: 1,
        first_vertex,
        first_instance: 0,
    })
}

// The opening's commands, the pipeline's, and those of the first draw but for its constants and itself.
pub(crate) const FIRST: [Command<'static>; 10] = [
    Command::Fixed(Fixed::SetDescriptorHeaps(true)),
    Command::OMSetRenderTargets(&[1]),
    Command::Fixed(Fixed::RSSetViewports([0, 0, ONE, ONE, 0, ONE])),
    Command::Fixed(Fixed::RSSetScissorRects {
        left: 0,
        top: 0,
        right: 1,
        bottom: 1,
    }),
    Command::Fixed(Fixed::SetRootSignature {
        half: Half::Graphics,
        signature: 5,
    }),
    Command::Fixed(Fixed::SetPipelineState(9)),
    Command::Fixed(Fixed::IASetPrimitiveTopology(4)),
    Command::Fixed(Fixed::IASetVertexBuffers {
        slot: 0,
        address: 1048576,
        size: 4096,
        stride: 16,
    }),
    Command::Fixed(Fixed::SetRootDescriptorTable {
        half: Half::Graphics,
        slot: 0,
        address: 4096,
    }),
    Command::Fixed(Fixed::SetRootConstantBufferView {
        half: Half::Graphics,
        slot: 1,
        address: 65792,
    }),
];

#[test]
fn curves(rt: HostRuntime) -> Result<(), Fail> {
    let parts = make_parts(false)?;
    let calls = [
        Call::BeginEncoding,
        open(&parts),
        set_pipeline(&parts),
        set_samples(&parts),
        group(&parts),
        curve(7, &parts),
        curve(7, &parts),
        curve(8, &parts),
        curve(4_294_967_295, &parts),
    ];
    let [a, b, c, d, e, f, g, h, i, j] = FIRST;
    let commands = [
        a,
        b,
        c,
        d,
        e,
        f,
        g,
        h,
        i,
        j,
        root_constant(0, 7),
        root_constant(1, 0),
        draw(7),
        draw(7),
        root_constant(0, 8),
        root_constant(1, 0),
        draw(8),
        root_constant(0, 4_294_967_295),
        root_constant(1, 0),
        draw(4_294_967_295),
    ];
    assert!(rt; agree(&calls, &commands)?);
    Ok(())
}

// Whether a list over these bytes takes a first draw, behind the version, an opening of 62 bytes and a pipeline of 21.
fn first_draw_fits(bytes: &mut [u8]) -> Result<bool, Fault> {
    let parts = make_parts(false)?;
    let calls = [
        Call::BeginEncoding,
        open(&parts),
        set_pipeline(&parts),
        set_samples(&parts),
        group(&parts),
        curve(7, &parts),
    ];
    let (_, answers) = driven(ListBytes::new(bytes)?, &calls);
    Ok(matches!(answers[5], Answer::Taken))
}

#[test]
fn the_first_draw_takes_81_bytes(rt: HostRuntime) -> Result<(), Fail> {
    let mut enough = [0u8; 165];
    assert!(rt; first_draw_fits(&mut enough)?);
    let mut short = [0u8; 164];
    assert!(rt; !first_draw_fits(&mut short)?);
    Ok(())
}

#[test]
fn markers_with_an_own_signature(rt: HostRuntime) -> Result<(), Fail> {
    let parts = make_parts(true)?;
    let indirect = Call::DrawIndirect {
        buffer: 33,
        offset: 0,
        draw_count: 1,
    };
    let calls = [
        Call::BeginEncoding,
        open(&parts),
        set_pipeline(&parts),
        set_samples(&parts),
        group(&parts),
        curve(7, &parts),
        indirect,
        curve(7, &parts),
    ];
    let [a, b, c, d, e, f, g, h, i, j] = FIRST;
    let commands = [
        a,
        b,
        c,
        d,
        e,
        f,
        g,
        h,
        i,
        j,
        root_constant(0, 7),
        root_constant(1, 0),
        draw(7),
        Command::Fixed(Fixed::ExecuteIndirect {
            half: Half::Graphics,
            special: Some(2),
            count: 1,
            buffer: 33,
            offset: 0,
        }),
        root_constant(0, 7),
        root_constant(1, 0),
        draw(7),
    ];
    assert!(rt; agree(&calls, &commands)?);
    Ok(())
}

#[test]
fn a_group_first_and_then_its_pipeline(rt: HostRuntime) -> Result<(), Fail> {
    let parts = make_parts(false)?;
    let calls = [
        Call::BeginEncoding,
        open(&parts),
        group(&parts),
        set_pipeline(&parts),
    ];
    assert!(rt; agree(&calls, &FIRST[..7])?);
    Ok(())
}

#[test]
fn a_draw_without_its_group(rt: HostRuntime) -> Result<(), Fail> {
    let parts = make_parts(false)?;
    let calls = [
        Call::BeginEncoding,
        open(&parts),
        set_pipeline(&parts),
        set_samples(&parts),
        curve(7, &parts),
    ];
    let mut bytes = [0u8; 1024];
    let (_, answers) = driven(ListBytes::new(&mut bytes)?, &calls);
    let Answer::Refused(fault) = answers[4] else {
        return Err(Fail::new("the draw is not refused"));
    };
    assert_eq!(rt; (u8::from(fault.number), fault.place), (8, 0));
    Ok(())
}

fn change(from: u32, to: u32) -> BufferBarrier {
    BufferBarrier {
        resource: 7,
        usage: StateTransition {
            from: BufferUses { bits: from },
            to: BufferUses { bits: to },
        },
    }
}

const UPLOADED: Barrier = Barrier {
    kind: BarrierType::Transition,
    resource: 7,
    subresource: 0xFFFF_FFFF,
    before: 0x400,
    after: 0x1,
};

const IN_ORDER: Barrier = Barrier {
    kind: BarrierType::Uav,
    resource: 7,
    subresource: 0,
    before: 0,
    after: 0,
};

#[test]
fn changes_of_usage(rt: HostRuntime) -> Result<(), Fail> {
    let upload = [change(2, 8)];
    let storage = [change(64, 64)];
    let same = [change(65, 65)];
    let calls = [
        Call::BeginEncoding,
        Call::TransitionBuffers(&upload),
        Call::TransitionBuffers(&storage),
        Call::TransitionBuffers(&same),
    ];
    let commands = [
        Command::ResourceBarrier(&[UPLOADED]),
        Command::ResourceBarrier(&[IN_ORDER]),
    ];
    assert!(rt; agree(&calls, &commands)?);
    Ok(())
}

#[test]
fn a_labelled_pass(rt: HostRuntime) -> Result<(), Fail> {
    let label = [0xC3, 0xA9];
    let calls = [
        Call::BeginEncoding,
        Call::BeginComputePass {
            label: Some(&label),
        },
    ];
    let mut bytes = [0u8; 1024];
    let (list, _) = driven(ListBytes::new(&mut bytes)?, &calls);
    assert!(rt; list.list() == [1, 0, 5, 1, 0, 0xE9, 0, 0, 0, 2, 3, 1].as_slice());
    Ok(())
}
