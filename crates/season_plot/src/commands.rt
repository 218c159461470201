// The plot as the commands that it comes to.
ghost use Rattle.std.specs.Prelude.{◌≡◌, map};
ghost use Rattle.command_list.specs.declared.command.Half.TheVariants.{Graphics};
ghost use Rattle.command_list.specs.Commands.{SetRoot32BitConstant, IASetVertexBuffers, DrawInstanced};
ghost use Rattle.command_list.specs.Seen.{given_command};
ghost use Rattle.season_plot.specs.Plot.{plot_commands};

use command_list::command::{Barrier, Command, Fixed, Half};

// Float patterns.
const ONE: u32 = 0x3F80_0000;

const WIDTH: u32 = 0x4420_0000;

const HEIGHT: u32 = 0x43F0_0000;

const TARGETS: [u64; 1] = [1];

// The bytes of the axes' vertices, and of a gauge's samples.
const AXES: u32 = 48;

const SAMPLES: u32 = 8192;

// The vertices of a line, at vertex slot 0.
fn vertices(address: u64, size: u32) -> Command<'static>
    ensures { given_command result ≡ IASetVertexBuffers 0 address size 16 }
{
    Command::Fixed(Fixed::IASetVertexBuffers {
        slot: 0,
        address,
        size,
        stride: 16,
    })
}

// A word of the special constants, which this plot has at root slot 2.
fn special(word: u8, value: u32) -> Command<'static>
    ensures { given_command result ≡ SetRoot32BitConstant Graphics 2 word value }
{
    Command::Fixed(Fixed::SetRoot32BitConstant {
        half: Half::Graphics,
        slot: 2,
        word,
        value,
    })
}

// A line through so many samples, from a first one on.
fn line(first: u32, count: u32) -> Command<'static>
    ensures { given_command result ≡ DrawInstanced count 1 first 0 }
{
    Command::Fixed(Fixed::DrawInstanced {
        vertices: count,
        instances: 1,
        first_vertex: first,
        first_instance: 0,
    })
}

/// How many commands the plot's calls come to.
pub const COMMANDS: usize = 27;

/// The plot's commands in their order, with the upload's barriers and the label's UTF-16 units:
/// what an encoder records of the plot's calls.
pub fn commands<'a>(upload: &'a [Barrier], label: &'a [u16]) -> [Command<'a>; COMMANDS]
    ensures { map given_command result ≡ plot_commands upload.now label.now }
{
    [
        Command::ResourceBarrier(upload),
        Command::BeginEvent(label),
        Command::Fixed(Fixed::SetDescriptorHeaps(true)),
        Command::OMSetRenderTargets(&TARGETS),
        Command::Fixed(Fixed::ClearRenderTargetView {
            target: 1,
            colour: [ONE; 4],
        }),
        Command::Fixed(Fixed::RSSetViewports([0, 0, WIDTH, HEIGHT, 0, ONE])),
        Command::Fixed(Fixed::RSSetScissorRects {
            left: 0,
            top: 0,
            right: 640,
            bottom: 480,
        }),
        Command::Fixed(Fixed::SetRootSignature {
            half: Half::Graphics,
            signature: 5,
        }),
        Command::Fixed(Fixed::SetPipelineState(9)),
        Command::Fixed(Fixed::IASetPrimitiveTopology(3)),
        vertices(524288, AXES),
        Command::Fixed(Fixed::SetRootDescriptorTable {
            half: Half::Graphics,
            slot: 0,
            address: 4096,
        }),
        Command::Fixed(Fixed::SetRootConstantBufferView {
            half: Half::Graphics,
            slot: 1,
            address: 65792,
        }),
        special(0, 0),
        special(1, 0),
        line(0, 3),
        vertices(1048576, SAMPLES),
        special(0, 7),
        special(1, 0),
        line(7, 360),
        Command::Fixed(Fixed::ExecuteIndirect {
            half: Half::Graphics,
            special: Some(2),
            count: 4,
            buffer: 8,
            offset: 0,
        }),
        vertices(2097152, SAMPLES),
        special(0, 7),
        special(1, 0),
        line(7, 360),
        Command::Fixed(Fixed::SetDescriptorHeaps(false)),
        Command::Fixed(Fixed::EndEvent),
    ]
}
