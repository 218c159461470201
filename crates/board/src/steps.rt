// What a command does to the state.
ghost use Rattle.std.specs.Prelude.{◌≡◌, ℕ, ◌+◌, ◌-◌, ◌^◌, ◌<◌, true};
ghost use Rattle.command_list.specs.Commands.{in_range, byte_of};
ghost use Rattle.command_list.specs.Seen.{fixed_command};
ghost use Rattle.device.specs.Devices.{effect as effect_of, step as step_of, counted, attached};
ghost use Rattle.board.specs.Boards.{device_of, view_of, Spare, Spares};

use crate::state::{RootSlot, State, View};
use command_list::code::Code;
use command_list::command::Fixed;
use list_writer::writer::Recordable;

impl State {
    // A vertex view is replaced, which is a write.
    fn attach(&mut self, i: usize, view: View)
        requires within { i < 16 }
        requires room { (device_of self.old).vertex_writes i + 1 < 2 ^ 64 }
        ensures { device_of self.new ≡ attached i (view_of view) (device_of self.old) }
    {
        self.vertices[i].put(view);
    }

    // What a command of a fixed width changes besides its code's count.
    fn effect(&mut self, fixed: Fixed)
        requires ranged { in_range (fixed_command fixed) ≡ true }
        requires room { Spares (device_of self.old) 1 (2 ^ 64 - 1) }
        ensures { device_of self.new ≡ effect_of (fixed_command fixed) (device_of self.old) }
    {
        match fixed {
            Fixed::SetRootSignature { half, signature } => self.half_mut(half).sign(signature),
            Fixed::SetPipelineState(pipeline) => self.pipeline = pipeline,
            Fixed::IASetVertexBuffers {
                slot,
                address,
                size,
                stride,
            } => self.attach(
                slot as usize,
                View {
                    address,
                    size,
                    stride,
                },
            ),
            Fixed::SetRoot32BitConstant {
                half,
                slot,
                word,
                value,
            } => self
                .half_mut(half)
                .put_word(slot as usize, word as usize, value),
            Fixed::SetRootDescriptorTable {
                half,
                slot,
                address,
            } => self
                .half_mut(half)
                .put_slot(slot as usize, RootSlot::Table(address)),
            Fixed::SetRootConstantBufferView {
                half,
                slot,
                address,
            } => self
                .half_mut(half)
                .put_slot(slot as usize, RootSlot::Buffer(address)),
            Fixed::DrawInstanced { .. } | Fixed::Dispatch { .. } => self.latest = Some(fixed),
            Fixed::ExecuteIndirect { half, special, .. } => {
                self.latest = Some(fixed);
                self.half_mut(half).wipe(special);
            }
            Fixed::EndEvent
            | Fixed::SetDescriptorHeaps(_)
            | Fixed::IASetPrimitiveTopology(_)
            | Fixed::ClearRenderTargetView { .. }
            | Fixed::RSSetViewports(_)
            | Fixed::RSSetScissorRects { .. } => {}
        }
    }

    // One more of a code.
    fn count_code(&mut self, code: Code)
        requires { Spare (device_of self.old).counts 1 (2 ^ 64 - 1) }
        ensures { device_of self.new ≡ counted (byte_of code) (device_of self.old) }
    {
        self.counts[u8::from(code) as usize] += 1;
    }

    // What any command changes besides that: one with a list, nothing.
    fn change<C: Recordable>(&mut self, command: C)
        requires ranged { in_range (C.says command) ≡ true }
        requires room { Spares (device_of self.old) 1 (2 ^ 64 - 1) }
        ensures { device_of self.new ≡ effect_of (C.says command) (device_of self.old) }
    {
        if let Some(fixed) = command.fixed() {
            self.effect(fixed);
        }
    }

    // Any command.
    pub(crate) fn step<C: Recordable>(&mut self, command: C)
        requires ranged { in_range (C.says command) ≡ true }
        requires room { Spares (device_of self.old) 1 (2 ^ 64 - 1) }
        ensures { device_of self.new ≡ step_of (C.says command) (device_of self.old) }
    {
        self.change(command);
        self.count_code(command.code());
    }
}
