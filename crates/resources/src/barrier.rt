// Changes of usage, and the barrier that each makes.
ghost use Rattle.std.specs.Prelude.{◌≡◌};
ghost use Rattle.resources.specs.Usages.{Usage, buffer, texture, known, state_of, ordered};

use crate::conv::{map_buffer_usage_to_state, map_texture_usage_to_state};
use crate::uses::{BufferUses, TextureUses};

/// A kind of usage, of buffers or of textures: what the barrier rule asks of it.
pub trait Uses {
    ghost usage: { Self → Usage };

    /// Whether all flags that are set are known.
    fn is_known(&self) -> bool
        ensures { result ≡ known (usage self.now) };

    /// The Direct3D state that it comes to, a set of `D3D12_RESOURCE_STATES`.
    fn state(&self) -> u32
        ensures { result ≡ state_of (usage self.now) };

    /// Whether two accesses of this usage in a row need a UAV barrier between them, though the
    /// state stays.
    fn is_ordered(&self) -> bool
        ensures { result ≡ ordered (usage self.now) };
}

impl Uses for BufferUses {
    ghost usage = { λ u. buffer u.bits };

    fn is_known(&self) -> bool {
        self.bits < BufferUses::END
    }

    fn state(&self) -> u32 {
        map_buffer_usage_to_state(*self)
    }

    fn is_ordered(&self) -> bool {
        self.bits == BufferUses::STORAGE_READ_WRITE
            || self.bits == BufferUses::ACCELERATION_STRUCTURE_QUERY
    }
}

impl Uses for TextureUses {
    ghost usage = { λ u. texture u.bits };

    fn is_known(&self) -> bool {
        self.bits < TextureUses::END
    }

    fn state(&self) -> u32 {
        map_texture_usage_to_state(*self)
    }

    fn is_ordered(&self) -> bool {
        self.bits == TextureUses::STORAGE_READ_WRITE
    }
}

/// From one usage to another. wgpu-hal's type of the same name.
#[derive(Clone, Copy)]
pub struct StateTransition<U> {
    /// The usage of the accesses before the barrier.
    pub from: U,
    /// The usage of the accesses behind it.
    pub to: U,
}

/// A resource whose usage changes, all its subresources at once.
#[derive(Clone, Copy)]
pub struct ResourceBarrier<U> {
    /// The host's number of the resource. 0 is none, and a transition refuses it, 3.
    pub resource: u32,
    /// The change of usage.
    pub usage: StateTransition<U>,
}

/// A buffer whose usage changes.
pub type BufferBarrier = ResourceBarrier<BufferUses>;

/// A texture whose usage changes.
pub type TextureBarrier = ResourceBarrier<TextureUses>;
