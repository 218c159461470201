//! What a render pass draws to.

/// The most attachments of a render pass: `wgpu-hal`'s constant of the same name, and Direct3D's
/// `D3D12_SIMULTANEOUS_RENDER_TARGET_COUNT`.
pub const MAX_COLOR_ATTACHMENTS: usize = 8;

/// A render target, and what happens to it at the opening of the pass (`wgpu-hal`'s
/// `ColorAttachment`).
#[derive(Clone, Copy)]
pub struct ColorAttachment {
    /// The descriptor handle of the target's view. 0 is no handle: the opening refuses it with 3,
    /// at the attachment's index.
    pub target: u64,
    /// Flags as `wgpu-hal`'s `AttachmentOps` has them. Only [`ColorAttachment::LOAD_CLEAR`] is
    /// read: the others are the host's own.
    pub ops: u32,
    /// The colour that the target is cleared to: red, green, blue and alpha, each the bits of an
    /// `f32`.
    pub clear_value: [u32; 4],
}

impl ColorAttachment {
    /// The flag of [`ColorAttachment::ops`] by which the opening clears the target
    /// (`AttachmentOps::LOAD_CLEAR` of `wgpu-hal`).
    pub const LOAD_CLEAR: u32 = 0x2;
}
