// Usages of resources: sets of flags, as the host gives them.

/// How a buffer is used: a set of flags, of which several may be set at once. wgpu's `BufferUses`,
/// with the flags that the encoder knows. A set with a bit of [`BufferUses::END`] or above is
/// refused by a transition, 1.
#[derive(Clone, Copy)]
pub struct BufferUses {
    /// The flags that are set, as a bitwise or.
    pub bits: u32,
}

impl BufferUses {
    /// Source of a copy.
    pub const COPY_SRC: u32 = 0x1;

    /// Destination of a copy.
    pub const COPY_DST: u32 = 0x2;

    /// Index buffer of draws.
    pub const INDEX: u32 = 0x4;

    /// Vertex buffer of draws.
    pub const VERTEX: u32 = 0x8;

    /// Constant buffer of shaders.
    pub const UNIFORM: u32 = 0x10;

    /// Storage that shaders read.
    pub const STORAGE_READ_ONLY: u32 = 0x20;

    /// Storage that shaders read and write.
    pub const STORAGE_READ_WRITE: u32 = 0x40;

    /// Arguments of indirect calls.
    pub const INDIRECT: u32 = 0x80;

    /// Results of acceleration structure queries.
    pub const ACCELERATION_STRUCTURE_QUERY: u32 = 0x100;

    /// The first value past the last flag: a usage of known flags is below it.
    pub const END: u32 = 0x200;
}

/// How a texture is used: a set of flags, whose values are not those of a buffer's. wgpu's
/// `TextureUses`, with the flags that the encoder knows. A set with a bit of [`TextureUses::END`]
/// or above is refused by a transition, 1.
#[derive(Clone, Copy)]
pub struct TextureUses {
    /// The flags that are set, as a bitwise or.
    pub bits: u32,
}

impl TextureUses {
    /// Contents that no one has written yet.
    pub const UNINITIALIZED: u32 = 0x1;

    /// Source of a copy.
    pub const COPY_SRC: u32 = 0x2;

    /// Destination of a copy.
    pub const COPY_DST: u32 = 0x4;

    /// Texture that shaders sample.
    pub const RESOURCE: u32 = 0x8;

    /// Color attachment of a render pass.
    pub const COLOR_TARGET: u32 = 0x10;

    /// Depth and stencil attachment that is only read.
    pub const DEPTH_STENCIL_READ: u32 = 0x20;

    /// Depth and stencil attachment that is written.
    pub const DEPTH_STENCIL_WRITE: u32 = 0x40;

    /// Storage that shaders read.
    pub const STORAGE_READ_ONLY: u32 = 0x80;

    /// Storage that shaders write.
    pub const STORAGE_WRITE_ONLY: u32 = 0x100;

    /// Storage that shaders read and write.
    pub const STORAGE_READ_WRITE: u32 = 0x200;

    /// The first value past the last flag: a usage of known flags is below it.
    pub const END: u32 = 0x400;
}
