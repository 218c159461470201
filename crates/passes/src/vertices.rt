// The vertex views of a pass.
ghost use Rattle.std.specs.Prelude.{◌≡◌, ◌<◌};
ghost use Rattle.passes.specs.Account.{no_views, rebased, strided, only_at, strides_of, views_untouched};
ghost use Rattle.passes.specs.State.{views_of};

/// The number of vertex slots. wgpu-hal's constant of the same name.
pub const MAX_VERTEX_BUFFERS: usize = 16;

/// A vertex buffer view (Microsoft: `D3D12_VERTEX_BUFFER_VIEW`).
#[derive(Clone, Copy)]
pub struct VertexBufferView {
    /// The GPU address of the first vertex.
    pub address: u64,
    /// How many bytes there are from it on.
    pub size: u32,
    /// The bytes from one vertex to the next.
    pub stride: u32,
}

/// A view for each vertex slot, and which of them are dirty: touched since the last mark.
#[derive(Clone, Copy)]
pub struct VertexState {
    /// The views, zeros at the opening of a pass.
    pub vertex_buffers: [VertexBufferView; MAX_VERTEX_BUFFERS],
    /// The dirty slots, slot i by the bit of value 2^i.
    pub dirty_vertex_buffers: u16,
}

impl VertexState {
    pub(crate) fn new() -> VertexState
        ensures { views_of result ≡ no_views }
    {
        let none = VertexBufferView {
            address: 0,
            size: 0,
            stride: 0,
        };
        VertexState {
            vertex_buffers: [none; MAX_VERTEX_BUFFERS],
            dirty_vertex_buffers: 0,
        }
    }

    // Address and size for a slot, whose stride stays.
    pub(crate) fn rebase(&mut self, slot: u32, address: u64, size: u32)
        requires { slot < 16 }
        ensures { views_of self.new ≡ rebased slot address size (views_of self.old) }
    {
        let view = &mut self.vertex_buffers[slot as usize];
        view.address = address;
        view.size = size;
        self.dirty_vertex_buffers |= 1 << slot;
    }

    // A stride for a slot, if one is given, which touches it only if the slot has another.
    fn restride(&mut self, slot: u32, stride: Option<u32>)
        requires { slot < 16 }
        ensures { views_of self.new ≡ strided (only_at slot stride) (views_of self.old) }
    {
        if let Some(stride) = stride {
            let view = &mut self.vertex_buffers[slot as usize];
            if view.stride != stride {
                view.stride = stride;
                self.dirty_vertex_buffers |= 1 << slot;
            }
        }
    }

    // A stride for each slot that is given one.
    pub(crate) fn restride_all(&mut self, strides: &[Option<u32>; MAX_VERTEX_BUFFERS])
        ensures { views_of self.new ≡ strided (strides_of strides.now) (views_of self.old) }
    {
        for slot in 0..MAX_VERTEX_BUFFERS as u32 {
            self.restride(slot, strides[slot as usize]);
        }
    }

    // Nothing is touched any more.
    pub(crate) fn settle(&mut self)
        ensures { views_of self.new ≡ views_untouched (views_of self.old) }
    {
        self.dirty_vertex_buffers = 0;
    }
}
