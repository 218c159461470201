// The state of a pass.
ghost use Rattle.std.specs.Prelude.{◌≡◌, ◌&&◌, not, length};
ghost use Rattle.passes.specs.Account.{opened, is_current, own_slot, with_roots};
ghost use Rattle.passes.specs.Calls.{set_bind_group, set_immediates, set_render_pipeline};
ghost use Rattle.passes.specs.Calls.{set_compute_pipeline, set_vertex_buffer, after_set};
ghost use Rattle.passes.specs.Calls.{asks_pipeline, is_signed, asks_account, too_far};
ghost use Rattle.passes.specs.Calls.{addresses, prepared_by, marked};
ghost use Rattle.passes.specs.State.{bound_of, account, restored, Sets};
ghost use Rattle.command_list.specs.Refusals.{fault_at, fault_of};

use crate::replaced::Replaced;
use crate::roots::{MAX_IMMEDIATES, RootState};
use crate::vertices::{MAX_VERTEX_BUFFERS, VertexState};
use bindings::binding::BufferBinding;
use bindings::constants::SpecialConstants;
use command_list::command::Half;
use command_list::fault::{Fault, Number};
use layouts::info::MAX_BIND_GROUPS;
use layouts::layout::PipelineLayout;
use layouts::pipeline::{ComputePipeline, RenderPipeline};

/// A pipeline that was set in a pass.
#[derive(Clone, Copy)]
pub struct PassPipeline {
    /// The host's number of the pipeline.
    pub handle: u32,
    /// The host's number of the root signature that it needs.
    pub signature: u32,
}

/// A bind group, as the host binds it. wgpu-hal's type of the same name.
#[derive(Clone, Copy)]
pub struct BindGroup<'a> {
    /// The GPU address of its descriptor table, 0 where it has none.
    pub table: u64,
    /// The base addresses of its uniform buffers with dynamic offsets. Direct3D wants each address
    /// that is bound to be a multiple of 256; that is the caller's to keep.
    pub dynamic_buffers: &'a [u64],
}

/// What the accepted calls of a pass come to. wgpu-hal's type of the same name.
#[derive(Clone, Copy)]
pub struct PassState {
    /// The half of the device whose slots the pass writes: graphics in a render pass, else compute.
    pub kind: Half,
    /// Whether the pass was opened with a label, so that its end records EndEvent.
    pub has_label: bool,
    /// The pipeline that was set last.
    pub pipeline: Option<PassPipeline>,
    /// The root slots.
    pub roots: RootState,
    /// The vertex slots. A compute pass leaves them as they are.
    pub vertices: VertexState,
}

// Refuses base addresses, 5, one of which comes to 2^64 or more with its offset: with the index of
// the first.
fn check_addresses(bases: &[u64], offsets: &[u32]) -> Result<(), Fault>
    requires { length bases.now ≡ length offsets.now }
    ensures { fault_of result ≡ fault_at 5 (too_far 0 (addresses bases.now offsets.now)) }
{
    for place in 0..bases.len() {
        if bases[place]
            .checked_add(u64::from(offsets[place]))
            .is_none()
        {
            return Err(Number::Extent.at(place));
        }
    }
    Ok(())
}

impl PassState {
    /// The state of a pass that was just opened: nothing is bound, and no slot is dirty.
    pub fn new(kind: Half, has_label: bool) -> PassState
        ensures { account result ≡ opened kind has_label }
    {
        PassState {
            kind,
            has_label,
            pipeline: None,
            roots: RootState::new(),
            vertices: VertexState::new(),
        }
    }

    /// Binds a group: fills its slots with its table, if it has one, and an address for each
    /// uniform, and makes the layout current. wgpu-hal's call of the same name. Refused: an index
    /// of 8 or more, 1; no group there, or a table of 0 where the group has one, 3; not as many
    /// buffers as offsets and as the layout says, 4; an address of 2^64 or more, 5 with its index;
    /// another layout with the current signature, 6.
    pub fn set_bind_group(
        &mut self,
        layout: &PipelineLayout,
        index: u32,
        group: BindGroup<'_>,
        dynamic_offsets: &[u32],
    ) -> Result<(), Fault>
        ensures { Sets
            (set_bind_group layout.now index
            group.entry.table group.entry.dynamic_buffers.now dynamic_offsets.now)
            self.old result self.new }
    {
        let BindGroup {
            table,
            dynamic_buffers,
        } = group;
        if index as usize >= MAX_BIND_GROUPS {
            return Err(Number::Range.at(0));
        }
        let Some(info) = layout.group(index) else {
            return Err(Number::Absent.at(0));
        };
        if info.table && table == 0 {
            return Err(Number::Absent.at(0));
        }
        let count = dynamic_buffers.len();
        if count != dynamic_offsets.len() || info.uniforms as usize != count {
            return Err(Number::Count.at(0));
        }
        check_addresses(dynamic_buffers, dynamic_offsets)?;
        self.roots.check_layout(layout)?;
        self.roots
            .fill_group(info, table, dynamic_buffers, dynamic_offsets);
        self.roots.switch_to(layout);
        Ok(())
    }

    /// Writes words of immediates from an offset in bytes on, and makes the layout current.
    /// wgpu-hal's call of the same name. Refused: an offset that is no multiple of 4, or words that
    /// end past the 32nd, 1; a layout without immediates, 3; another layout with the current
    /// signature, 6.
    pub fn set_immediates(
        &mut self,
        layout: &PipelineLayout,
        offset_bytes: u32,
        words: &[u32],
    ) -> Result<(), Fault>
        ensures { Sets (set_immediates layout.now offset_bytes words.now) self.old result self.new }
    {
        let offset_words = offset_bytes as usize / 4;
        if offset_bytes % 4 != 0
            || offset_words > MAX_IMMEDIATES
            || words.len() > MAX_IMMEDIATES - offset_words
        {
            return Err(Number::Range.at(0));
        }
        let info = layout.immediates().ok_or(Number::Absent.at(0))?;
        self.roots.check_layout(layout)?;
        self.roots.supply(info, offset_words, words);
        self.roots.switch_to(layout);
        Ok(())
    }

    /// Gives a vertex slot an address and a size; its stride stays. wgpu-hal's call of the same
    /// name. Refused: a slot of 16 or more, 1; a binding whose offset is past its buffer's end,
    /// whose address is 2^64 or more or whose size is 2^32 or more, 5.
    pub fn set_vertex_buffer(&mut self, index: u32, binding: BufferBinding) -> Result<(), Fault>
        ensures { Sets (set_vertex_buffer index binding) self.old result self.new }
    {
        if index as usize >= MAX_VERTEX_BUFFERS {
            return Err(Number::Range.at(0));
        }
        let resolved = binding.resolve()?;
        self.vertices.rebase(index, resolved.address, resolved.size);
        Ok(())
    }

    /// What a pipeline call checks, but for the space: a handle of 0 is refused by 3, another
    /// layout with the current signature by 6. [`set_render_pipeline`](Self::set_render_pipeline)
    /// and [`set_compute_pipeline`](Self::set_compute_pipeline) check nothing themselves.
    pub fn check_pipeline(&self, handle: u32, layout: &PipelineLayout) -> Result<(), Fault>
        ensures { fault_of result ≡
            asks_pipeline handle layout.now (account self.now).roots.layout }
    {
        if handle == 0 {
            return Err(Number::Absent.at(0));
        }
        self.roots.check_layout(layout)
    }

    /// Whether a pipeline of this root signature has to set it: the current layout's signature, or
    /// the one set last in this pass, is another.
    pub fn needs_signature(&self, signature: u32) -> bool
        ensures { result ≡
            not (is_current signature (account self.now).roots.layout
            && is_signed signature (account self.now).pipeline) }
    {
        !(self.roots.is_current(signature)
            && self.pipeline.is_some_and(|p| signature == p.signature))
    }

    /// Sets a pipeline that was checked and recorded: makes its layout current and gives the vertex
    /// slots its strides, which touches a slot only where its stride was another. wgpu-hal's call
    /// of the same name.
    pub fn set_render_pipeline(&mut self, pipeline: &RenderPipeline)
        ensures { account self.new ≡
            after_set (set_render_pipeline pipeline.now) (account self.old) }
    {
        self.pipeline = Some(PassPipeline {
            handle: pipeline.handle,
            signature: pipeline.layout.signature(),
        });
        self.roots.switch_to(&pipeline.layout);
        self.vertices.restride_all(&pipeline.vertex_strides);
    }

    /// Sets a pipeline that was checked and recorded: makes its layout current. wgpu-hal's call of
    /// the same name.
    pub fn set_compute_pipeline(&mut self, pipeline: &ComputePipeline)
        ensures { account self.new ≡
            after_set (set_compute_pipeline pipeline.now) (account self.old) }
    {
        self.pipeline = Some(PassPipeline {
            handle: pipeline.handle,
            signature: pipeline.layout.signature(),
        });
        self.roots.switch_to(&pipeline.layout);
    }

    /// What a draw or dispatch checks of the pass: refused by 7 where no pipeline of the current
    /// signature is set, and by 8 with the lowest slot, beside the special one, that has no element
    /// of its owner's kind.
    pub fn check_draw(&self) -> Result<(), Fault>
        ensures { fault_of result ≡ asks_account (account self.now) }
    {
        let (Some(pipeline), Some(layout)) = (self.pipeline, self.roots.layout.as_ref()) else {
            return Err(Number::Pipeline.at(0));
        };
        if pipeline.signature != layout.signature() {
            return Err(Number::Pipeline.at(0));
        }
        self.roots.check_elements(layout)
    }

    /// The special slot of the current layout, if that has its own command signature: the indirect
    /// call's record names it, and the device then writes the slot itself.
    pub fn own_slot(&self) -> Option<u8>
        ensures { result ≡ own_slot (account self.now).roots.layout }
    {
        self.roots.own_slot()
    }

    /// Puts the special constants that a draw wants: its own, or zeros for an indirect call, whose
    /// arguments are not known (nothing at all if the layout has its own command signature). Hands
    /// back what they replaced. wgpu-hal's `prepare_draw` and `prepare_dispatch`.
    pub fn prepare(&mut self, own: Option<SpecialConstants>) -> Replaced
        ensures set { account self.new ≡
            with_roots (prepared_by own (bound_of self.old.roots)) (account self.old) }
        ensures was { with_roots (restored result (bound_of self.new.roots)) (account self.new)
            ≡ account self.old }
    {
        self.roots.prepare(own)
    }

    /// Puts back what a refused draw's constants replaced.
    pub fn restore(&mut self, was: Replaced)
        ensures { account self.new ≡
            with_roots (restored was (bound_of self.old.roots)) (account self.old) }
    {
        self.roots.restore(was);
    }

    /// The mark behind a draw that was recorded: no slot is dirty, and nothing is known of a slot
    /// that an indirect call wrote by the layout's own command signature.
    pub fn mark(&mut self, own: Option<SpecialConstants>)
        ensures { account self.new ≡ marked own (account self.old) }
    {
        self.roots.mark(own);
        self.vertices.settle();
    }
}
