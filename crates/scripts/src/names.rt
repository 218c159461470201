//! The layouts and pipelines that a script has defined so far, by their names.
ghost use Rattle.std.specs.Prelude.{◌≡◌, Some, None, MatchResult, OnOk, OnErr, IfErr, string_bytes};
ghost use Rattle.std.specs.BTreeMap.{get_by_text, IsEmpty};
ghost use Rattle.scripts.specs.Naming.{Finds, Unfound};

use crate::line::{ComputeParts, LayoutParts, RenderParts};
use crate::not_done::NotDone;
use layouts::layout::PipelineLayout;
use layouts::pipeline::{ComputePipeline, RenderPipeline};
use std::alloc::Global;
use std::collections::BTreeMap;

/// Layouts, render pipelines and compute pipelines each have names of their own. Of two definitions
/// of one name the later stands.
#[derive(Drop)]
pub struct Names {
    alloc: Global,
    layouts: BTreeMap<String, PipelineLayout>,
    render_pipelines: BTreeMap<String, RenderPipeline>,
    compute_pipelines: BTreeMap<String, ComputePipeline>,
}

// What a name stands for, if it is defined.
fn named<T: Copy>(alloc: Global, defined: &BTreeMap<String, T>, name: &str) -> Result<T, NotDone>
    ensures { Finds defined.now name.now result }
{
    match defined.get(name) {
        Some(value) => Ok(*value),
        None => Err(NotDone::Unknown(String::from_str(alloc, name)?)),
    }
}

impl Names {
    ghost use Rattle.scripts.specs.Naming.{told, verdict_of, Keeps, DefinesLayout};
    ghost use Rattle.scripts.specs.Naming.{DefinesPipeline, render_of, compute_of};

    /// No name is defined.
    pub fn new(alloc: Global) -> Names
        ensures layouts { IsEmpty result.layouts }
        ensures render { IsEmpty result.render_pipelines }
        ensures compute { IsEmpty result.compute_pipelines }
    {
        Names {
            alloc,
            layouts: BTreeMap::new(alloc),
            render_pipelines: BTreeMap::new(alloc),
            compute_pipelines: BTreeMap::new(alloc),
        }
    }

    /// The layout that a name stands for.
    pub fn layout(&self, name: &str) -> Result<PipelineLayout, NotDone>
        ensures { Finds self.now.layouts name.now result }
    {
        named(self.alloc, &self.layouts, name)
    }

    /// The render pipeline that a name stands for.
    pub fn render_pipeline(&self, name: &str) -> Result<RenderPipeline, NotDone>
        ensures { Finds self.now.render_pipelines name.now result }
    {
        named(self.alloc, &self.render_pipelines, name)
    }

    /// The compute pipeline that a name stands for.
    pub fn compute_pipeline(&self, name: &str) -> Result<ComputePipeline, NotDone>
        ensures { Finds self.now.compute_pipelines name.now result }
    {
        named(self.alloc, &self.compute_pipelines, name)
    }

    /// A layout, which is refused as `PipelineLayout::new` says.
    pub fn define_layout(&mut self, name: String, parts: &LayoutParts) -> Result<(), NotDone>
        ensures answer { told result ≡ verdict_of parts.now }
        ensures defined { OnOk result
            (DefinesLayout (string_bytes name) parts.now self.old.layouts self.new.layouts) }
        ensures kept { OnErr result (Keeps self.old.layouts self.new.layouts) }
    {
        let layout = PipelineLayout::new(
            parts.signature,
            parts.total,
            parts.special,
            parts.immediates,
            parts.groups,
        )?;
        self.layouts.insert(name, layout)?;
        Ok(())
    }

    /// A pipeline that draws. It keeps the layout that its layout's name stands for now.
    pub fn define_render_pipeline(
        &mut self,
        name: String,
        parts: &RenderParts,
    ) -> Result<(), NotDone>
        ensures kept { OnErr result (Keeps self.old.render_pipelines self.new.render_pipelines) }
        ensures refused { IfErr result (Unfound self.old.layouts (string_bytes parts.now.layout)) }
        ensures defined { OnOk result (DefinesPipeline (render_of parts.now)
            (string_bytes parts.now.layout) (string_bytes name)
            self.old.layouts self.old.render_pipelines self.new.render_pipelines) }
    {
        let pipeline = RenderPipeline {
            handle: parts.handle,
            layout: self.layout(parts.layout.as_str())?,
            topology: parts.topology,
            vertex_strides: parts.strides,
        };
        self.render_pipelines.insert(name, pipeline)?;
        Ok(())
    }

    /// A pipeline that is dispatched. It keeps the layout that its layout's name stands for now.
    pub fn define_compute_pipeline(
        &mut self,
        name: String,
        parts: &ComputeParts,
    ) -> Result<(), NotDone>
        ensures kept { OnErr result (Keeps self.old.compute_pipelines self.new.compute_pipelines) }
        ensures refused { IfErr result (Unfound self.old.layouts (string_bytes parts.now.layout)) }
        ensures defined { OnOk result (DefinesPipeline (compute_of parts.now)
            (string_bytes parts.now.layout) (string_bytes name)
            self.old.layouts self.old.compute_pipelines self.new.compute_pipelines) }
    {
        let pipeline = ComputePipeline {
            handle: parts.handle,
            layout: self.layout(parts.layout.as_str())?,
        };
        self.compute_pipelines.insert(name, pipeline)?;
        Ok(())
    }
}
