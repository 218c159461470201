//! Pipelines: a handle of the device, and the layout that it expects.
use crate::layout::PipelineLayout;

/// A pipeline that draws, `RenderPipeline` in the Rust.
#[derive(Clone, Copy)]
pub struct RenderPipeline {
    /// The device's handle of the pipeline state.
    pub handle: u32,
    pub layout: PipelineLayout,
    /// A `D3D_PRIMITIVE_TOPOLOGY`.
    pub topology: u32,
    /// The bytes from one vertex to the next in each vertex slot that the pipeline reads.
    pub vertex_strides: [Option<u32>; 16],
}

/// A pipeline that is dispatched, `ComputePipeline` in the Rust.
#[derive(Clone, Copy)]
pub struct ComputePipeline {
    /// The device's handle of the pipeline state.
    pub handle: u32,
    pub layout: PipelineLayout,
}
