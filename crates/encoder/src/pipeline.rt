//! What the pipeline calls of both kinds of pass have in common.
ghost use Rattle.std.specs.Prelude.{◌≡◌, ◌≤◌, [], ◌∷◌, ◌++◌};
ghost use Rattle.device.specs.Meaning.{sizes};
ghost use Rattle.passes.specs.Calls.{set_render_pipeline, set_compute_pipeline, signature_first};
ghost use Rattle.passes.specs.Calls.{asks_set, set_records, after_set};
ghost use Rattle.passes.specs.State.{account};
ghost use Rattle.encoder.specs.Handled.{Handled};
ghost use Rattle.encoder.specs.Putting.{Put};

use crate::flush::put;
use command_list::command::Fixed;
use command_list::fault::{FULL, Fault};
use device::recorder::Recorder;
use layouts::pipeline::{ComputePipeline, RenderPipeline};
use passes::state::PassState;

// The bytes of a record with one operand of four bytes: a root signature's, a pipeline's, a
// topology's.
const NUMBER_BYTES: usize = 7;

// The bytes of the root signature, where it comes first.
fn signature_size(pass: &PassState, signature: u32) -> usize
    ensures value { let a = account pass.now in
        result ≡ sizes (signature_first a.half signature a.roots.layout a.pipeline) }
    ensures small { result ≤ 7 }
{
    if pass.needs_signature(signature) {
        NUMBER_BYTES
    } else {
        0
    }
}

// The root signature, where it comes first.
fn put_signature<R: Recorder>(
    recorder: &mut R,
    pass: &PassState,
    signature: u32,
) -> Result<(), Fault>
    requires { let a = account pass.now in
        sizes (signature_first a.half signature a.roots.layout a.pipeline)
        ≤ (R.meaning recorder.old).space }
    ensures { let a = account pass.now in
        Put (R.meaning recorder.old) (signature_first a.half signature a.roots.layout a.pipeline)
        result (R.meaning recorder.new) }
{
    if pass.needs_signature(signature) {
        let half = pass.kind;
        return put(recorder, Fixed::SetRootSignature { half, signature });
    }
    Ok(())
}

pub(crate) fn record_render_pipeline<R: Recorder>(
    recorder: &mut R,
    pass: &mut PassState,
    pipeline: &RenderPipeline,
) -> Result<(), Fault>
    ensures { let a = account pass.old in
        let call = set_render_pipeline pipeline.now in
        Handled (asks_set call a.roots.layout) (set_records call a) (after_set call a) a
        (R.meaning recorder.old) result (account pass.new) (R.meaning recorder.new) }
{
    pass.check_pipeline(pipeline.handle, &pipeline.layout)?;
    let signature = pipeline.layout.signature();
    if recorder.space() < signature_size(pass, signature) + 2 * NUMBER_BYTES {
        return Err(FULL);
    }
    put_signature(recorder, pass, signature)?;
    put(recorder, Fixed::SetPipelineState(pipeline.handle))?;
    put(recorder, Fixed::IASetPrimitiveTopology(pipeline.topology))?;
    pass.set_render_pipeline(pipeline);
    Ok(())
}

pub(crate) fn record_compute_pipeline<R: Recorder>(
    recorder: &mut R,
    pass: &mut PassState,
    pipeline: &ComputePipeline,
) -> Result<(), Fault>
    ensures { let a = account pass.old in
        let call = set_compute_pipeline pipeline.now in
        Handled (asks_set call a.roots.layout) (set_records call a) (after_set call a) a
        (R.meaning recorder.old) result (account pass.new) (R.meaning recorder.new) }
{
    pass.check_pipeline(pipeline.handle, &pipeline.layout)?;
    let signature = pipeline.layout.signature();
    if recorder.space() < signature_size(pass, signature) + NUMBER_BYTES {
        return Err(FULL);
    }
    put_signature(recorder, pass, signature)?;
    put(recorder, Fixed::SetPipelineState(pipeline.handle))?;
    pass.set_compute_pipeline(pipeline);
    Ok(())
}
