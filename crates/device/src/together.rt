// Commands that any recorder takes together or not at all.
ghost use Rattle.std.specs.Prelude.{[], ◌∷◌};
ghost use Rattle.command_list.specs.declared.command.Half.TheVariants.{Graphics};
ghost use Rattle.command_list.specs.Commands.{SetRootSignature, SetPipelineState};
ghost use Rattle.device.specs.Meaning.{Together};

use crate::recorder::Recorder;
use command_list::fault::{FULL, Fault};

// The bytes that the records of a signature and a pipeline take.
const PIPELINE_BYTES: usize = 14;

/// Sets a graphics pipeline with its root signature: both commands are recorded, or neither.
/// Refused with 10 at place 0 where the 14 bytes of the two records do not fit.
pub fn set_pipeline<R: Recorder>(
    recorder: &mut R,
    signature: u32,
    pipeline: u32,
) -> Result<(), Fault>
    ensures { Together (R.meaning recorder.old)
        (SetRootSignature Graphics signature ∷ SetPipelineState pipeline ∷ [])
        result (R.meaning recorder.new) }
{
    if recorder.space() < PIPELINE_BYTES {
        return Err(FULL);
    }
    recorder.set_graphics_root_signature(signature)?;
    recorder.set_pipeline_state(pipeline)?;
    Ok(())
}
