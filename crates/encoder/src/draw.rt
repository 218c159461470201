//! What draws and dispatches have in common.
ghost use Rattle.std.specs.Prelude.{◌≡◌, ◌≤◌, true, [], ◌∷◌, ◌++◌, option_map};
ghost use Rattle.command_list.specs.Commands.{size, readable};
ghost use Rattle.command_list.specs.Seen.{fixed_command};
ghost use Rattle.passes.specs.Account.{with_roots};
ghost use Rattle.passes.specs.Calls.{drawable, prepared_by, marked};
ghost use Rattle.passes.specs.Flush.{flushed};
ghost use Rattle.passes.specs.State.{account};
ghost use Rattle.encoder.specs.Handled.{Handled};

use crate::flush::{flush_pass, pass_size, put};
use bindings::constants::SpecialConstants;
use command_list::command::Fixed;
use command_list::fault::{FULL, Fault};
use device::recorder::Recorder;
use passes::state::PassState;

// The bytes of an indirect call's record.
pub(crate) const INDIRECT_BYTES: usize = 21;

// The dirty slots are written, and then the draw's own record, all of it or nothing. A refused draw
// leaves no trace of its special constants.
pub(crate) fn record_draw<R: Recorder>(
    recorder: &mut R,
    pass: &mut PassState,
    own: Option<SpecialConstants>,
    command: Fixed,
    bytes: usize,
) -> Result<(), Fault>
    requires ranged { readable (fixed_command command) ≡ true }
    requires sized { bytes ≡ size (fixed_command command) }
    requires small { bytes ≤ 100 }
    ensures { let a = account pass.old in
        let roots = prepared_by own a.roots in
        Handled (drawable a.pipeline a.roots.layout a.roots.elements)
        (flushed a.half roots a.vertices ++ (fixed_command command ∷ []))
        (marked own (with_roots roots a)) a (R.meaning recorder.old)
        result (account pass.new) (R.meaning recorder.new) }
{
    pass.check_draw()?;
    let replaced = pass.prepare(own);
    if recorder.space() < pass_size(pass) + bytes {
        pass.restore(replaced);
        return Err(FULL);
    }
    flush_pass(recorder, pass)?;
    put(recorder, command)?;
    pass.mark(own);
    Ok(())
}
