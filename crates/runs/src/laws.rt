//! What every run keeps, which encoders are excluded, and what worked plots come to, as statements that the check asks
//! for. The functions have no code: their contracts are the theorems.
ghost use Rattle.runs.specs.Marks.{EveryRunKeeps};
ghost use Rattle.runs.specs.Shown.{EveryRunShows};
ghost use Rattle.runs.specs.Excluded.{BadEncodersAreExcluded};
ghost use Rattle.runs.specs.Worked.{WorkedPlots};

/// Whatever calls are made of an encoder, in whatever order and over whatever recorder: each draw finds on the device
/// what the accepted calls say, and slots were written exactly where touched.
pub fn every_run_keeps()
    ensures { EveryRunKeeps }
{}

/// Whatever calls are made of an encoder over a recorder that shows its commands: each accepted call adds its commands,
/// the space falls by exactly the bytes of their records, and each draw finds the device that the commands shown so far
/// play to.
pub fn every_run_shows()
    ensures { EveryRunShows }
{}

/// No encoder of the contracts accepts a draw and records nothing, refuses a call that it could do, leaves a touched
/// slot unwritten, or writes one that is not touched.
pub fn bad_encoders_are_excluded()
    ensures { BadEncodersAreExcluded }
{}

/// Worked plots: what calls of an encoder come to, call by call.
pub fn worked_plots()
    ensures { WorkedPlots }
{}
