//! Laws of the refusals of openings.
ghost use Rattle.encoder.specs.Firsts.{RefusalsAreFirst};

/// The attachment that the opening of a render pass refuses with 3 is the first that has no
/// target: its target, or the null target where it is left out, is 0, and each attachment before
/// it has a handle. Where none is refused, each has one.
pub fn refusals_are_first()
    ensures { RefusalsAreFirst }
{}
