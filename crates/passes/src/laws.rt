// Laws of the refusals of set calls and draws.
ghost use Rattle.passes.specs.Firsts.{RefusalsAreFirst};

/// A refusal with a place names the first that fails: refused by 5, the base address with its
/// offset at that index comes to 2^64 or more, and each before it does not; refused by 8, the slot
/// has no element of its owner's kind, and each slot below it has one. Where there is no such
/// refusal, none fails.
pub fn refusals_are_first()
    ensures { RefusalsAreFirst }
{}
