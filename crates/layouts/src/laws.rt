//! What is so of every layout, as statements that the check asks for.
ghost use Rattle.layouts.specs.Equal.{EqualLayoutsAreOne};
ghost use Rattle.layouts.specs.Layouts.{EveryLayoutIsWhole};

/// In every layout each slot has the owner that its parts say, and no other.
pub fn every_layout_is_whole()
    ensures { EveryLayoutIsWhole }
{}

/// `==` and `!=` of two layouts tell whether they are one value.
pub fn equal_layouts_are_one()
    ensures { EqualLayoutsAreOne }
{}
