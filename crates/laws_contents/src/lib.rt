//! Each snapshot after a deed is traced to one that was there before or to what was active on its origin; so
//! along a run each has the contents that its origin held, and no identity is made twice.
//!
//! Each law is what a function without code ensures.
#![tactic(auto)]

ghost use Rattle.laws_contents.specs.Contents.{DeedsAreTraced, OriginsStay};

/// Each snapshot after a deed of a sound world was there before, or the deed took it of what was active
/// on its origin.
pub fn deeds_are_traced()
    ensures { DeedsAreTraced }
{}

/// Later deeds leave an origin that is known.
pub fn origins_stay()
    ensures { OriginsStay }
{}
