//! The sound part of a damaged file may be written as a packed file. The law is the contract of a function that does
//! nothing: who calls it has the law.

#![tactic(auto)]

ghost use Rattle.salvage_given.specs.Given.{SoundPartIsGiven};

/// The nodes that are kept of a damaged file, by their places, make the tree of the sound part, as a packed copy wants it.
pub fn sound_part_is_given()
    ensures { SoundPartIsGiven }
{}
