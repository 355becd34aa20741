//! The tree of an image, by the places of its headers.

ghost use Rattle.tree_laws.specs.Reading.{TreeIsRead, OneTree, OnePlacement, HeadersDiffer, PlacesFind, PlacesAre, TableIsPlaces, VerdictIsRead};

/// A tree and a placement that an image lays out are those that are read from it by the places of the headers.
pub fn trees_are_read()
    ensures read { TreeIsRead }
    ensures places { PlacesAre }
    ensures table { TableIsPlaces }
{}

/// So an image and the places of its headers have one tree and one placement, and an image and its tree
/// one placement.
pub fn one_tree()
    ensures tree { OneTree }
    ensures placement { OnePlacement }
{}

/// No two headers stand at one place, so that a place finds its serial.
pub fn headers_differ()
    ensures apart { HeadersDiffer }
    ensures found { PlacesFind }
{}

/// The tree and the placement of a verdict are read by the places of its nodes.
pub fn verdicts_are_read()
    ensures { VerdictIsRead }
{}
