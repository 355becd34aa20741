//! Which blocks edits and groups of edits may write.

ghost use Rattle.tree_laws.specs.Reached.{GroupReachesMore, ReachedIsWithin, RoomMayBeWritten, SparedLies};

/// What an edit writes may be written: the heap's fields, gaps, what the file grew by, and bytes of parts that it touches.
pub fn edits_may_write()
    ensures room { RoomMayBeWritten }
    ensures spared { SparedLies }
{}

/// The blocks that edits one after another reach begin within the end, and are such as their group may write.
pub fn groups_reach()
    ensures within { ReachedIsWithin }
    ensures turn { GroupReachesMore }
{}
