//! Laws of the data of one node by themselves. No function here does anything: its contract is the
//! law.

ghost use Rattle.std.specs.Prelude.{◌≡◌, ◌≢◌, ◌<◌, ◌≤◌, ◌++◌, [], ℕ, List, length, take, replicate, Option, Some, None, Ok};
ghost use Rattle.adf_format.specs.declared.types.Extent.{Extent};
ghost use Rattle.adf_format.specs.Fields.{field};
ghost use Rattle.adf_format.specs.Tiles.{cover};
ghost use Rattle.adf_format.specs.Placement.{NodeParts};
ghost use Rattle.adf_format.specs.LaysOut.{payloads};
ghost use Rattle.adf_format.specs.Changes.{IsApart, heap_fields};
ghost use Rattle.adf_format.specs.HeapRule.{data_extents, give_all};
ghost use Rattle.adf_model.specs.NodeData.{DataSpot, HoldsData, KeepsOthers, IsResized, IsReleased, SharesRoom, resized_spot, released_spot};

/// Where chunks hold data these are read from them and no others of that length; where they hold
/// none there is no chunk and no chunk table.
pub fn chunks_hold_data()
    ensures none { (image : List ℕ) (parts : NodeParts) → HoldsData image parts None
        → (parts.chunks ≡ []) × (parts.chunk_table ≡ None) }
    ensures read { (image : List ℕ) (parts : NodeParts) (bytes : List ℕ)
        → HoldsData image parts (Some bytes) → (parts.chunks ≢ [])
        × (take (length bytes) (payloads image parts.chunks) ≡ bytes) }
    ensures one { (image : List ℕ) (parts : NodeParts) (bytes other : List ℕ)
        → length bytes ≡ length other → HoldsData image parts (Some bytes)
        → HoldsData image parts (Some other) → bytes ≡ other }
{}

/// Data that get a size begin with as many of the bytes before as both have, and zeros follow; a part
/// apart from the heap and from the data before keeps its bytes.
pub fn resized_data()
    ensures kept { (limit size n : ℕ) (bytes old new : List ℕ) (spot after : DataSpot)
        → IsResized limit size (Some bytes) spot after old new → n ≤ length bytes → n ≤ size →
        take n (payloads new after.0.chunks) ≡ take n bytes }
    ensures grown { (limit size : ℕ) (bytes old new : List ℕ) (spot after : DataSpot)
        → IsResized limit size (Some bytes) spot after old new → length bytes ≤ size →
        (zeros : ℕ) × (take size (payloads new after.0.chunks) ≡ bytes ++ replicate zeros 0) }
    ensures fresh { (limit size : ℕ) (old new : List ℕ) (spot after : DataSpot)
        → IsResized limit size None spot after old new
        → take size (payloads new after.0.chunks) ≡ replicate size 0 }
    ensures others { (limit size : ℕ) (bytes : Option (List ℕ)) (old new : List ℕ)
        (spot after : DataSpot) (e : Extent) → IsResized limit size bytes spot after old new →
        IsApart (heap_fields ++ spot.1.gaps ++ data_extents spot.0) spot.1.end e
        → field new e.place e.length ≡ field old e.place e.length }
{}

/// Data that become none leave no chunk and no chunk table, give all their ranges to the heap, and
/// leave the bytes of a part apart from both.
pub fn released_data()
    ensures none { (spot after : DataSpot) (old new : List ℕ) → IsReleased spot after old new
        → (after.0.chunks ≡ []) × (after.0.chunk_table ≡ None) }
    ensures rest { (spot after : DataSpot) (old new : List ℕ) → IsReleased spot after old new
        → (after.0.header ≡ spot.0.header) × (after.0.table ≡ spot.0.table) }
    ensures given { (spot after : DataSpot) (old new : List ℕ) → IsReleased spot after old new
        → after.1 ≡ give_all (data_extents spot.0) spot.1 }
    ensures others { (spot after : DataSpot) (old new : List ℕ) (e : Extent)
        → IsReleased spot after old new →
        IsApart (heap_fields ++ spot.1.gaps ++ data_extents spot.0) spot.1.end e
        → field new e.place e.length ≡ field old e.place e.length }
{}

/// The chunks, the chunk table and the gaps are afterwards the bytes of those before and those by which the end
/// grew: none is lost, and where none was in two of them, none is.
pub fn room_of_data()
    ensures resized { (limit size : ℕ) (spot after : DataSpot)
        → resized_spot limit size spot ≡ Ok after
        → (spot.1.end ≤ after.1.end) × SharesRoom spot after }
    ensures released { (spot : DataSpot) → ((released_spot spot).1.end ≡ spot.1.end)
        × SharesRoom spot (released_spot spot) }
    ensures apart { (spot after : DataSpot) → SharesRoom spot after
        → ((b : ℕ) → cover (data_extents spot.0 ++ spot.1.gaps) b ≤ 1)
        → ((b : ℕ) → spot.1.end < b → cover (data_extents spot.0 ++ spot.1.gaps) b ≡ 0) → (b : ℕ)
        → cover (data_extents after.0 ++ after.1.gaps) b ≤ 1 }
{}

/// What a change of data keeps is each part apart from the heap and from the data.
pub fn other_parts()
    ensures kept { (spot : DataSpot) (old new : List ℕ) (e : Extent) → KeepsOthers spot old new
        → IsApart (heap_fields ++ spot.1.gaps ++ data_extents spot.0) spot.1.end e →
        field new e.place e.length ≡ field old e.place e.length }
{}
