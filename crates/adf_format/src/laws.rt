//! Laws of the definitions. Each is the contract of a function that does nothing: who calls it has the law.

ghost use Rattle.std.specs.Prelude.{◌≡◌, ◌≢◌, ◌⊎◌, ℕ, ◌+◌, ◌*◌, ◌^◌, ◌<◌, ◌≤◌, Bool, true, false, IsTrue, List, [], ◌∷◌, ◌++◌, length, map, take, drop, filter, codes, slice_get, is_some, Some, Ok};
ghost use Rattle.std.specs.List.{list_all, AllByRecursion};
ghost use Rattle.std.specs.declared.result.Result.{Result};
ghost use Rattle.adf_format.specs.Hex.{hex_value, hex_text};
ghost use Rattle.adf_format.specs.Pointer.{Pointer, Blank, To, pointer, pointer_text, IsMadeOf};
ghost use Rattle.adf_format.specs.Names.{is_name};
ghost use Rattle.adf_format.specs.Links.{components, path_text, file_part, path_part, is_link_file, link_text};
ghost use Rattle.adf_format.specs.declared.types.Extent.{Extent};
ghost use Rattle.adf_format.specs.declared.types.ExtentKind.{ExtentKind};
ghost use Rattle.adf_format.specs.Tiles.{Tiles, TilesInOrder, cover, total_length, is_free, MeetsNone};
ghost use Rattle.adf_format.specs.Tree.{Tree, Node, IsTree, IsSameTree, IsAmong, is_live, fresh_tree};
ghost use Rattle.adf_format.specs.Placement.{Placement, NodeParts, Heap, extent, parts_of, node_extents, head_extents, live_extents};
ghost use Rattle.adf_format.specs.Fields.{field};
ghost use Rattle.adf_format.specs.RecordFields.{StandInRow, field_end, header_fields, what_fields, header_size, free_table_fields, list_end, list_first, list_last, node_fields, node_length, head_fields, free_head_fields, entry_fields, chunk_entry_fields, entry_name_at, entry_child_at, chunk_start_at, chunk_end_at};
ghost use Rattle.adf_format.specs.declared.fields.TheConstants.{HEADER_WHAT, HEADER_SIZES, HEADER_LENGTH, FREE_TABLE_LENGTH, FREE_TABLE_PLACE, SMALL_FIRST, SMALL_LAST, MEDIUM_FIRST, MEDIUM_LAST, LARGE_FIRST, LARGE_LAST, SUB_NODES_TAG, DATA_TAG, CHUNKS_TAG, FREE_CHUNK_TAG, HEAD_LENGTH, FREE_HEAD_LENGTH, ENTRY_LENGTH, CHUNK_ENTRY_LENGTH};
ghost use Rattle.adf_format.specs.LaysOut.{LaysOut, HoldsNode, AreGapsInOrder, HasSameRanges};
ghost use Rattle.adf_format.specs.Checks.{Fault};
ghost use Rattle.adf_format.specs.FirstFault.{count_up, Visit, FreeVisit, NodeWalk, FreeWalk, FirstFault, HasNoFault, end_in, is_wide};
ghost use Rattle.adf_format.specs.SoundPart.{format_in};
ghost use Rattle.adf_format.specs.Verdict.{NodePlace, IsLaidOutAs};
ghost use Rattle.adf_format.specs.Packed.{IsPacked};
ghost use Rattle.adf_format.specs.declared.types.Format.{Format};
ghost use Rattle.adf_format.specs.HeapRule.{heap_take, heap_give, give_joined, give_all, pairs};
ghost use Rattle.adf_format.specs.Changes.{KeepsBut, AllApart, SameChildren};
ghost use Rattle.adf_format.specs.Fresh.{fresh_text, fresh_end, fresh_placement};

/// The fields of each record stand one behind the other from its first byte to its last, without a gap or an
/// overlap, and each is as long as what it holds.
pub fn fields_in_a_row()
    ensures header { StandInRow 0 header_fields HEADER_LENGTH }
    ensures what { StandInRow 0 what_fields HEADER_WHAT.length }
    ensures sizes { StandInRow HEADER_SIZES.offset (map header_size (count_up 12))
        (field_end HEADER_SIZES) }
    ensures free_table { StandInRow 0 free_table_fields FREE_TABLE_LENGTH }
    ensures list_ends { map (list_end 0) (count_up 6)
        ≡ SMALL_FIRST ∷ SMALL_LAST ∷ MEDIUM_FIRST ∷ MEDIUM_LAST ∷ LARGE_FIRST ∷ LARGE_LAST ∷ [] }
    ensures lists { (place k : ℕ) → (list_first place k ≡ list_end place (2 * k))
        × (list_last place k ≡ list_end place (2 * k + 1)) }
    ensures node { (wide : Bool) → StandInRow 0 (node_fields wide) (node_length wide) }
    ensures head { StandInRow 0 (head_fields SUB_NODES_TAG) HEAD_LENGTH
        × StandInRow 0 (head_fields DATA_TAG) HEAD_LENGTH
        × StandInRow 0 (head_fields CHUNKS_TAG) HEAD_LENGTH
        × StandInRow 0 (head_fields FREE_CHUNK_TAG) HEAD_LENGTH }
    ensures free_head { StandInRow 0 free_head_fields FREE_HEAD_LENGTH }
    ensures entry { StandInRow 0 entry_fields ENTRY_LENGTH }
    ensures chunk_entry { StandInRow 0 chunk_entry_fields CHUNK_ENTRY_LENGTH }
    ensures entries { (place i : ℕ)
        → StandInRow (place + HEAD_LENGTH + ENTRY_LENGTH * i)
        (entry_name_at place i ∷ entry_child_at place i ∷ [])
        (place + HEAD_LENGTH + ENTRY_LENGTH * (i + 1)) }
    ensures chunk_entries { (place i : ℕ)
        → StandInRow (place + HEAD_LENGTH + CHUNK_ENTRY_LENGTH * i)
        (chunk_start_at place i ∷ chunk_end_at place i ∷ [])
        (place + HEAD_LENGTH + CHUNK_ENTRY_LENGTH * (i + 1)) }
{}

/// How long the records are: the file header 186 bytes, the free table behind it 80, a node 246 or 342, a head 16, and
/// entries 44 and 24.
pub fn record_lengths()
    ensures header { HEADER_LENGTH ≡ 186 }
    ensures free_table { (FREE_TABLE_PLACE ≡ 186) × (FREE_TABLE_LENGTH ≡ 80) }
    ensures node { (node_length false ≡ 246) × (node_length true ≡ 342) }
    ensures parts { (HEAD_LENGTH ≡ 16) × (FREE_HEAD_LENGTH ≡ 28) × (ENTRY_LENGTH ≡ 44)
        × (CHUNK_ENTRY_LENGTH ≡ 24) }
{}

/// Extents that follow one another tile a file, and extents that tile a file are together as long as it.
pub fn tiles_add_up()
    ensures in_a_row { (xs : List Extent) (end : ℕ) → TilesInOrder xs end → Tiles xs end }
    ensures add_up { (xs : List Extent) (end : ℕ) → Tiles xs end → total_length xs ≡ end + 1 }
{}

/// What the writer spells is read again.
pub fn spelled_is_read_again()
    ensures number { (width n : ℕ) → n < 16 ^ width → hex_value (hex_text width n) ≡ Some n }
    ensures digits { (width n : ℕ) → length (hex_text width n) ≡ width }
    ensures place { (place : ℕ) → place < 2 ^ 44
        → pointer (pointer_text (To place)) ≡ Some (To place) }
    ensures blank { pointer (pointer_text Blank) ≡ Some Blank }
{}

/// Every walk over the nodes, and every walk over the free chunks, ends, whatever the image holds.
pub fn walks_end()
    ensures nodes { (image : List ℕ) → (outcome : Result (List Visit) Fault)
        × NodeWalk image outcome }
    ensures frees { (image : List ℕ) (nodes : List Visit)
        → (outcome : Result (List FreeVisit) Fault) × FreeWalk image nodes outcome }
    ensures one { (image : List ℕ) (x y : Result (List Visit) Fault) → NodeWalk image x
        → NodeWalk image y → x ≡ y }
{}

/// Every image has a first fault or none, never both, and one alone.
pub fn one_first_fault()
    ensures some { (image : List ℕ) → ((fault : Fault) × FirstFault image fault)
        ⊎ ((nodes : List Visit) × (frees : List FreeVisit) × HasNoFault image nodes frees) }
    ensures never_both { (image : List ℕ) (nodes : List Visit) (frees : List FreeVisit)
        (fault : Fault) → HasNoFault image nodes frees → FirstFault image fault → ⊥ }
    ensures alone { (image : List ℕ) (f g : Fault) → FirstFault image f → FirstFault image g
        → f ≡ g }
{}

/// The header of an image says where the root stands, where the file ends, its version and its byte order:
/// all layouts of the image agree in these.
pub fn header_of_layouts()
    ensures end { (image : List ℕ) (tree : Tree) (p : Placement) → LaysOut image tree p
        → end_in image ≡ p.heap.end }
    ensures same_root { (image : List ℕ) (t u : Tree) (p q : Placement) → (l : LaysOut image t p)
        → (m : LaysOut image u q) → l.header.0.header ≡ m.header.0.header }
    ensures same_end { (image : List ℕ) (t u : Tree) (p q : Placement) → LaysOut image t p
        → LaysOut image u q → p.heap.end ≡ q.heap.end }
    ensures same_width { (image : List ℕ) (t u : Tree) (p q : Placement) → LaysOut image t p
        → LaysOut image u q → t.wide ≡ u.wide }
    ensures same_format { (image : List ℕ) (t u : Tree) (p q : Placement) → LaysOut image t p
        → LaysOut image u q → t.format ≡ u.format }
{}

/// The frame: a node whose extents meet no range that changes is held as before, where its children keep
/// their names and headers.
pub fn frame()
    ensures { (ranges : List Extent) (end : ℕ) (old new : List ℕ) → KeepsBut ranges end old new
        → (tree after : Tree) (p q : Placement) (node : Node) (parts : NodeParts)
        → after.wide ≡ tree.wide → AllApart ranges end (node_extents tree.wide parts)
        → SameChildren tree p after q node.children → HoldsNode old tree p node parts
        → HoldsNode new after q node parts }
{}

/// Bytes that are taken were in a gap or behind the end: all goes on tiling the file, the gaps stay in order,
/// and no pair of gaps that touch is added.
pub fn takes()
    ensures tiles { (limit n : ℕ) (heap : Heap) (place : ℕ) (after : Heap) (kind : ExtentKind)
        (used : List Extent) → heap_take limit n heap ≡ Ok (place, after)
        → Tiles (used ++ heap.gaps) heap.end
        → Tiles (extent kind place n ∷ used ++ after.gaps) after.end }
    ensures order { (limit n : ℕ) (heap : Heap) (place : ℕ) (after : Heap) → 0 < n
        → AreGapsInOrder heap.gaps → heap_take limit n heap ≡ Ok (place, after)
        → AreGapsInOrder after.gaps × (pairs after.gaps ≤ pairs heap.gaps) }
    ensures end { (limit n : ℕ) (heap : Heap) (place : ℕ) (after : Heap)
        → heap_take limit n heap ≡ Ok (place, after) → heap.end ≤ after.end }
{}

/// Bytes that are given become part of a gap: all goes on tiling the file, the gaps stay in order, and no pair
/// of gaps that touch is added.
pub fn gives()
    ensures tiles { (place n : ℕ) (heap : Heap) (kind : ExtentKind) (used : List Extent)
        → Tiles (extent kind place n ∷ used ++ heap.gaps) heap.end
        → Tiles (used ++ (heap_give place n heap).gaps) heap.end }
    ensures order { (place n : ℕ) (heap : Heap) → 0 < n → AreGapsInOrder heap.gaps
        → MeetsNone place n heap.gaps
        → AreGapsInOrder (heap_give place n heap).gaps
        × (pairs (heap_give place n heap).gaps ≤ pairs heap.gaps) }
{}

/// Ranges that lie apart may be given in any order: the same gaps are left.
pub fn gives_in_any_order()
    ensures two { (place n other m : ℕ) (gaps : List Extent) → 0 < n → 0 < m
        → (place + n ≤ other) ⊎ (other + m ≤ place) → AreGapsInOrder gaps → MeetsNone place n gaps
        → MeetsNone other m gaps
        → give_joined other m (give_joined place n gaps)
        ≡ give_joined place n (give_joined other m gaps) }
    ensures all { (given same : List Extent) (heap : Heap)
        → AllByRecursion (λ (e : Extent). 0 < e.length) given
        → ((b : ℕ) → cover (given ++ heap.gaps) b ≤ 1) → AreGapsInOrder heap.gaps
        → HasSameRanges given same
        → give_all given heap ≡ give_all same heap }
{}

/// The fresh tree of each version is a tree, and the fresh file lays it out.
pub fn fresh_file()
    ensures tree { (wide : Bool) → IsTree (fresh_tree wide) }
    ensures long { (wide : Bool) → length (fresh_text wide) ≡ fresh_end wide + 1 }
    ensures laid_out { (wide : Bool)
        → LaysOut (fresh_text wide) (fresh_tree wide) (fresh_placement wide) }
{}

/// To be the same tree up to the numbering is an equivalence.
pub fn same_tree()
    ensures itself { (t : Tree) → IsSameTree t t }
    ensures back { (t u : Tree) → IsSameTree t u → IsSameTree u t }
    ensures on { (t u v : Tree) → IsSameTree t u → IsSameTree u v → IsSameTree t v }
{}

/// A pointer is made of a block and of an offset, which is at most 4095 but for the blank one.
pub fn pointers()
    ensures { (bytes : List ℕ) (p : Pointer) → pointer bytes ≡ Some p
        → (block : ℕ) × (offset : ℕ) × (hex_value (take 8 bytes) ≡ Some block)
        × (hex_value (drop 8 bytes) ≡ Some offset) × IsMadeOf block offset p }
{}

/// A path is taken apart into the names that it was made of, and a link's text into its file and its path.
pub fn paths_and_links()
    ensures path { (names : List (List ℕ)) → IsTrue (list_all is_name names)
        → components (path_text names) ≡ names }
    ensures link { (file path : List ℕ) → IsTrue (is_link_file file)
        → (file_part (link_text file path) ≡ file) × (path_part (link_text file path) ≡ path) }
{}

/// In a layout parts stand at the live serials alone, each serial once, and no byte belongs to two nodes.
pub fn parts_of_nodes()
    ensures live { (image : List ℕ) (tree : Tree) (p : Placement) → LaysOut image tree p
        → (serial : ℕ) → is_some (parts_of p serial) ≡ is_live tree serial }
    ensures apart { (image : List ℕ) (tree : Tree) (p : Placement) → LaysOut image tree p
        → (i j byte : ℕ) (a b : NodeParts) → i ≢ j → parts_of p i ≡ Some a → parts_of p j ≡ Some b
        → cover (node_extents tree.wide a) byte + cover (node_extents tree.wide b) byte ≤ 1 }
{}

/// In a layout a byte up to the end that lies in no part of a node and in no free chunk is `z`.
pub fn unused_bytes()
    ensures { (image : List ℕ) (tree : Tree) (p : Placement) → LaysOut image tree p → (b : ℕ)
        → b ≤ p.heap.end → cover (head_extents ++ live_extents tree.wide p) b ≡ 0
        → cover (filter is_free p.heap.gaps) b ≡ 0 → field image b 1 ≡ codes "z" }
{}

/// Bytes behind the recorded end mean nothing: an image that keeps those up to it lays out the same tree, and
/// bytes may be added behind.
pub fn bytes_behind_the_end()
    ensures any { (image new : List ℕ) (tree : Tree) (p : Placement) → LaysOut image tree p
        → KeepsBut [] p.heap.end image new → p.heap.end < length new → LaysOut new tree p }
    ensures more { (image more : List ℕ) (tree : Tree) (p : Placement) → LaysOut image tree p
        → LaysOut (image ++ more) tree p }
{}

/// A verdict names the end, the byte order and the version that the header of the image names.
pub fn verdict_of_header()
    ensures { (image : List ℕ) (nodes : List NodePlace) (gaps : List Extent) (end : ℕ)
        (format : Format) (wide : Bool) → IsLaidOutAs image nodes gaps end format wide
        → (end_in image ≡ end) × (format_in image ≡ format) × (is_wide image ≡ wide) }
{}

/// The fresh files are packed.
pub fn fresh_file_is_packed()
    ensures { (wide : Bool) → IsPacked (fresh_tree wide) (fresh_placement wide) }
{}
