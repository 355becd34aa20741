//! Laws of passes: a walk over an image, step by step, as code makes it. Each is the contract of a function that
//! does nothing. What was met so far is said in plain values; each step says what the next one finds.

ghost use Rattle.std.specs.Prelude.{◌≡◌, ℕ, ◌+◌, ◌<◌, ◌≤◌, true, false, List, [], ◌∷◌, ◌++◌, length, map, filter, reverse, Option, Some, None, Ok, Err, codes};
ghost use Rattle.adf_format.specs.Fields.{field, holds};
ghost use Rattle.adf_format.specs.Tiles.{cover, end_of, is_free, is_filler, total_length};
ghost use Rattle.adf_format.specs.LaysOut.{HasSameRanges};
ghost use Rattle.adf_format.specs.Checks.{Fault, first_broken};
ghost use Rattle.adf_format.specs.FirstFault.{Visit, FreeVisit, NodeWalk, FreeWalk, HasNoFault, IsLeastMisplaced, is_misplaced, extents_found, found_extents, free_extent, root_visit, children_in, table_in, end_in, is_wide, node_rows_at, free_rows_at};
ghost use Rattle.adf_format.specs.declared.types.Extent.{Extent};
ghost use Rattle.layout_laws.specs.FoundLayout.{FillGaps, ListsVisits};
ghost use Rattle.layout_laws.specs.TilePass.{IsPassed, AllFrom, AreBlank, filled_up, passed_gaps};
ghost use Rattle.layout_laws.specs.ListPass.{IsAtList, named_place, waiting, is_met};
ghost use Rattle.layout_laws.specs.NodePass.{Waiting, IsUnderway, AreMet, is_known, met_extents, named_node, waiting_children};

/// A stack of nodes, the next one last, leads through the walk over the nodes: the root waits at first, a node
/// that breaks no rule is met and its children wait in its place, and the first broken rule ends it. The nodes
/// that were met are listed as a verdict names them.
pub fn over_nodes()
    ensures start { (image : List ℕ)
        → IsUnderway image (record {
          place = (root_visit image).place;
          entry = None;
          parent = 0;
          position = 0;
          depth = 0;
        } ∷ []) [] }
    ensures on { (image : List ℕ) (stack : List Waiting) (m : Waiting) (nodes : List Waiting)
        → IsUnderway image (stack ++ m ∷ []) nodes
        → first_broken (node_rows_at image (is_wide image) (end_in image) (is_known nodes m.place)
        (266 + total_length (met_extents image (is_wide image) nodes)) m.place m.entry m.depth)
        ≡ None
        → IsUnderway image
        (stack ++ reverse (waiting_children image (table_in image m.place) (length nodes)
        (m.depth + 1) (children_in image m.place))) (nodes ++ m ∷ []) }
    ensures broken { (image : List ℕ) (stack : List Waiting) (m : Waiting) (nodes : List Waiting)
        (fault : Fault) → IsUnderway image (stack ++ m ∷ []) nodes
        → first_broken (node_rows_at image (is_wide image) (end_in image) (is_known nodes m.place)
        (266 + total_length (met_extents image (is_wide image) nodes)) m.place m.entry m.depth)
        ≡ Some fault
        → NodeWalk image (Err fault) }
    ensures ended { (image : List ℕ) (nodes : List Waiting) → IsUnderway image [] nodes
        → (seen : List Visit) × NodeWalk image (Ok seen) × AreMet seen nodes seen }
    ensures listed { (image : List ℕ) (seen : List Visit) (frees : List FreeVisit)
        (nodes : List Waiting) → HasNoFault image seen frees → AreMet seen nodes seen
        → ListsVisits seen (map named_node nodes) }
    ensures extents { (image : List ℕ) (seen : List Visit) (nodes : List Waiting)
        → AreMet seen nodes seen → found_extents image (is_wide image) seen
        ≡ met_extents image (is_wide image) nodes }
{}

/// The next free chunk of a list, from the first of the small one on, leads through the walk over the lists: one
/// that breaks no rule is met and names the next, behind the last the next list begins, and the first broken
/// rule ends it.
pub fn over_lists()
    ensures start { (image : List ℕ) (nodes : List Visit)
        → IsAtList image nodes 0 (named_place (field image 190 12))
        (waiting 1 (named_place (field image 214 12))
        ++ waiting 2 (named_place (field image 238 12))) [] }
    ensures on { (image : List ℕ) (nodes : List Visit) (list place : ℕ)
        (later seen : List FreeVisit) → IsAtList image nodes list (Some place) later seen
        → first_broken (free_rows_at image (end_in image) (is_met seen place)
        (266 + total_length (found_extents image (is_wide image) nodes)
        + total_length (map (free_extent image) seen)) list place) ≡ None
        → IsAtList image nodes list (named_place (field image (place + 16) 12)) later
        (seen ++ record { place = place; list = list } ∷ []) }
    ensures broken { (image : List ℕ) (nodes : List Visit) (list place : ℕ)
        (later seen : List FreeVisit) (fault : Fault)
        → IsAtList image nodes list (Some place) later seen
        → first_broken (free_rows_at image (end_in image) (is_met seen place)
        (266 + total_length (found_extents image (is_wide image) nodes)
        + total_length (map (free_extent image) seen)) list place) ≡ Some fault
        → FreeWalk image nodes (Err fault) }
    ensures next { (image : List ℕ) (nodes : List Visit) (list other : ℕ) (next : Option ℕ)
        (later seen : List FreeVisit)
        → IsAtList image nodes list None (waiting other next ++ later) seen
        → IsAtList image nodes other next later seen }
    ensures ended { (image : List ℕ) (nodes : List Visit) (list : ℕ) (seen : List FreeVisit)
        → IsAtList image nodes list None [] seen → FreeWalk image nodes (Ok seen) }
{}

/// One pass over the extents of a file, sorted by their places, finds the gaps that fill what they leave, or the
/// least byte that is misplaced: where an extent begins before the end of those passed, or the first byte between
/// them that is not blank.
pub fn over_extents()
    ensures start { (image : List ℕ) → IsPassed image [] 0 0 [] }
    ensures on { (image : List ℕ) (done : List Extent) (low reach : ℕ) (gaps : List Extent)
        (e : Extent) → IsPassed image done low reach gaps → reach ≤ e.place
        → AreBlank image reach e.place
        → is_filler e ≡ false → 0 < e.length → (is_free e ≡ true → 32 ≤ e.length)
        → IsPassed image (done ++ e ∷ []) e.place (end_of e) (passed_gaps gaps reach e) }
    ensures clash { (image : List ℕ) (found done rest : List Extent) (low reach : ℕ)
        (gaps : List Extent) (end : ℕ) → IsPassed image done low reach gaps
        → ((b : ℕ) → cover found b ≡ cover done b + cover rest b)
        → (e : Extent) (after : List Extent) → rest ≡ e ∷ after → AllFrom e.place rest
        → low ≤ e.place → e.place < reach → 0 < e.length → e.place ≤ end
        → IsLeastMisplaced image found end e.place }
    ensures hole { (image : List ℕ) (found done rest : List Extent) (low reach : ℕ)
        (gaps : List Extent) (end : ℕ) → IsPassed image done low reach gaps
        → ((b : ℕ) → cover found b ≡ cover done b + cover rest b)
        → (n byte : ℕ) → AllFrom n rest → reach ≤ byte → byte < n → AreBlank image reach byte
        → holds image byte (codes "z") ≡ false → byte ≤ end
        → IsLeastMisplaced image found end byte }
    ensures gaps { (image : List ℕ) (nodes : List Visit) (frees : List FreeVisit)
        (done : List Extent) (low reach : ℕ) (gaps : List Extent)
        → IsPassed image done low reach gaps → reach ≤ end_in image + 1
        → AreBlank image reach (end_in image + 1)
        → ((b : ℕ) → cover (extents_found image nodes frees) b ≡ cover done b)
        → HasSameRanges (map (free_extent image) frees) (filter is_free done)
        → FillGaps image nodes frees (filled_up gaps reach (end_in image + 1)) }
    ensures tiled { (image : List ℕ) (nodes : List Visit) (frees : List FreeVisit)
        (done : List Extent) (low reach : ℕ) (gaps : List Extent)
        → IsPassed image done low reach gaps → reach ≤ end_in image + 1
        → AreBlank image reach (end_in image + 1)
        → ((b : ℕ) → cover (extents_found image nodes frees) b ≡ cover done b)
        → HasSameRanges (map (free_extent image) frees) (filter is_free done)
        → (b : ℕ) → b ≤ end_in image → is_misplaced image (extents_found image nodes frees) b
        ≡ false }
{}
