//! Laws of the definitions that contracts cite. No function here does anything: its contract is the law.

ghost use Rattle.std.specs.Prelude.{◌≡◌, ◌≢◌, ◌⊎◌, [], ◌∷◌, IsErr, IsTrue, ◌<◌, ◌≤◌, ◌+◌, ◌*◌, max, true, false, IsSome, All, List, length, take, ℕ, Bool, Option, Result};
ghost use Rattle.adf_format.specs.Tree.{Tree, children_at, IsAmong, is_within, IsTree, IsNumbered};
ghost use Rattle.adf_model.specs.declared.error.AdfError.{AdfError};
ghost use Rattle.adf_model.specs.declared.tree.Edit.{Edit};
ghost use Rattle.adf_model.specs.declared.tree.NodeId.{NodeId};
ghost use Rattle.adf_model.specs.Edits.{IsReached, file_tests_at_entry, apply, file_step, Work, file_group};
ghost use Rattle.adf_model.specs.Slots.{Open, Slot, Files, Device, Devices, recorded_end, slot_at, open_at, device_at, IsTold, AreTrees, AreSound, entry_files};
ghost use Rattle.adf_model.specs.Follow.{Spot, follow, follow_text, link_text_at};
ghost use Rattle.adf_model.specs.Calls.{Group, is_live_in, edit_group};
ghost use Rattle.adf_model.specs.Steps.{Call, Opened, Closed, Discarded, Asked, Changed, Opening, Opens, Step, AllLaidOut, IsEdit, IsPlacedGroup, HasNoRoom, NoFault, IsAnswer, IsFileAnswer, is_query_error, HasReadCause, IsWithinLimit, IsModelEdit, IsOpenRefusal};
ghost use Rattle.adf_model.specs.Runs.{Run};
ghost use Rattle.adf_model.specs.Torn.{TornAt};
ghost use Rattle.adf_model.specs.Steps.Opening.{Fresh};
ghost use Rattle.adf_model.specs.Answers.{asked_node, refusal_at_entry, answer};
ghost use Rattle.adf_model.specs.Tests.{first_refusal};
ghost use Rattle.adf_model.specs.Placing.{place_group};
ghost use Rattle.adf_model.specs.Costs.{call_cost, RunCosts};
ghost use Rattle.adf_model.specs.declared.error.EditError.{EditError};
ghost use Rattle.adf_model.specs.declared.tree.Query.{Query};
ghost use Rattle.adf_model.specs.declared.tree.Reply.{Reply};
ghost use Rattle.adf_model.specs.Spelling.{spelled, text_of};
ghost use Rattle.adf_format.specs.Placement.{Placement, NodeParts, parts_of};
ghost use Rattle.adf_format.specs.HeapRule.{parts_at, hold, release};
ghost use Rattle.adf_model.specs.NodeData.{resized_spot, released_spot, with_spot, with_spot_or};

/// A tree stays a tree over an edit, over a group of edits of its file, and over a group that goes
/// through links of many files.
pub fn edits_keep_trees()
    ensures edit { (tree after : Tree) (edit : Edit) → IsTree tree → IsReached tree edit
        → apply tree edit ≡ Ok after → IsTree after }
    ensures step { (writable : Bool) (tree after : Tree) (edit : Edit) → IsTree tree
        → file_step writable tree edit ≡ Ok after → IsTree after }
    ensures group { (writable : Bool) (tree : Tree) (edits : List Edit) (after : Work) → IsTree tree
        → file_group writable tree edits ≡ Ok after → IsTree after.tree }
    ensures files { (files : Files) (edits : List Edit) (group : Group) → AreTrees files
        → edit_group files edits ≡ Ok group → AreTrees group.files }
{}

/// Following a node is one step and following on, with a link less for each that is followed; and
/// what is reached from a live node is live and no link.
pub fn following_ends()
    ensures step { (files : Files) (node : NodeId) (left : ℕ) → left ≤ 100 →
        follow files node left ≡ follow_text (follow files) files node
        (link_text_at files node) node left }
    ensures spends { (files : Files) (node : NodeId) (left : ℕ) (spot : Spot)
        → follow files node left ≡ Ok spot → spot.left ≤ left }
    ensures link { (files : Files) (node : NodeId) (left : ℕ) (spot : Spot)
        → IsSome (link_text_at files node) → follow files node left ≡ Ok spot → spot.left < left }
    ensures reached { (files : Files) (node : NodeId) (left : ℕ) (spot : Spot) → AreTrees files
        → is_live_in (open_at files node.file) node.serial ≡ true → follow files node left ≡ Ok spot
        →
        (is_live_in (open_at files spot.node.file) spot.node.serial ≡ true)
        × (link_text_at files spot.node ≡ None) }
{}

/// Over devices that tell what they hold, what stands in the slots are trees from the first call
/// on, and an opening gives a tree numbered in tree order.
pub fn calls_keep_trees()
    ensures entry { (names : List (Option (List ℕ))) → AreSound (entry_files names) }
    ensures laid_out { (names : List (Option (List ℕ))) (devices : Devices)
        → AllLaidOut (entry_files names) devices }
    ensures open { (files : Files) → AreSound files → AreTrees files }
    ensures step { (files after : Files) (before now : Devices) (call : Call) → AreSound files
        → IsTold files before → Step files before call now after → AreSound after }
    ensures opening { (files : Files) (before : Devices) (number : ℕ) (opening : Opening)
        (opened : Open) → AreSound files → IsTold files before →
        Opens opening (slot_at files number) (device_at before number).held opened
        → IsTree opened.tree × IsNumbered opened.tree }
{}

/// A spelled text is read again, and different texts are spelled differently.
pub fn one_spelling()
    ensures again { (text : List ℕ) → All (λ b. b < 256) text → text_of (spelled text) ≡ Some text }
    ensures apart { (one other : List ℕ) → All (λ b. b < 256) one → All (λ b. b < 256) other
        → spelled one ≡ spelled other → one ≡ other }
{}

/// Want of room is answered only at an edit of the group, where its needs exceed the limit and where
/// the heap rule refuses a take, with the bytes asked for and the end there; and where it refuses
/// one, the group is not done, not written, and not refused at a later edit.
pub fn room_is_exact()
    ensures exact { (files after : Files) (before now : Devices) (edits : List Edit)
        (at asked end : ℕ) →
        IsEdit files before edits (Err (record { at = at; error = AdfError.Full asked end })) now
        after →
        IsPlacedGroup files before edits (Err (record { at = at; error = AdfError.Full asked end }))
        now →
        (at < length edits) × ((group : Group) × (number : ℕ) × (opened : Open)
        × (edit_group files (take (at + 1) edits) ≡ Ok group) × (group.file ≡ Some number)
        × (open_at files number ≡ Some opened)
        × (opened.limit * 4096 < recorded_end (device_at before number) + 1 + group.needed)
        × (place_group opened.limit opened.tree (device_at before number).placement group.done
        ≡ Err (record { asked = asked; end = end }))) }
    ensures undone { (files after : Files) (before now : Devices) (edits : List Edit)
        (created : List NodeId) (count : ℕ) →
        HasNoRoom files before edits count → IsEdit files before edits (Ok created) now after
        → IsPlacedGroup files before edits (Ok created) now → ⊥ }
    ensures unwritten { (files after : Files) (before now : Devices) (edits : List Edit)
        (count at : ℕ) →
        HasNoRoom files before edits count
        → IsEdit files before edits (Err (record { at = at; error = AdfError.WriteFault })) now
        after →
        IsPlacedGroup files before edits (Err (record { at = at; error = AdfError.WriteFault })) now
        → ⊥ }
    ensures first { (files after : Files) (before now : Devices) (edits : List Edit) (count at : ℕ)
        (error : AdfError) →
        HasNoRoom files before edits count → count ≤ at
        → IsEdit files before edits (Err (record { at = at; error = error })) now after →
        IsPlacedGroup files before edits (Err (record { at = at; error = error })) now → ⊥ }
{}

/// Where no count of faults rises, the trees alone decide what is answered to a query and, where
/// the needs are within the limit, to a group, but for want of memory.
pub fn trees_decide()
    ensures query { (files : Files) (before now : Devices) (query : Query)
        (result : Result Reply AdfError) → NoFault before now →
        IsAnswer files query result → HasReadCause before now result
        → (result ≡ Err AdfError.Memory) ⊎ (result ≡ answer files query) }
    ensures group { (files after : Files) (before now : Devices) (edits : List Edit)
        (result : Result (List NodeId) EditError) → NoFault before now →
        IsWithinLimit files before edits → IsEdit files before edits result now after
        → IsModelEdit files edits result }
{}

/// A write that failed makes no device shorter, and longer by its own block at most: of a fresh file
/// by the first block alone.
pub fn torn_writes_stay_small()
    ensures group { (torn : ℕ) (before wanted now : List ℕ) → TornAt torn before wanted now →
        (length before ≤ length now) × (length now ≤ max (length before) ((torn + 1) * 4096)) }
    ensures opening { (wide : Bool) (slot : Slot) (before now : Device) (old new : List ℕ)
        → before.held ≡ Some old → now.held ≡ Some new →
        IsOpenRefusal (Fresh wide) slot before now AdfError.WriteFault → length new ≤ 4096 }
{}

/// No call writes a device more often than it costs, and no run of calls does.
pub fn writes_are_bounded()
    ensures call { (one : ℕ) (files after : Files) (before now : Devices) (call : Call)
        → Step files before call now after →
        (device_at now one).writes ≤ (device_at before one).writes
        + call_cost one files before call }
    ensures run { (one : ℕ) (files after : Files) (before now : Devices) (calls : List Call)
        (cost : ℕ) → IsTold files before → RunCosts one files before calls now after cost →
        (device_at now one).writes ≤ (device_at before one).writes + cost }
    ensures each { (one : ℕ) (files after : Files) (before now : Devices) (calls : List Call)
        → Run files before calls now after →
        (cost : ℕ) × RunCosts one files before calls now after cost }
{}

/// A tree has no cycle: no child is the root, and no node stands below its own child.
pub fn trees_have_no_cycle()
    ensures root { (tree : Tree) (serial : ℕ) → IsTree tree → IsAmong (children_at tree serial) 0
        → ⊥ }
    ensures below { (tree : Tree) (parent child : ℕ) → IsTree tree
        → IsAmong (children_at tree parent) child → is_within tree child parent ≡ false }
{}

/// The parts of a file stand where they stood over each call but an opening, a closing or a
/// discarding of that file that was done, and a group of its edits.
pub fn placements_stay()
    ensures opening { (files after : Files) (before now : Devices) (number limit one : ℕ)
        (opening : Opening) (result : Result Unit AdfError)
        → Step files before (Opened number opening limit result) now after →
        (one ≡ number → IsErr result) → (device_at now one).placement
        ≡ (device_at before one).placement }
    ensures closing { (files after : Files) (before now : Devices) (number one : ℕ)
        (result : Result Unit AdfError) → Step files before (Closed number result) now after →
        (one ≡ number → IsErr result) → (device_at now one).placement
        ≡ (device_at before one).placement }
    ensures discarding { (files after : Files) (before now : Devices) (number one : ℕ)
        (result : Result Unit AdfError) → Step files before (Discarded number result) now after →
        (one ≡ number → IsErr result) → (device_at now one).placement
        ≡ (device_at before one).placement }
    ensures query { (files after : Files) (before now : Devices) (one : ℕ) (query : Query)
        (result : Result Reply AdfError) → Step files before (Asked query result) now after →
        (device_at now one).placement ≡ (device_at before one).placement }
    ensures group { (files after : Files) (before now : Devices) (one : ℕ) (edits : List Edit)
        (created : List NodeId) (group : Group)
        → Step files before (Changed edits (Ok created)) now after →
        edit_group files edits ≡ Ok group → Some one ≢ group.file
        → (device_at now one).placement ≡ (device_at before one).placement }
{}

/// A refusal at entry comes before every other answer but want of memory, so no failed read takes
/// its place: on many files, and on one.
pub fn entry_comes_first()
    ensures files { (files : Files) (query : Query) (error : AdfError)
        (result : Result Reply AdfError) → refusal_at_entry files query ≡ Some error
        → IsAnswer files query result →
        (result ≡ Err AdfError.Memory) ⊎ (result ≡ Err error) }
    ensures file { (broken : Bool) (tree : Tree) (query : Query) (error : AdfError)
        (result : Result Reply AdfError) →
        first_refusal (file_tests_at_entry broken tree (asked_node query ∷ [])) ≡ Some error
        → IsFileAnswer broken tree query result
        → (result ≡ Err AdfError.Memory) ⊎ (result ≡ Err error) }
    ensures errors { (before now : Devices) (error : AdfError) (result : Result Reply AdfError)
        → result ≡ Err error → HasReadCause before now result → IsTrue (is_query_error error) }
{}

/// The data of one node get a size, or become none, in a file as they do by themselves.
pub fn data_stand_alone()
    ensures resize { (limit size serial : ℕ) (p : Placement) (parts : NodeParts)
        → parts_of p serial ≡ Some parts →
        hold limit p serial size (parts_at p serial).chunks
        ≡ with_spot_or p serial (resized_spot limit size (parts_at p serial, p.heap)) }
    ensures release { (serial : ℕ) (p : Placement)
        → release p serial ≡ with_spot p serial (released_spot (parts_at p serial, p.heap)) }
{}
