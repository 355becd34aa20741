//! Laws of writes: what bytes say after some of them were written. Each is the contract of a function that does nothing.

ghost use Rattle.std.specs.Prelude.{◌≡◌, ◌≢◌, ◌⊎◌, ℕ, ◌+◌, ◌-◌, ◌*◌, ◌^◌, ◌<◌, ◌≤◌, Bool, List, [], ◌∷◌, ◌++◌, length, replicate, slice_get, slice_set, Some};
ghost use Rattle.std.specs.List.{Contains};
ghost use Rattle.std.specs.declared.option.Option.{Option};
ghost use Rattle.adf_format.specs.declared.types.Extent.{Extent};
ghost use Rattle.adf_format.specs.declared.types.Format.{Format};
ghost use Rattle.adf_format.specs.Pointer.{To, pointer_text};
ghost use Rattle.adf_format.specs.Fields.{field, text_field};
ghost use Rattle.adf_format.specs.Tiles.{end_of};
ghost use Rattle.adf_format.specs.Parts.{NodeFields, SpellsHeader, SpellsFreeTable, SpellsNode, SpellsTable, SpellsEntry, SpellsChunk, SpellsChunkTable, SpellsChunkEntry, SpellsFree, IsFiller, HasPointer, node_length, table_length, chunk_table_length, payload};
ghost use Rattle.adf_format.specs.Records.{HeaderRecord, NodeRecord, SubNodes, Data, Chunks, Free, entry_text, chunk_entry_text, header_text, free_table_text, node_text};
ghost use Rattle.adf_format.specs.Spelled.{pointer_to, IsInReach, AllWide, SaysHeader, SaysNode, AreInReach, list_pointers, in_row, framed_text};
ghost use Rattle.adf_format.specs.Changes.{KeepsBut, Writes};

/// A field inside what was written is the written one, a field beside it is the old one, and a field around it
/// has the text written in it. Two writes in a row are one. A write in one of some ranges keeps all but these.
pub fn fields_after_a_write()
    ensures inside { (place : ℕ) (text old new : List ℕ) → Writes place text old new → (k n : ℕ)
        → k + n ≤ length text → field new (place + k) n ≡ field text k n }
    ensures beside { (place : ℕ) (text old new : List ℕ) → Writes place text old new → (at n : ℕ)
        → at + n ≤ length old → (at + n ≤ place) ⊎ (place + length text ≤ at)
        → field new at n ≡ field old at n }
    ensures around { (place : ℕ) (text old new : List ℕ) → Writes place text old new → (at k n : ℕ)
        → place ≡ at + k → k + length text ≤ n → at + n ≤ length old
        → Writes k text (field old at n) (field new at n) }
    ensures joined { (place : ℕ) (a b old middle new : List ℕ) → Writes place a old middle
        → Writes (place + length a) b middle new → Writes place (a ++ b) old new }
    ensures keeps { (place : ℕ) (text old new : List ℕ) (ranges : List Extent) (e : Extent)
        (end : ℕ) → Writes place text old new → Contains ranges e → e.place ≤ place
        → place + length text ≤ end_of e → end < length old → KeepsBut ranges end old new }
{}

/// A file header, a free table or a node header that is written whole is held there.
pub fn records_written()
    ensures header { (h : HeaderRecord) (wide : Bool) (format : Format) (root end : ℕ)
        (old new : List ℕ) → SaysHeader h wide format root end → Writes 0 (header_text h) old new
        → SpellsHeader (field new 0 186) wide format root end }
    ensures free_table { (ends : List (Option ℕ × Option ℕ)) (old new : List ℕ) → length ends ≡ 3
        → AreInReach ends → Writes 186 (free_table_text (list_pointers ends)) old new
        → SpellsFreeTable (field new 186 80) ends }
    ensures node { (wide : Bool) (r : NodeRecord) (node : NodeFields) (place : ℕ) (old new : List ℕ)
        → SaysNode wide r node → Writes place (node_text r) old new
        → SpellsNode wide (field new place (node_length wide)) node }
{}

/// A table, a chunk or a filler that is written whole is held there, with its entries or its payload.
pub fn parts_written()
    ensures table { (place : ℕ) (entries : List (List ℕ)) (old new : List ℕ) → AllWide 44 entries
        → place + table_length (length entries) ≤ 2 ^ 44
        → Writes place (framed_text SubNodes place (in_row entries)) old new
        → SpellsTable (field new place (table_length (length entries))) place (length entries)
        × ((i child : ℕ) (name : List ℕ) → child < 2 ^ 44 → length name ≤ 32
        → slice_get entries i ≡ Some (entry_text (text_field 32 name) (To child))
        → SpellsEntry (field new place (table_length (length entries))) i name child) }
    ensures chunk_table { (place : ℕ) (entries : List (List ℕ)) (old new : List ℕ)
        → AllWide 24 entries → place + chunk_table_length (length entries) ≤ 2 ^ 44
        → Writes place (framed_text Chunks place (in_row entries)) old new
        → SpellsChunkTable (field new place (chunk_table_length (length entries))) place
        (length entries)
        × ((i start size : ℕ) → start + size ≤ 2 ^ 44 → 4 ≤ size
        → slice_get entries i ≡ Some (chunk_entry_text (To start) (To (start + size - 4)))
        → SpellsChunkEntry (field new place (chunk_table_length (length entries))) i start size) }
    ensures chunk { (place : ℕ) (body old new : List ℕ) → 1 ≤ length body
        → place + 20 + length body ≤ 2 ^ 44 → Writes place (framed_text Data place body) old new
        → SpellsChunk (field new place (20 + length body)) place (20 + length body)
        × (payload new place (20 + length body) ≡ body) }
    ensures free { (place : ℕ) (next : Option ℕ) (rest old new : List ℕ) → IsInReach next
        → place + 32 + length rest ≤ 2 ^ 44
        → Writes place (framed_text Free place (pointer_text (pointer_to next) ++ rest)) old new
        → SpellsFree (field new place (32 + length rest)) place (32 + length rest) next }
    ensures filler { (place n : ℕ) (old new : List ℕ) → Writes place (replicate n 122) old new
        → IsFiller (field new place n) }
{}

/// Where one field of a part is written, the part holds the new field and all else as before.
pub fn fields_written()
    ensures end { (wide : Bool) (format : Format) (root end last : ℕ) (old new : List ℕ)
        → last < 2 ^ 44 → 186 ≤ length old → Writes 146 (pointer_text (To last)) old new
        → SpellsHeader (field old 0 186) wide format root end
        → SpellsHeader (field new 0 186) wide format root last }
    ensures list_ends { (ends : List (Option ℕ × Option ℕ)) (k at : ℕ) (e : Option ℕ
        × Option ℕ) (text old new : List ℕ) → k < 3 → 190 + 24 * k ≤ at
        → at + length text ≤ 214 + 24 * k → 266 ≤ length old
        → Writes at text old new → HasPointer (field new 186 80) (4 + 24 * k) e.0
        → HasPointer (field new 186 80) (16 + 24 * k) e.1
        → SpellsFreeTable (field old 186 80) ends
        → SpellsFreeTable (field new 186 80) (slice_set ends k e) }
    ensures entry { (place n i child : ℕ) (name old new : List ℕ) → i < n → child < 2 ^ 44
        → length name ≤ 32 → place + table_length n ≤ length old
        → Writes (place + 16 + 44 * i) (entry_text (text_field 32 name) (To child)) old new
        → SpellsTable (field old place (table_length n)) place n
        → SpellsTable (field new place (table_length n)) place n
        × SpellsEntry (field new place (table_length n)) i name child
        × ((j other : ℕ) (text : List ℕ) → j < n → j ≢ i
        → SpellsEntry (field old place (table_length n)) j text other
        → SpellsEntry (field new place (table_length n)) j text other) }
    ensures payload { (place n at : ℕ) (text old new : List ℕ) → place + 16 ≤ at
        → at + length text + 4 ≤ place + n → place + n ≤ length old → Writes at text old new
        → SpellsChunk (field old place n) place n → SpellsChunk (field new place n) place n }
    ensures next { (place n : ℕ) (was next : Option ℕ) (old new : List ℕ) → IsInReach next
        → place + n ≤ length old → Writes (place + 16) (pointer_text (pointer_to next)) old new
        → SpellsFree (field old place n) place n was → SpellsFree (field new place n) place n next }
{}
