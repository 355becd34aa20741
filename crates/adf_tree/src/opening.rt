//! Opening: the file that a device holds, or a fresh one.

ghost use Rattle.std.specs.Prelude.{◌≡◌, ◌^◌, ◌≤◌, ◌+◌, ◌*◌, map, length, IfOk, IfErr, OnOk};
ghost use Rattle.adf_model.specs.declared.error.AdfError.{AdfError};
ghost use Rattle.adf_model.specs.Modes.{opening_of};
ghost use Rattle.adf_model.specs.Steps.{Fresh, Stored};
ghost use Rattle.block_cache.specs.Cache.{IsCache, device_in};
ghost use Rattle.cg_io.specs.Blocks.{ReadsFew};
ghost use Rattle.layout_lint.specs.Shapes.{IsShaped};
ghost use Rattle.cg_io.specs.Answers.{Told};
ghost use Rattle.layout_lint.specs.Walks.{node_place};
ghost use Rattle.adf_tree.specs.Files.{IsFile, device_of, state_of};
ghost use Rattle.adf_tree.specs.Opening.{opened_row, opened_from, HasVerdict, Stands, IsOpened, IsRefused, IsEmpty, IsEmptyCause, OpensFresh, OpensStored, ReadsWithin};

use crate::file::{AdfFile, OpenRefused, no_names, no_steps};
use crate::fresh::fresh_core;
use adf_chunks::Extents;
use adf_model::{AdfError, Mode};
use block_cache::BlockCache;
use block_draft::Draft;
use cg_io::{Blocks, Device};
use file_heap::Heap;
use layout_lint::{NodePlace, NodePlaces, Verdict, lint};
use std::alloc::Global;
use tree_edits::{Core, Row, Rows};

// How many blocks a cache keeps.
const CACHED: usize = 256;

// The row of a node of a verdict.
fn opened_row(serial: usize, node: &NodePlace) -> Row
    ensures { result ≡ opened_row serial (node_place node.now) }
{
    Row {
        place: node.place,
        parent: if serial == 0 { None } else { Some(node.parent) },
        depth: node.depth,
    }
}

// The rows of the nodes of a verdict, by their serials.
fn rows_of(alloc: Global, nodes: &[NodePlace]) -> Result<Rows, AdfError>
    ensures rows { IfOk result (λ rows. rows
        ≡ record {
          items = opened_from 0 (map node_place nodes.now);
          kept = opened_from 0
              (map node_place nodes.now);
        }) }
    ensures cause { IfErr result (λ e. e ≡ AdfError.Memory) }
{
    let mut rows = Vec::new(alloc);
    for serial in 0..nodes.len() {
        let row = opened_row(serial, &nodes[serial]);
        match rows.push(Some(row)) {
            Ok(()) => {}
            Err(_) => return Err(AdfError::Memory),
        }
    }
    Ok(Rows::new(alloc, rows))
}

fn refused<D: Device>(error: AdfError, cache: BlockCache<D>) -> OpenRefused<D>
    ensures error { result.error ≡ error }
    ensures device { result.device ≡ device_in cache }
{
    OpenRefused {
        error,
        device: cache.into_device(),
    }
}

// What the linter found: the nodes in tree order, the gaps by place, the last byte and the version.
#[derive(Drop)]
struct Found {
    nodes: NodePlaces,
    gaps: Extents,
    end: u64,
    wide: bool,
}

// The file of a verdict, over the device that it was found on.
fn opened<D: Device>(
    alloc: Global,
    cache: BlockCache<D>,
    verdict: Found,
    writable: bool,
    limit: u64,
) -> Result<AdfFile<D>, OpenRefused<D>>
    requires cache { IsCache D.state cache }
    requires limit { (1 ≤ limit) × (limit ≤ 2 ^ 32) }
    requires shape { IsShaped (map node_place verdict.nodes) verdict.gaps verdict.end verdict.wide }
    requires verdict { HasVerdict (D.state (device_in cache)).held verdict.nodes verdict.gaps
        verdict.end verdict.wide }
    ensures sound { IfOk result (λ file. IsFile D.state file) }
    ensures opened { IfOk result (λ file. Stands writable limit (D.state (device_in cache))
        (state_of D.state file)) }
    ensures few { IfOk result (λ file. (device_of D.state file).reads
        ≤ (D.state (device_in cache)).reads + 2 * (length file.core.heap.work.heap.gaps + 3)) }
    ensures refused { IfErr result (λ r. IsRefused (Stored writable) (D.state (device_in cache))
        (D.state r.device) r.error) }
    ensures bound { IfErr result (λ r. Told (D.state (device_in cache)).held
        (λ image. (D.state r.device).reads
        ≤ (D.state (device_in cache)).reads + 2 * (length image + 3))) }
{
    let rows = match rows_of(alloc, verdict.nodes.items()) {
        Ok(rows) => rows,
        Err(error) => return Err(refused(error, cache)),
    };
    let mut draft = Draft::new(alloc, cache);
    let heap = match Heap::new(alloc, &mut draft, &verdict.gaps, verdict.end, limit) {
        Ok(heap) => heap,
        Err(error) => return Err(refused(error, draft.into_blocks())),
    };
    Ok(AdfFile {
        draft,
        core: Core {
            heap,
            rows,
            wide: verdict.wide,
            writable,
        },
        hints: None,
        names: no_names(alloc),
        steps: no_steps(),
        broken: false,
        alloc,
    })
}

// Opens the file that the device below a cache holds.
fn open_stored<D: Device>(
    alloc: Global,
    mut cache: BlockCache<D>,
    writable: bool,
    limit: u64,
) -> Result<AdfFile<D>, OpenRefused<D>>
    requires cache { IsCache D.state cache }
    requires limit { (1 ≤ limit) × (limit ≤ 2 ^ 32) }
    ensures sound { IfOk result (λ file. IsFile D.state file) }
    ensures opened { IfOk result (λ file. OpensStored writable limit (D.state (device_in cache))
        (state_of D.state file)) }
    ensures refused { IfErr result (λ r. IsRefused (Stored writable) (D.state (device_in cache))
        (D.state r.device) r.error) }
    ensures bound { IfErr result (λ r. ReadsWithin (Stored writable) (D.state (device_in cache))
        (D.state r.device)) }
{
    let verdict = match lint(alloc, &mut cache) {
        Ok(verdict) => verdict,
        Err(error) => return Err(refused(error, cache)),
    };
    match verdict {
        Verdict::Sound {
            nodes,
            gaps,
            end,
            format: _,
            wide,
        } => {
            let found = Found {
                nodes,
                gaps,
                end,
                wide,
            };
            opened(alloc, cache, found, writable, limit)
        }
        Verdict::Unsound { rule, place } => {
            Err(refused(AdfError::Layout { rule, place }, cache))
        }
    }
}

// A device that holds bytes is refused, and so is one whose length is not read.
fn check_empty<D: Device>(cache: &mut BlockCache<D>) -> Result<(), AdfError>
    requires { IsCache D.state cache.old }
    ensures sound { IsCache D.state cache.new }
    ensures empty { OnOk result (IsEmpty (D.state (device_in cache.old)).held) }
    ensures effect { ReadsFew 1 (D.state (device_in cache.old)) (D.state (device_in cache.new)) }
    ensures cause { IfErr result (IsEmptyCause (D.state (device_in cache.old)).held
        (D.state (device_in cache.old)).faults (D.state (device_in cache.new)).faults) }
{
    let length = match cache.length() {
        Ok(length) => length,
        Err(_) => return Err(AdfError::ReadFault),
    };
    if length > 0 {
        return Err(AdfError::NotEmpty);
    }
    Ok(())
}

// Writes a fresh file to the device below a cache, which holds nothing, and opens it. What is to be in memory is made
// before the write.
fn open_fresh<D: Device>(
    alloc: Global,
    mut cache: BlockCache<D>,
    wide: bool,
    limit: u64,
) -> Result<AdfFile<D>, OpenRefused<D>>
    requires cache { IsCache D.state cache }
    requires limit { (1 ≤ limit) × (limit ≤ 2 ^ 32) }
    ensures sound { IfOk result (λ file. IsFile D.state file) }
    ensures opened { IfOk result (λ file. OpensFresh wide limit (D.state (device_in cache))
        (state_of D.state file)) }
    ensures refused { IfErr result (λ r. IsRefused (Fresh wide) (D.state (device_in cache))
        (D.state r.device) r.error) }
    ensures bound { IfErr result (λ r. ReadsWithin (Fresh wide) (D.state (device_in cache))
        (D.state r.device)) }
{
    match check_empty(&mut cache) {
        Ok(()) => {}
        Err(error) => return Err(refused(error, cache)),
    }
    let mut draft = Draft::new(alloc, cache);
    let core = match fresh_core(alloc, &mut draft, wide, limit) {
        Ok(core) => core,
        Err(error) => return Err(refused(error, draft.into_blocks())),
    };
    match draft.commit() {
        Ok(()) => Ok(AdfFile {
            draft,
            core,
            hints: None,
            names: no_names(alloc),
            steps: no_steps(),
            broken: false,
            alloc,
        }),
        Err(_) => Err(refused(AdfError::WriteFault, draft.into_blocks())),
    }
}

// Opens the file of a mode over a cache of its device.
fn open_over<D: Device>(
    alloc: Global,
    cache: BlockCache<D>,
    mode: Mode,
    limit: u64,
) -> Result<AdfFile<D>, OpenRefused<D>>
    requires cache { IsCache D.state cache }
    requires limit { (1 ≤ limit) × (limit ≤ 2 ^ 32) }
    ensures sound { IfOk result (λ file. IsFile D.state file) }
    ensures opened { IfOk result (λ file. IsOpened mode limit (D.state (device_in cache))
        (state_of D.state file)) }
    ensures refused { IfErr result (λ r. IsRefused (opening_of mode) (D.state (device_in cache))
        (D.state r.device) r.error) }
    ensures bound { IfErr result (λ r. ReadsWithin (opening_of mode) (D.state (device_in cache))
        (D.state r.device)) }
{
    match mode {
        Mode::New => open_fresh(alloc, cache, false, limit),
        Mode::NewWide => open_fresh(alloc, cache, true, limit),
        Mode::ReadWrite => open_stored(alloc, cache, true, limit),
        Mode::ReadOnly => open_stored(alloc, cache, false, limit),
    }
}

impl<D: Device> AdfFile<D> {
    /// Opens the file that a device holds, or writes a fresh one to a device that holds nothing.
    ///
    /// `limit` is the address limit in blocks of 4,096 bytes, from 1 to 2^32. It is refused with Memory, with
    /// ReadFault, and with Layout where the bytes lay out no tree; a fresh file with NotEmpty where the device holds
    /// bytes, and with WriteFault, after which the first block of the device has any bytes. The device comes back.
    pub fn open(
        alloc: Global,
        device: D,
        mode: Mode,
        limit: u64,
    ) -> Result<AdfFile<D>, OpenRefused<D>>
        requires { (1 ≤ limit) × (limit ≤ 2 ^ 32) }
        ensures sound { IfOk result (λ file. IsFile D.state file) }
        ensures opened { IfOk result (λ file. IsOpened mode limit (D.state device)
            (state_of D.state file)) }
        ensures refused { IfErr result (λ r. IsRefused (opening_of mode) (D.state device)
            (D.state r.device) r.error) }
        ensures bound { IfErr result (λ r. ReadsWithin (opening_of mode) (D.state device)
            (D.state r.device)) }
    {
        match BlockCache::new(alloc, device, CACHED) {
            Ok(cache) => open_over(alloc, cache, mode, limit),
            Err((error, device)) => Err(OpenRefused { error, device }),
        }
    }
}
