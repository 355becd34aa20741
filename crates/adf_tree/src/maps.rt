//! The extents of a file.

ghost use Rattle.std.specs.Prelude.{◌≡◌, ◌++◌, ◌+◌, ◌*◌, length, IfOk, IfErr, OnOk};
ghost use Rattle.adf_model.specs.declared.error.AdfError.{AdfError};
ghost use Rattle.cg_io.specs.Blocks.{ReadsFew};
ghost use Rattle.cg_io.specs.Answers.{Told};
ghost use Rattle.adf_tree.specs.Files.{IsFile, device_of, state_of};
ghost use Rattle.adf_tree.specs.Headers.{Looks};
ghost use Rattle.adf_tree.specs.Maps.{MapEnds, live_places, place_in};

use crate::file::AdfFile;
use adf_chunks::Extents;
use adf_model::AdfError;
use cg_io::Device;
use layout_lint::{extents_in, survey_places};
use std::alloc::Global;
use tree_edits::{Row, Rows};

// Puts the place of a header behind those found so far, where there is a row.
fn add_place(places: &mut Vec<u64>, row: Option<Row>) -> Result<(), AdfError>
    ensures added { OnOk result (places.new.items ≡ places.old.items ++ place_in row) }
    ensures want { IfErr result (λ e. e ≡ AdfError.Memory) }
{
    let row = match row {
        Some(row) => row,
        None => return Ok(()),
    };
    match places.push(row.place) {
        Ok(()) => Ok(()),
        Err(_) => Err(AdfError::Memory),
    }
}

// The places of the headers of all live nodes, by serial.
#[tactic(auto, using(crate::proofs::Mapping::one_place))]
fn live_places(alloc: Global, rows: &Rows) -> Result<Vec<u64>, AdfError>
    ensures places { IfOk result (λ places. places.items ≡ live_places rows.now.items) }
    ensures want { IfErr result (λ e. e ≡ AdfError.Memory) }
{
    let mut places = Vec::new(alloc);
    for serial in 0..rows.count() {
        match add_place(&mut places, rows.get(serial as u64)) {
            Ok(()) => {}
            Err(error) => return Err(error),
        }
    }
    Ok(places)
}

impl<D: Device> AdfFile<D> {
    /// All extents of the file by place: its header and its free table, the parts of its nodes, free chunks and fillers.
    ///
    /// It is refused with Broken, with Memory, and with ReadFault. Over a device that tells no bytes, which may have changed
    /// since, it is refused with Layout where a node breaks a rule.
    pub fn map(&mut self) -> Result<Extents, AdfError>
        requires { IsFile D.state self.old }
        ensures sound { IsFile D.state self.new }
        ensures looks { Looks (state_of D.state self.old) (state_of D.state self.new) }
        ensures few { Told (device_of D.state self.old).held
            (λ image. ReadsFew (4 * length image + 35) (device_of D.state self.old)
            (device_of D.state self.new)) }
        ensures ends { MapEnds result (state_of D.state self.old) (state_of D.state self.new) }
    {
        if self.broken {
            return Err(AdfError::Broken);
        }
        let places = match live_places(self.alloc, &self.core.rows) {
            Ok(places) => places,
            Err(error) => return Err(error),
        };
        let gaps = match self.core.heap.gaps(self.alloc) {
            Ok(gaps) => gaps,
            Err(error) => return Err(error),
        };
        let blocks = self.draft.blocks_mut();
        let found = match survey_places(self.alloc, blocks, &places, gaps.items()) {
            Ok(found) => found,
            Err(error) => return Err(error),
        };
        match extents_in(self.alloc, found.extents.items()) {
            Ok(extents) => Ok(Extents::new(extents)),
            Err(_) => Err(AdfError::Memory),
        }
    }
}
