//! A library, as the lines of a session and the rules of a file call it.

ghost use Rattle.adf_library.specs.Library.{IsLibrary, devices_of, files_of};

use crate::library::Library;
use adf_model::{AdfError, Edit, EditError, Mode, Query, Reply, Serials, TreeCalls};
use cg_io::Device;
use session::FileCalls;

impl<D: Device> TreeCalls for Library<D> {
    ghost files = { files_of D.state };

    ghost devices = { devices_of D.state };

    ghost is_ready = { IsLibrary D.state };

    fn ask(&mut self, query: &Query) -> Result<Reply, AdfError> {
        Library::ask(self, query)
    }

    fn edit(&mut self, edits: &[Edit]) -> Result<Serials, EditError> {
        Library::edit(self, edits)
    }
}

impl<D: Device> FileCalls for Library<D> {
    fn open(&mut self, number: u32, mode: Mode, limit: u64) -> Result<(), AdfError> {
        Library::open(self, number, mode, limit)
    }

    fn close(&mut self, number: u32) -> Result<(), AdfError> {
        Library::close(self, number)
    }

    fn discard(&mut self, number: u32) -> Result<(), AdfError> {
        Library::discard(self, number)
    }
}
