//! Headers of the nodes of the tree in work.

ghost use Rattle.adf_tree.specs.Files.{IsWorking, state_of};
ghost use Rattle.adf_tree.specs.Headers.{HeaderEnds, Looks};

use crate::file::AdfFile;
use adf_model::AdfError;
use adf_records::NodeHeader;
use cg_io::Device;
use node_reads::read_header;

impl<D: Device> AdfFile<D> {
    /// The header of the node of a serial, as it stands in the file. It takes no memory.
    ///
    /// It is refused with Broken, with NoSuchNode, and with ReadFault.
    pub fn header(&mut self, serial: u64) -> Result<NodeHeader, AdfError>
        requires { IsWorking D.state self.old }
        ensures sound { IsWorking D.state self.new }
        ensures looks { Looks (state_of D.state self.old) (state_of D.state self.new) }
        ensures ends { HeaderEnds serial result (state_of D.state self.old)
            (state_of D.state self.new) }
    {
        if self.broken {
            return Err(AdfError::Broken);
        }
        let row = match self.core.rows.get(serial) {
            Some(row) => row,
            None => return Err(AdfError::NoSuchNode),
        };
        match read_header(&mut self.draft, self.core.wide, row.place) {
            Ok(header) => Ok(header),
            Err(error) => Err(error),
        }
    }
}
