//! The making of a fresh file on a device.

ghost use Rattle.adf_model.specs.Counts.{NoCountFell};
ghost use Rattle.adf_tree.specs.Making.{MakesFresh};

use crate::fresh::first_block;
use adf_model::AdfError;
use cg_io::Device;

/// Writes a fresh file of the narrow or the wide version to a device, unless it holds bytes (`NotEmpty`)
/// or one of its calls fails (`ReadFault`, `WriteFault`). It reads nothing but the length, and takes no
/// memory.
pub fn make_fresh<D: Device>(device: &mut D, wide: bool) -> Result<(), AdfError>
    ensures fresh { MakesFresh wide result (D.state device.old) (D.state device.new) }
    ensures counts { NoCountFell (D.state device.old) (D.state device.new) }
{
    let length = device.length().map_err(|_| AdfError::ReadFault)?;
    if length > 0 {
        return Err(AdfError::NotEmpty);
    }
    device
        .write_block(0, &first_block(wide))
        .map_err(|_| AdfError::WriteFault)
}
