//! The paths of nodes that are left out.

ghost use Rattle.std.specs.Prelude.{◌≡◌, ◌++◌, ◌∷◌, [], map, IfOk, IfErr, OnOk};
ghost use Rattle.adf_format.specs.Fields.{trimmed};
ghost use Rattle.adf_model.specs.Spelling.{spelled};
ghost use Rattle.layout_lint.specs.Halts.{IsWant};
ghost use Rattle.adf_salvage.specs.LeftOut.{way_text};

use adf_format::texts::trimmed;
use adf_model::{Text, spell};
use layout_lint::walking::Halt;
use std::alloc::Global;

// Puts a slash and the name of a name field, as it is printed, behind a text.
fn add_name(alloc: Global, text: &mut Vec<u8>, name: &[u8]) -> Result<(), Halt>
    ensures added { OnOk result (text.new.items
        ≡ text.old.items ++ 47 ∷ spelled (trimmed name.now)) }
    ensures want { IfErr result IsWant }
{
    let spelling = match spell(alloc, trimmed(name)) {
        Ok(spelling) => spelling,
        Err(_) => return Err(Halt::Memory),
    };
    match text.push(b'/') {
        Ok(()) => {}
        Err(_) => return Err(Halt::Memory),
    }
    match text.extend_from_slice(spelling.items()) {
        Ok(()) => Ok(()),
        Err(_) => Err(Halt::Memory),
    }
}

/// The path that leads through the nodes of some name fields to the last one.
pub fn path_of(alloc: Global, above: &[[u8; 32]], name: &[u8; 32]) -> Result<Text, Halt>
    ensures path { IfOk result (λ path.
        path ≡ way_text (map trimmed above.now ++ trimmed name.now ∷ [])) }
    ensures want { IfErr result IsWant }
{
    let mut text = Vec::new(alloc);
    for k in 0..above.len() {
        add_name(alloc, &mut text, &above[k])?;
    }
    add_name(alloc, &mut text, name)?;
    Ok(Text::new(text))
}
