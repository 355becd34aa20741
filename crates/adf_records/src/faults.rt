//! Broken rules.

ghost use Rattle.std.specs.Prelude.{◌≡◌, ◌<◌, Some, option_map};
ghost use Rattle.adf_records.specs.View.{fault};

use crate::BadField;
use adf_format::fields::Field;

/// A broken rule at a field.
pub fn bad(rule: u8, at: Field) -> Option<BadField>
    requires { at.offset < 65536 }
    ensures { option_map fault result ≡ Some (record { rule = rule; place = at.offset }) }
{
    Some(BadField {
        rule,
        offset: at.offset as u16,
    })
}
