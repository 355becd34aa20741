//! Tests on what is looked at of a node before its data are read.

ghost use Rattle.std.specs.Prelude.{◌≡◌, ◌≤◌, ◌&&◌, ◌∷◌, [], nat_le, true};
ghost use Rattle.adf_format.specs.Names.{is_same_type, data_size};
ghost use Rattle.adf_model.specs.Edits.{size_limit};
ghost use Rattle.sids_rules.specs.Rules.{first_dimension};
ghost use Rattle.sids_readings.specs.Shown.{shows_list, shows_type, shows_array, shows_ints, shows_ints_of, shows_filled, shows_text, shows_small, shown_index, is_ints_type};

use adf_model::DataType;
use sids_views::NodeView;

fn is_same_type(one: DataType, other: DataType) -> bool
    ensures { result ≡ is_same_type one other }
{
    one == other
}

/// Whether it is of a type.
pub fn is_type(view: &NodeView, kind: DataType) -> bool
    ensures { result ≡ shows_type kind view.now }
{
    is_same_type(view.kind(), kind)
}

/// Whether it is of a type and of dimensions, with data.
pub fn is_array(view: &NodeView, kind: DataType, dims: &[u64]) -> bool
    ensures { result ≡ shows_array kind dims.now view.now }
{
    is_type(view, kind) && view.dims() == dims && view.has_data()
}

/// Whether it is of whole numbers with data: of type I4 or I8.
pub fn is_ints(view: &NodeView) -> bool
    ensures { result ≡ shows_ints view.now }
{
    (is_type(view, DataType::I4) || is_type(view, DataType::I8)) && view.has_data()
}

/// Whether it is of whole numbers with data, of these dimensions.
pub fn is_ints_of(view: &NodeView, dims: &[u64]) -> bool
    ensures { result ≡ shows_ints_of dims.now view.now }
{
    is_ints(view) && view.dims() == dims
}

/// Whether it has a type and data.
pub fn is_filled(view: &NodeView) -> bool
    ensures { result ≡ shows_filled view.now }
{
    !is_type(view, DataType::Mt) && view.has_data()
}

/// The most bytes of data that are looked at.
const SIZE_LIMIT: u64 = 1 << 30;

/// Whether it is a text: characters of one dimension with data, of at most 2^30 bytes.
pub fn is_text(view: &NodeView) -> bool
    ensures { result ≡ shows_text view.now }
{
    match view.dims() {
        &[length] => is_type(view, DataType::C1) && view.has_data() && length <= SIZE_LIMIT,
        _ => false,
    }
}

/// Whether it is of whole numbers of one dimension with data.
pub fn is_list(view: &NodeView) -> bool
    ensures { result ≡ shows_list view.now }
{
    match view.dims() {
        &[_] => is_ints(view),
        _ => false,
    }
}

/// Whether it is of whole numbers of one dimension with data, of at most 2^30 bytes.
pub fn is_small_list(view: &NodeView) -> bool
    ensures { result ≡ (shows_list view.now && shows_small view.now) }
{
    match view.dims() {
        &[length] => is_ints(view) && has_few(view.kind(), length),
        _ => false,
    }
}

/// Whether so many whole numbers of a type have at most 2^30 bytes.
fn has_few(kind: DataType, length: u64) -> bool
    ensures { is_ints_type kind ≡ true → result ≡ nat_le (data_size kind (length ∷ [])) size_limit }
{
    length
        <= if is_same_type(kind, DataType::I4) {
            SIZE_LIMIT / 4
        } else {
            SIZE_LIMIT / 8
        }
}

/// Its first dimension; 0 where it has none.
pub fn first_dimension(view: &NodeView) -> u64
    ensures { result ≡ first_dimension view.now.dims }
{
    match view.dims().first() {
        Some(&length) => length,
        None => 0,
    }
}

/// For the numbers of a zone, its number of indices; else 0.
pub fn index_of(view: &NodeView) -> usize
    ensures value { result ≡ shown_index view.now }
    ensures few { result ≤ 3 }
{
    match view.dims() {
        &[index @ 1..=3, 3] if is_ints(view) => index as usize,
        _ => 0,
    }
}
