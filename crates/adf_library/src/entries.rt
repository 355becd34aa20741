//! Which of two nodes refuses a call first.

ghost use Rattle.std.specs.Prelude.{◌≡◌};
ghost use Rattle.adf_library.specs.Entries.{first_of, test_number};

use adf_model::AdfError;

// The number of the test at entry that refuses; behind all tests where none does.
fn test_number(entered: &Result<(), AdfError>) -> u8
    ensures { result ≡ test_number entered.now }
{
    match entered {
        Err(AdfError::NoSuchFile) => 0,
        Err(AdfError::NotOpen) => 1,
        Err(AdfError::Broken) => 2,
        Err(_) => 3,
        Ok(()) => 4,
    }
}

/// Whether two nodes enter: each test is made for both before the next.
pub(crate) fn first_of(
    one: Result<(), AdfError>,
    other: Result<(), AdfError>,
) -> Result<(), AdfError>
    ensures { result ≡ first_of one other }
{
    if test_number(&other) < test_number(&one) {
        other
    } else {
        one
    }
}
