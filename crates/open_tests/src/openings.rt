//! Openings that are refused, and what the device holds then.
use crate::sessions::device_with;
use adf_model::{AdfError, Mode};
use adf_tree::AdfFile;
use std::alloc::Global;
use std::test::Fail;

/// What a device holds, the mode, and why the opening is refused.
const REFUSED: [(&[u8], Mode, AdfError); 5] = [
    (b"z", Mode::New, AdfError::NotEmpty),
    (b"z", Mode::NewWide, AdfError::NotEmpty),
    (b"", Mode::ReadWrite, AdfError::Layout { rule: 1, place: 0 }),
    (b"", Mode::ReadOnly, AdfError::Layout { rule: 1, place: 0 }),
    (
        b"@(#)ADF Database Version A02007>",
        Mode::ReadOnly,
        AdfError::Layout { rule: 1, place: 0 },
    ),
];

// Whether the opening is refused so, and gives the device back as it was.
fn is_refused(alloc: Global, held: &[u8], mode: Mode, wanted: AdfError) -> Result<bool, AdfError> {
    match AdfFile::open(alloc, device_with(alloc, held)?, mode, 64) {
        Ok(_) => Ok(false),
        Err(refused) => match refused.error {
            AdfError::Memory => Err(AdfError::Memory),
            error => Ok(error == wanted && refused.device.held() == held),
        },
    }
}

#[test]
fn openings_are_refused(rt: HostRuntime) -> Result<(), Fail> {
    for (i, (held, mode, error)) in REFUSED.iter().enumerate() {
        assert!(rt; is_refused(rt.alloc(), *held, *mode, *error)?, "row {i}");
    }
    Ok(())
}
