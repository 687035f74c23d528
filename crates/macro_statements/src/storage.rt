//! STORAGE: its forms OBTAIN and RELEASE.

use crate::forms::{
    LEFT_OUT_KEYWORDS, StorageForm, StorageMacro, obtaining, releasing, storage_row,
};
use macro_operands::rows::OperandRow;
use macro_operands::{FaultKind, Form, Request, keyword};
use vsm_model::Family;

/// STORAGE OBTAIN.
const OBTAIN: OperandRow = storage_row!(
    b"LENGTH", Length, b"ADDR", Place, Boundary, Location, Condition
);

/// STORAGE RELEASE.
const RELEASE: OperandRow = storage_row!(
    b"LENGTH", Value, b"ADDR", Value, OtherForm, OtherForm, Condition
);

/// STORAGE.
pub const STORAGE: StorageMacro = StorageMacro {
    forms: &[
        obtaining!(b"OBTAIN", OBTAIN, S, false),
        releasing!(b"RELEASE", RELEASE, S, false),
    ],
    left_out: &[],
};
