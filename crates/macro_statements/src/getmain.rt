//! GETMAIN: its forms that obtain one area.

use crate::forms::{LEFT_OUT_KEYWORDS, StorageForm, StorageMacro, obtaining, storage_row};
use macro_operands::rows::OperandRow;
use macro_operands::{FaultKind, Form, Request, keyword};
use vsm_model::Family;

/// The operands of a form: LV, A, BNDRY and LOC of these kinds, and SP.
macro_rules! getmain_row {
    ($length:ident, $address:ident, $boundary:ident, $location:ident) => {
        storage_row!(b"LV", $length, b"A", $address, $boundary, $location, OtherForm)
    };
}

/// GETMAIN R.
const REGISTER: OperandRow = getmain_row!(RegisterLength, OtherForm, OtherForm, OtherForm);

/// GETMAIN RC and RU.
const FIXED: OperandRow = getmain_row!(Value, OtherForm, Boundary, Location);

/// GETMAIN VRC and VRU.
const VARIABLE: OperandRow = getmain_row!(Pair, OtherForm, Boundary, Location);

/// GETMAIN EC and EU.
const NAMED: OperandRow = getmain_row!(Value, Name, Boundary, OtherForm);

/// GETMAIN.
pub const GETMAIN: StorageMacro = StorageMacro {
    forms: &[
        obtaining!(b"R", REGISTER, R, false),
        obtaining!(b"RC", FIXED, S, true),
        obtaining!(b"RU", FIXED, S, false),
        obtaining!(b"VRC", VARIABLE, S, true),
        obtaining!(b"VRU", VARIABLE, S, false),
        obtaining!(b"EC", NAMED, E, true),
        obtaining!(b"EU", NAMED, E, false),
    ],
    left_out: &[b"LC", b"LU", b"VC", b"VU"],
};
