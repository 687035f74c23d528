//! FREEMAIN: its forms that release one area, or all of a subpool.

use crate::forms::{LEFT_OUT_KEYWORDS, StorageForm, StorageMacro, releasing, storage_row};
use macro_operands::rows::OperandRow;
use macro_operands::{FaultKind, Form, Request, keyword};
use vsm_model::Family;

/// The operands of a form: LV and A of these kinds, and SP.
macro_rules! freemain_row {
    ($length:ident, $address:ident) => {
        storage_row!(b"LV", $length, b"A", $address, OtherForm, OtherForm, OtherForm)
    };
}

/// FREEMAIN R.
const REGISTER: OperandRow = freemain_row!(RegisterLength, Value);

/// FREEMAIN RC and RU.
const FIXED: OperandRow = freemain_row!(Value, Value);

/// FREEMAIN E, EC and EU.
const NAMED: OperandRow = freemain_row!(Value, NamedValue);

/// FREEMAIN.
pub const FREEMAIN: StorageMacro = StorageMacro {
    forms: &[
        releasing!(b"R", REGISTER, R, false),
        releasing!(b"RC", FIXED, S, true),
        releasing!(b"RU", FIXED, S, false),
        releasing!(b"E", NAMED, E, false),
        releasing!(b"EC", NAMED, E, true),
        releasing!(b"EU", NAMED, E, false),
    ],
    left_out: &[b"L", b"LC", b"LU", b"V", b"VC", b"VU"],
};
