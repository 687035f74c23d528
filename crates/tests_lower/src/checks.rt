//! What tests assert, in functions of one assertion each, which are far easier to prove than assertions in the test
//! itself. A failure shows the text of the macro's call.

ghost use Rattle.std.specs.Prelude.{◌≡◌, ◌≤◌, true, IfOk};

use cell_pool::CellPoolName;
use std::alloc::{AllocError, Global};
use std::fmt::Debug;
use std::process::Abort;
use vsm_elements::Elements;

/// As `assert!`.
macro_rules! holds {
    ($rt:expr; $what:expr $(,)?) => {
        $crate::checks::is_true(&$rt, $what, stringify!($what))
    };
}

/// As `assert_eq!`.
macro_rules! same {
    ($rt:expr; $is:expr, $want:expr $(,)?) => {
        $crate::checks::are_same(&$rt, $is, $want, stringify!($is))
    };
}

pub(crate) use holds;
pub(crate) use same;

/// It holds.
pub(crate) fn is_true(rt: &impl Abort, what: bool, text: &str)
    ensures { what ≡ true }
{
    assert!(rt; what, "assertion failed: {text}");
}

/// It is what is expected.
pub(crate) fn are_same<T: Copy + PartialEq + Debug>(rt: &impl Abort, is: T, want: T, text: &str) {
    assert_eq!(rt; is, want, "{text}");
}

/// Elements of which at least this many are spare.
pub(crate) fn stocked(alloc: Global, n: u32) -> Result<Elements, AllocError>
    ensures { IfOk result (λ elements. n ≤ elements.spare) }
{
    let mut elements = Elements::new(alloc);
    elements.reserve(n)?;
    Ok(elements)
}

/// The one block of elements that was made is released, with all of them spare.
pub(crate) fn all_given_back(rt: &impl Abort, elements: Elements) {
    same!(rt; elements.spare(), 128);
    same!(rt; elements.release(), 1);
}

/// A name of this text.
pub(crate) fn named(rt: &impl Abort, text: &str) -> CellPoolName {
    let mut name = CellPoolName::new();
    holds!(rt; name.try_push_str(text).is_ok());
    name
}
