//! What tests assert, in functions of one assertion each, which are far easier to prove than assertions in the test
//! itself. A failure shows the text of the macro's call.

use std::fmt::Debug;
use std::process::Abort;

/// As `assert!`.
macro_rules! holds {
    ($rt:expr; $what:expr $(,)?) => {
        $crate::checks::is_true(&$rt, $what, stringify!($what))
    };
}

/// As `assert_eq!`.
macro_rules! same {
    ($rt:expr; $is:expr, $want:expr $(,)?) => {
        $crate::checks::are_same(&$rt, $is, $want, stringify!($is))
    };
}

pub(crate) use holds;
pub(crate) use same;

/// It holds.
pub(crate) fn is_true(rt: &impl Abort, what: bool, text: &str) {
    assert!(rt; what, "assertion failed: {text}");
}

/// It is what is expected.
pub(crate) fn are_same<T: Copy + PartialEq + Debug>(rt: &impl Abort, is: T, want: T, text: &str) {
    assert_eq!(rt; is, want, "{text}");
}

/// It is this many of the expected bytes, from the first on.
pub(crate) fn is_begun(rt: &impl Abort, is: &[u8], want: &[u8], length: usize) {
    assert_eq!(rt; Some(is), want.get(..length), "{length} bytes");
}
