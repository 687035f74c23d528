//! Classes of the characters of names, and their upper case.

ghost use Rattle.std.specs.Prelude.{⊤, ◌≡◌};
ghost use Rattle.std.specs.Char.{to_ascii_uppercase};
ghost use Rattle.operand_texts.specs.Characters.{classes, classes_of};

use bitflags::{Flag, Flags, bitflag_items};

/// A set of classes of characters.
#[derive(Clone, Copy, PartialEq, Eq, Debug)]
pub struct Classes(pub u8);

bitflag_items! {
    impl Classes: u8 {
        /// A letter in either case.
        const LETTER = 1;
        /// A national character: one of `$ # @`.
        const NATIONAL = 2;
        /// The underscore.
        const UNDERSCORE = 4;
        /// A decimal digit.
        const DIGIT = 8;
        /// Letters, national characters and the underscore: what a name begins with.
        const ALPHABETIC = 7;
        /// These and digits: what may be in a name.
        const ALPHANUMERIC = 15;
    }
}

impl Flags for Classes {
    type Bits = u8;

    ghost exact = { ⊤ };

    ghost table = { classes };

    ghost set_of = { λ c. c.0 };

    fn flags<'a>() -> &'a [Flag<Classes>] {
        Classes::FLAGS
    }

    fn bits(&self) -> u8 {
        self.0
    }

    fn from_bits_retain(bits: u8) -> Classes {
        Classes(bits)
    }
}

// For each byte the class that it's in, as the digit of its bit, or the digit 0.
static CLASSES: [u8; 256] = *b"\
    00000000000000000000000000000000\
    00022000000000008888888888000000\
    21111111111111111111111111100004\
    01111111111111111111111111100000\
    00000000000000000000000000000000\
    00000000000000000000000000000000\
    00000000000000000000000000000000\
    00000000000000000000000000000000";

/// The set of classes of a character: the one that it's in, or none if it's in no name.
pub fn classes_of(byte: u8) -> Classes
    ensures { result.0 ≡ classes_of byte }
{
    Classes(CLASSES[usize::from(byte)] & 15)
}

// Each byte in upper case.
static UPPER: [u8; 256] = *b"\
    \x00\x01\x02\x03\x04\x05\x06\x07\x08\x09\x0a\x0b\x0c\x0d\x0e\x0f\
    \x10\x11\x12\x13\x14\x15\x16\x17\x18\x19\x1a\x1b\x1c\x1d\x1e\x1f\
    \x20!\"#$%&'()*+,-./0123456789:;<=>?\
    @ABCDEFGHIJKLMNOPQRSTUVWXYZ[\\]^_\
    `ABCDEFGHIJKLMNOPQRSTUVWXYZ{|}~\x7f\
    \x80\x81\x82\x83\x84\x85\x86\x87\x88\x89\x8a\x8b\x8c\x8d\x8e\x8f\
    \x90\x91\x92\x93\x94\x95\x96\x97\x98\x99\x9a\x9b\x9c\x9d\x9e\x9f\
    \xa0\xa1\xa2\xa3\xa4\xa5\xa6\xa7\xa8\xa9\xaa\xab\xac\xad\xae\xaf\
    \xb0\xb1\xb2\xb3\xb4\xb5\xb6\xb7\xb8\xb9\xba\xbb\xbc\xbd\xbe\xbf\
    \xc0\xc1\xc2\xc3\xc4\xc5\xc6\xc7\xc8\xc9\xca\xcb\xcc\xcd\xce\xcf\
    \xd0\xd1\xd2\xd3\xd4\xd5\xd6\xd7\xd8\xd9\xda\xdb\xdc\xdd\xde\xdf\
    \xe0\xe1\xe2\xe3\xe4\xe5\xe6\xe7\xe8\xe9\xea\xeb\xec\xed\xee\xef\
    \xf0\xf1\xf2\xf3\xf4\xf5\xf6\xf7\xf8\xf9\xfa\xfb\xfc\xfd\xfe\xff";

/// A byte in upper case.
pub fn upper_of(byte: u8) -> u8
    ensures { result ≡ to_ascii_uppercase byte }
{
    UPPER[usize::from(byte)]
}
