//! The operands of each statement.

/// A kind of value.
#[derive(Clone, Copy)]
pub enum Kind {
    /// A number, a name or a register.
    Value,
    /// A value, or a pair of values: a maximum and a minimum.
    Length,
    /// A pair of values: a maximum and a minimum.
    Pair,
    /// A value. That in register 0 isn't supported.
    RegisterLength,
    /// A name, whose word is the value.
    NamedValue,
    /// A name, or a register from 1 to 12.
    Place,
    /// A name.
    Name,
    /// YES or NO.
    Condition,
    /// COND or C, or UNCOND or U, as a word in a position. Any other word in it is no operand of the statement.
    ConditionWord,
    /// X'..' with the digits of 1 to 256 bytes, or A(..) with a value.
    Content,
    /// A number from 1 to 256.
    Size,
    /// A number.
    Count,
    /// DBLWD or PAGE.
    Boundary,
    /// BELOW, 24, ANY, 31 or RES, or a pair that begins with one of these. EXPLICIT isn't supported.
    Location,
    /// The header of a cell pool, between apostrophes.
    Header,
    /// Any text that isn't empty.
    Any,
    /// What other forms of the macro have and this one doesn't: it's no operand of the statement, whatever it says.
    OtherForm,
}

/// What an operand is known by.
#[derive(Clone, Copy)]
pub enum Key<'a> {
    /// Its place among all operands, counted from 0.
    Position(usize),
    /// Its keyword.
    Keyword(&'a [u8]),
}

/// An operand in a row.
#[derive(Clone, Copy)]
pub struct Entry {
    pub key: Key<'static>,
    pub kind: Kind,
    /// The key of an operand with which it can't appear.
    pub excluded: Option<Key<'static>>,
}

/// What follows an operation.
#[derive(Clone, Copy)]
pub enum Behind {
    /// Operands by a row, followed by remarks.
    Operands,
    /// Only remarks: the statement has no operand field, and no row.
    Remarks,
}

/// The operands of a statement after its form.
#[derive(Clone, Copy)]
pub struct OperandRow {
    pub entries: &'static [Entry],
    /// The keywords that are left out. A keyword of an entry is none of them.
    pub left_out: &'static [&'static [u8]],
}

/// An operand with a keyword, in upper case; and the keyword of an operand with which it can't appear, if there is one.
#[macro_export]
macro_rules! keyword {
    ($word:literal, $kind:ident) => {
        $crate::rows::Entry {
            key: $crate::rows::Key::Keyword($word),
            kind: $crate::rows::Kind::$kind,
            excluded: None,
        }
    };
    ($word:literal, $kind:ident, $excluded:literal) => {
        $crate::rows::Entry {
            key: $crate::rows::Key::Keyword($word),
            kind: $crate::rows::Kind::$kind,
            excluded: Some($crate::rows::Key::Keyword($excluded)),
        }
    };
}

/// An operand in a position.
#[macro_export]
macro_rules! position {
    ($place:literal, $kind:ident) => {
        $crate::rows::Entry {
            key: $crate::rows::Key::Position($place),
            kind: $crate::rows::Kind::$kind,
            excluded: None,
        }
    };
}
