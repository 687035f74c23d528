//! Apostrophes and parentheses of an operand field.

ghost use Rattle.std.specs.Prelude.{◌≡◌, ◌∷◌, ◌+◌, ◌^◌, ◌<◌, ◌≤◌, length, List, ℕ, Some};
ghost use Rattle.std.specs.Option.{option_copied};
ghost use Rattle.operand_texts.specs.Field.{outside, past, field_len, is_closed, is_balanced, operand_len};
ghost use Rattle.operand_texts.specs.Field.{operands_from, operands_behind};

use crate::runs::end_of_run;

/// Where a byte of a field is: between apostrophes or not, and in how many parentheses; and whether one was closed too
/// often before it.
#[derive(Clone, Copy)]
pub struct Nesting {
    /// Whether it's between apostrophes.
    pub quoted: bool,
    /// How many parentheses it's in.
    pub depth: usize,
    /// Whether a parenthesis was closed before it that wasn't open.
    pub overclosed: bool,
}

impl Nesting {
    /// Where the first byte of a field is: outside apostrophes and parentheses.
    pub fn outside() -> Nesting
        ensures { result ≡ outside }
    {
        Nesting {
            quoted: false,
            depth: 0,
            overclosed: false,
        }
    }

    /// Where the byte after this one is. A parenthesis that is closed too often leaves a depth of 0.
    pub fn past(self, byte: u8) -> Nesting
        requires { self.depth + 1 < 2 ^ 64 }
        ensures value { result ≡ past self byte }
        ensures depth { result.depth ≤ self.depth + 1 }
    {
        let Nesting {
            quoted,
            depth,
            overclosed,
        } = self;
        match byte {
            b'\'' => Nesting {
                quoted: !quoted,
                depth,
                overclosed,
            },
            b'(' if !quoted => Nesting {
                quoted,
                depth: depth + 1,
                overclosed,
            },
            b')' if !quoted => Nesting {
                quoted,
                depth: depth.saturating_sub(1),
                overclosed: overclosed || depth == 0,
            },
            _ => Nesting {
                quoted,
                depth,
                overclosed,
            },
        }
    }

    /// Whether each apostrophe and parenthesis before the byte is closed, and none too often.
    pub fn is_closed(self) -> bool
        ensures { result ≡ is_closed self }
    {
        !self.quoted && self.depth == 0 && !self.overclosed
    }
}

// Apostrophes, parentheses, commas and blanks are bytes up to a comma, so those above are skipped at once.

/// How many bytes of a text, whose first byte has this nesting, belong to the field: those up to the first blank
/// outside apostrophes, or all.
pub fn field_len(start: Nesting, text: &[u8]) -> usize
    requires { start.depth + length text.now < 2 ^ 64 }
    ensures value { result ≡ field_len start text.now }
    ensures within { result ≤ length text.now }
{
    let mut at = start;
    for (i, byte) in text.iter().enumerate() {
        if *byte > b')' {
            continue;
        }
        if *byte == b' ' && !at.quoted {
            return i;
        }
        at = at.past(*byte);
    }
    text.len()
}

/// Whether each apostrophe and parenthesis of a text is closed, and none too often.
pub fn is_balanced(text: &[u8]) -> bool
    ensures { result ≡ is_balanced outside text.now }
{
    let mut at = Nesting::outside();
    for byte in text {
        if *byte > b')' {
            continue;
        }
        at = at.past(*byte);
    }
    at.is_closed()
}

/// How long the first operand of a field is.
fn operand_len(text: &[u8]) -> usize
    ensures value { result ≡ operand_len outside text.now }
    ensures within { result ≤ length text.now }
{
    let mut at = Nesting::outside();
    let mut i = 0;
    'marks: while i < text.len() {
        let mark = end_of_run(text, i, b',');
        if mark == text.len() {
            return mark;
        }
        let byte = text[mark];
        if byte == b',' && !at.quoted && at.depth == 0 {
            return mark;
        }
        at = at.past(byte);
        i = mark + 1;
    }
    text.len()
}

/// The first operand of a text, up to a comma outside apostrophes and parentheses, and what follows that comma, or
/// nothing if there is none.
pub fn split(text: &[u8]) -> (&[u8], Option<&[u8]>)
    ensures operands { operands_from outside text.now ≡ result.0.now ∷ operands_behind (option_copied result.1) }
    ensures shorter { (rest : List ℕ) → option_copied result.1 ≡ Some rest → length rest < length text.now }
{
    let n = operand_len(text);
    if n < text.len() {
        (&text[..n], Some(&text[n + 1..]))
    } else {
        (text, None)
    }
}
