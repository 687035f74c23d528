//! The words of an answer's text, compared with those of a text that is asked for.

/// A word of a text, and what follows it.
#[derive(Clone, Copy)]
struct Word<'a> {
    text: &'a [u8],
    /// Whether it has a value, which isn't a word of its own.
    is_valued: bool,
    behind: &'a [u8],
}

/// How many bytes precede the first blank or equals sign.
fn word_end(text: &[u8]) -> usize {
    for (place, byte) in text.iter().enumerate() {
        if *byte == b' ' || *byte == b'=' {
            return place;
        }
    }
    text.len()
}

/// What follows the byte at this place; nothing if there is no such byte.
fn behind(text: &[u8], place: usize) -> &[u8] {
    if place < text.len() {
        &text[place + 1..]
    } else {
        b""
    }
}

/// The first word of a text. A return code is the next word; any other value is left out.
fn first_word(text: &[u8]) -> Word<'_> {
    let end = word_end(text).min(text.len());
    let word = &text[..end];
    let after = behind(text, end);
    let is_valued = end < text.len() && text[end] == b'=' && !is_same(word, b"RC");
    Word {
        text: word,
        is_valued,
        behind: if is_valued {
            behind(after, word_end(after))
        } else {
            after
        },
    }
}

/// Whether two words are the same, in either case.
fn is_same(word: &[u8], other: &[u8]) -> bool {
    if word.len() != other.len() {
        return false;
    }
    for (a, b) in word.iter().zip(other.iter()) {
        if a.to_ascii_uppercase() != b.to_ascii_uppercase() {
            return false;
        }
    }
    true
}

/// Whether a text is an answer that is printed with these words, or its first words. A value, as that of `A=00006000`,
/// may be any other, or be left out; a text that has one is the whole answer.
pub(crate) fn names(text: &[u8], printed: &[u8]) -> bool {
    let (mut rest, mut wanted) = (text, printed);
    let mut has_value = false;
    for _ in 0..8 {
        let (word, other) = (first_word(rest), first_word(wanted));
        if !is_same(word.text, other.text) {
            return false;
        }
        has_value = has_value || word.is_valued;
        rest = word.behind;
        wanted = other.behind;
        if rest.is_empty() {
            return !has_value || wanted.is_empty();
        }
    }
    false
}

/// Whether this is printed after ABEND.
fn is_printed_code(printed: &[u8]) -> bool {
    printed.len() > 1 && (printed[0] == b'S' || printed[0] == b'U') && !printed.contains(&b' ')
}

/// Whether a text is a completion code without its first letter: `878` of `S878`, `3008` of `U3008`.
pub(crate) fn is_number_of(text: &[u8], printed: &[u8]) -> bool {
    is_printed_code(printed) && is_same(text, behind(printed, 0))
}

/// Whether a text is the word before a completion code, and this is one.
pub(crate) fn is_abend(text: &[u8], printed: &[u8]) -> bool {
    is_printed_code(printed) && is_same(text, b"ABEND")
}

/// Whether a text may be a completion code: it's one word, and has a digit.
pub(crate) fn is_code(text: &[u8]) -> bool {
    word_end(text) == text.len() && text.iter().any(|byte| byte.is_ascii_digit())
}

/// What precedes the reason code of a text, which is a hyphen and hexadecimal digits; `None` if it has none.
pub(crate) fn before_reason(text: &[u8]) -> Option<&[u8]> {
    for (place, byte) in text.iter().enumerate() {
        if *byte == b'-' {
            let digits = behind(text, place);
            let has_reason = !digits.is_empty() && digits.iter().all(|it| it.is_ascii_hexdigit());
            return if has_reason {
                Some(&text[..place])
            } else {
                None
            };
        }
    }
    None
}

/// A text from its first byte on that isn't a blank.
fn without_blanks(text: &[u8]) -> &[u8] {
    for (place, byte) in text.iter().enumerate() {
        if *byte != b' ' {
            return &text[place..];
        }
    }
    b""
}

/// Whether a word is the number of an answer's line, of seven digits.
fn is_line_number(word: &[u8]) -> bool {
    word.len() == 7 && word.iter().all(|byte| byte.is_ascii_digit())
}

/// An answer's text without the number of its line before it, and without the word before a completion code.
pub(crate) fn without_front(text: &[u8]) -> &[u8] {
    let word = first_word(text);
    if is_line_number(word.text) && !word.behind.is_empty() {
        without_abend(without_blanks(word.behind))
    } else {
        without_abend(text)
    }
}

/// A text without the word before a completion code.
fn without_abend(text: &[u8]) -> &[u8] {
    let word = first_word(text);
    if is_same(word.text, b"ABEND") && !word.behind.is_empty() {
        word.behind
    } else {
        text
    }
}
