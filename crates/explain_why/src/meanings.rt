//! What an answer means, by its text.
use crate::messages::{Message, answers, faults, refusals, system_codes, user_codes};
use crate::words::{before_reason, is_abend, is_code, is_number_of, names, without_front};
use std::io::Write;
use text_output::Gathered;

/// Why what an answer means isn't written.
#[derive(Clone, Copy)]
pub enum MeaningFault {
    /// There is no answer of this text.
    NoAnswer,
    /// The writer takes nothing further.
    Write,
}

/// Whether the text is one of those of the answer.
fn is_of(text: &[u8], message: &Message) -> bool {
    for printed in message.texts {
        let printed = printed.as_bytes();
        if names(text, printed) || is_number_of(text, printed) || is_abend(text, printed) {
            return true;
        }
    }
    false
}

/// Puts the texts of an answer, with commas between.
fn put_texts<W: Write>(gathered: &mut Gathered, writer: &mut W, texts: &[&str]) {
    for (place, text) in texts.iter().enumerate() {
        if place > 0 {
            gathered.put(writer, b",");
        }
        gathered.put(writer, text.as_bytes());
    }
}

/// Puts an answer's texts, what it means, and what it leaves or what to do, in a line each.
fn put_message<W: Write>(gathered: &mut Gathered, writer: &mut W, message: &Message) {
    put_texts(gathered, writer, message.texts);
    gathered.put(writer, b"\n  ");
    gathered.put(writer, message.meaning.as_bytes());
    gathered.put(writer, b"\n  ");
    gathered.put(writer, message.advice.as_bytes());
    gathered.put(writer, b"\n");
}

/// Puts each answer of a table that is of this text, and says whether there is one.
fn put_table<W: Write>(
    gathered: &mut Gathered,
    writer: &mut W,
    table: &[Message],
    text: &[u8],
) -> bool {
    let mut found = false;
    for message in table {
        if is_of(text, message) {
            put_message(gathered, writer, message);
            found = true;
        }
    }
    found
}

/// Puts each answer of this text, and says whether there is one.
fn put_messages<W: Write>(gathered: &mut Gathered, writer: &mut W, text: &[u8]) -> bool {
    let mut found = false;
    for table in [
        answers(),
        system_codes(),
        user_codes(),
        refusals(),
        faults(),
    ] {
        if put_table(gathered, writer, table, text) {
            found = true;
        }
    }
    found
}

/// Puts the answer of this text, or of the completion code before a reason code, and says whether there is one.
fn put_meaning<W: Write>(gathered: &mut Gathered, writer: &mut W, text: &[u8]) -> bool {
    let Some(code) = before_reason(text) else {
        return put_messages(gathered, writer, text);
    };
    if !is_code(code) || !put_messages(gathered, writer, code) {
        return false;
    }
    gathered.put(writer, b"  The bench has no reason codes.\n");
    true
}

/// Writes what an answer means, and what it leaves or what to do: a completion code (`S878`, `U3008`, `878`), perhaps
/// with a reason code (`S878-10`), `RC=4` or `RC 4`, or the words of a fault or a refusal, in either case; also a whole
/// line of output, with its number. Of several answers that begin with these words it writes each; with a value, as
/// `RC=0 A=00006000`, they are the whole answer.
///
/// `NoAnswer` if none does, and then nothing is written; `Write` if the writer takes nothing further.
pub fn code<W: Write>(text: &[u8], out: &mut W) -> Result<(), MeaningFault> {
    let mut gathered = Gathered::new();
    if !put_meaning(&mut gathered, out, without_front(text)) {
        return Err(MeaningFault::NoAnswer);
    }
    match gathered.finish(out) {
        Ok(()) => Ok(()),
        Err(_) => Err(MeaningFault::Write),
    }
}
