//! Writing, so that what went out is known after a fault.
ghost use Rattle.std.specs.Prelude.{◌≡◌, ◌+◌, ◌<◌, ◌≤◌, true, List, ℕ, Option, length, is_some, OnOk, OnErr};
ghost use Rattle.std.specs.IoError.{error_kind};
ghost use Rattle.text_output.specs.Writing.{Writes, Holds, Puts, IsEmpty};

use arrayvec::ArrayVec;
use std::io;
use std::io::{ErrorKind, Write};

/// The writer stopped taking bytes.
#[derive(Clone, Copy)]
pub struct WriteFault {
    /// What the writer reported; of the kind `WriteZero` if it took nothing and reported nothing.
    pub error: io::Error,
}

/// Output that is gathered, 4,096 bytes at most, and handed to a writer when there is no room for more or on request.
/// Once a write has failed, nothing more goes out.
#[derive(Drop)]
pub struct Gathered {
    text: ArrayVec<u8, 4096>,
    // The write that failed.
    fault: Option<WriteFault>,
}

/// The fault of a writer that took nothing.
fn nothing_taken() -> WriteFault
    ensures { error_kind result.error ≡ ErrorKind.WriteZero }
{
    WriteFault {
        error: io::Error::from(ErrorKind::WriteZero),
    }
}

/// Writes the whole text; or a prefix of it, if a write fails or takes nothing. An empty text never fails.
fn write_out<W: Write>(writer: &mut W, text: &[u8]) -> Result<(), WriteFault>
    ensures writes { Writes (W.contents writer.old) (W.contents writer.new) text.now result }
    ensures some { OnErr result (0 < length text.now) }
{
    let mut rest = text;
    while !rest.is_empty() {
        match writer.write(rest) {
            Ok(0) => return Err(nothing_taken()),
            Ok(n) => rest = &rest[n..],
            Err(error) => return Err(WriteFault { error }),
        }
    }
    Ok(())
}

impl Gathered {
    /// No text is gathered.
    pub fn new() -> Gathered
        ensures { IsEmpty result }
    {
        Gathered {
            text: ArrayVec::new(),
            fault: None,
        }
    }

    /// Hands out what is gathered; returns the fault of the write that failed, this or an earlier one.
    pub fn hand_out<W: Write>(&mut self, writer: &mut W) -> Result<(), WriteFault>
        ensures writes { (at_first : Option (List ℕ)) (text : List ℕ)
            → Holds at_first (W.contents writer.old) self.old text
            → Writes at_first (W.contents writer.new) text result }
        ensures empty { OnOk result (IsEmpty self.new) }
        ensures failed { OnErr result (is_some self.new.fault ≡ true) }
    {
        if let Some(fault) = self.fault {
            return Err(fault);
        }
        let outcome = write_out(writer, self.text.as_slice());
        self.text.clear();
        self.fault = outcome.err();
        outcome
    }

    /// Hands out what is gathered, at the end of a text; returns the error of a failed write, this or an earlier one.
    pub fn finish<W: Write>(self, writer: &mut W) -> Result<(), io::Error>
        ensures { (at_first : Option (List ℕ)) (text : List ℕ) → Holds at_first (W.contents writer.old) self text
            → Writes at_first (W.contents writer.new) text result }
    {
        let mut gathered = self;
        match gathered.hand_out(writer) {
            Ok(()) => Ok(()),
            Err(fault) => Err(fault.error),
        }
    }

    /// Puts more text after what was put before. If there is no room for it, what was gathered is handed out, and then
    /// the text: only then can a write fail.
    pub fn put<W: Write>(&mut self, writer: &mut W, more: &[u8])
        ensures puts { Puts (W.contents writer.old) (W.contents writer.new) self.old self.new more.now }
        ensures room { length self.old.text.items + length more.now ≤ 4096 → self.new.fault ≡ self.old.fault }
    {
        if let Ok(()) = self.text.try_extend_from_slice(more) {
            return;
        }
        self.put_at_once(writer, more);
    }

    /// Hands out what was gathered, and then the text. It's a call of its own, so that no other text pays for the room
    /// of a fault.
    #[inline(never)]
    fn put_at_once<W: Write>(&mut self, writer: &mut W, more: &[u8])
        ensures { Puts (W.contents writer.old) (W.contents writer.new) self.old self.new more.now }
    {
        if let Ok(()) = self.hand_out(writer) {
            self.fault = write_out(writer, more).err();
        }
    }
}
