//! What the program says of a fault, and to whom.
ghost use Rattle.std.specs.Prelude.{◌≡◌, Bool, List, ℕ, is_ok};
ghost use Rattle.text_output.specs.Writing.{Writes};
ghost use Rattle.vsm_bench.specs.Messages.{WritesWhere, fault_text};

use script_steps::{NewFault, RunFault};
use std::io;
use std::io::Write;
use text_output::Gathered;

/// The receiver of what is wrong: a writer, or a substitute.
pub trait Messages: Write {
    /// That this text was said, all of it or less. What that leaves is up to each implementor.
    ghost said: { Self → Self → List ℕ → Bool → Type 0 };

    /// Says a text, or says why not all of it was written.
    fn say(&mut self, text: &str) -> io::Result<()>
        ensures { said self.old self.new text.now (is_ok result) };
}

/// Writes a text, or a prefix of it if a write fails.
pub(crate) fn write_text<W: Write>(writer: &mut W, text: &str) -> io::Result<()>
    ensures { Writes (W.contents writer.old) (W.contents writer.new) text.now result }
{
    let mut gathered = Gathered::new();
    gathered.put(writer, text.as_bytes());
    gathered.finish(writer)
}

/// The text is written to a writer, or a prefix of it if a write fails.
impl<W: Write> Messages for W {
    ghost said = { λ old new text whole. WritesWhere whole (W.contents old) (W.contents new) text };

    fn say(&mut self, text: &str) -> io::Result<()> {
        write_text(self, text)
    }
}

/// What is said of a fault.
pub(crate) fn fault_text(fault: RunFault) -> &'static str
    ensures { result.now ≡ fault_text fault }
{
    match fault {
        RunFault::Read => "vsm: read\n",
        RunFault::Write => "vsm: write\n",
        RunFault::TooLong => "vsm: too long\n",
        RunFault::New(NewFault::Setting) => "vsm: settings\n",
        RunFault::New(NewFault::NoMemory) => "vsm: memory\n",
    }
}
