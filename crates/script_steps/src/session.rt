//! The state of a session.
ghost use Rattle.std.specs.Prelude.{◌≡◌, ◌==◌, ◌≤◌};
ghost use Rattle.macro_reader.specs.Roles.{IsStand};

use arrayvec::ArrayVec;
use bench_core::Bench;
use macro_reader::{Reader, ReaderState, Request};

/// The most lines of a script.
pub const LINES: u32 = 1_048_576;

/// The most bytes of a line, without its line feed.
pub(crate) const LINE_BYTES: u32 = 65_536;

/// A byte of a script passes one of its bounds.
#[derive(Clone, Copy)]
pub struct TooLong;

/// What is kept of a script between two pieces of it: its bench, its reader, and what has been read of the line that
/// has not ended.
#[derive(Drop)]
pub struct Session {
    pub(crate) reader: Reader,
    pub(crate) bench: Bench,
    /// The lines that have ended.
    pub(crate) lines: u32,
    /// The bytes of the line that has not.
    pub(crate) length: u32,
    /// The first 80 of them.
    pub(crate) kept: ArrayVec<u8, 80>,
    pub(crate) statements: u32,
    pub(crate) refused: u32,
    /// The bytes of the last reading that showed its bytes.
    pub(crate) shown: ArrayVec<u8, 256>,
    // The room for what a line asks for.
    pub(crate) request: Request,
    ghost short: { length ≤ 65536 },
    ghost few: { statements ≤ lines },
    ghost fewer: { refused ≤ statements },
    ghost bounded: { lines ≤ 1048576 },
}

impl Session {
    /// The bench, after the lines that have ended.
    pub fn bench(&self) -> &Bench
        ensures { result.now ≡ self.now.bench }
    {
        &self.bench
    }

    /// The bytes of the last reading that showed its bytes: those of a response `Shown`, until the next line is taken.
    pub fn shown(&self) -> &[u8]
        ensures { result.now ≡ self.now.shown.items }
    {
        self.shown.as_slice()
    }

    /// The room that these bytes are in.
    pub fn shown_room(&self) -> &ArrayVec<u8, 256>
        ensures { result.now ≡ self.now.shown }
    {
        &self.shown
    }

    /// How many lines have ended: at most 1,048,576.
    pub fn lines(&self) -> u32
        ensures { result ≡ self.now.lines }
    {
        self.lines
    }

    /// Whether no byte of the line that has not ended was taken yet.
    pub fn is_between(&self) -> bool
        ensures { result ≡ (self.now.length == 0) }
    {
        self.length == 0
    }

    /// The state of the reader: what the next line is to it, by whether that is skipped, or breaks a rule.
    pub fn stand(&self) -> ReaderState
        ensures { IsStand self.now.reader.mode result }
    {
        self.reader.stand()
    }
}
