//! The lines of a script.
ghost use Rattle.std.specs.Prelude.{◌≡◌, ◌≤◌, ◌⊎◌, ◌++◌, ◌∷◌, [], length};
ghost use Rattle.std.specs.Str.Lines.{strip_carriage_return};
ghost use Rattle.explain_faults.specs.Places.{line_in};

use arrayvec::ArrayVec;

/// A line of a script: its number, and where its bytes are, without its line feed.
#[derive(Clone, Copy, Default)]
pub struct SourceLine {
    /// Its number in the script, from 1.
    pub number: u32,
    /// The place of its first byte in the script.
    pub start: usize,
    /// The place after its last byte.
    pub end: usize,
}

/// A line without a carriage return at its end.
fn strip(line: &[u8]) -> &[u8]
    ensures { result.now ≡ strip_carriage_return line.now }
{
    let n = line.len();
    if n > 0 && line[n - 1] == b'\r' {
        &line[..n - 1]
    } else {
        line
    }
}

impl SourceLine {
    /// Its bytes, without a carriage return before its line feed; none if the script is another.
    pub fn bytes<'a>(&self, script: &'a [u8]) -> &'a [u8]
        ensures { result.now ≡ line_in script.now self.now }
    {
        let end = self.end.min(script.len());
        let line = &script[self.start.min(end)..end];
        if self.end < script.len() {
            strip(line)
        } else {
            line
        }
    }
}

/// The lines of a statement that isn't answered yet, ten at most.
#[derive(Drop)]
pub struct OpenLines {
    lines: ArrayVec<SourceLine, 10>,
}

impl OpenLines {
    /// No lines.
    pub fn new() -> OpenLines
        ensures { result.lines.items ≡ [] }
    {
        OpenLines {
            lines: ArrayVec::new(),
        }
    }

    /// Takes all lines out.
    pub fn clear(&mut self)
        ensures { self.new.lines.items ≡ [] }
    {
        self.lines.clear();
    }

    /// Adds a line after the others; an eleventh is left out.
    pub fn push(&mut self, line: SourceLine)
        ensures whole { length self.old.lines.items ≤ 9
            → self.new.lines.items ≡ self.old.lines.items ++ line ∷ [] }
        ensures some { (self.new.lines.items ≡ self.old.lines.items ++ line ∷ [])
            ⊎ (self.new.lines.items ≡ self.old.lines.items) }
    {
        let _ = self.lines.try_push(line);
    }

    /// The lines so far, in their order.
    pub fn as_slice(&self) -> &[SourceLine]
        ensures few { length result.now ≤ 10 }
        ensures value { result.now ≡ self.now.lines.items }
    {
        self.lines.as_slice()
    }
}
