//! Words that go out around the answers: text that is put together in memory first.
ghost use Rattle.std.specs.Prelude.{◌≡◌, ◌≤◌, ◌+◌, ◌++◌, length};

use crate::letters::{is_plain, shown_at};
use arrayvec::ArrayVec;

/// The most bytes of words that stand together: a line with the longest path that a file is opened by.
const WORDS: usize = 4_608;

/// Words that are put together: 4,608 bytes at most. What has no room is left out.
#[derive(Drop)]
pub struct Words {
    text: ArrayVec<u8, WORDS>,
}

impl Words {
    /// No words.
    pub fn new() -> Words {
        Words {
            text: ArrayVec::new(),
        }
    }

    /// Takes all words out.
    pub fn clear(&mut self) {
        self.text.clear();
    }

    /// The words so far.
    pub fn as_slice(&self) -> &[u8] {
        self.text.as_slice()
    }

    /// Appends a text, or as much of it as has room.
    pub fn add(&mut self, more: &[u8])
        ensures { length self.old.text.items + length more.now ≤ 4608
            → self.new.text.items ≡ self.old.text.items ++ more.now }
    {
        let room = WORDS.saturating_sub(self.text.len());
        let count = more.len().min(room);
        let _ = self.text.try_extend_from_slice(&more[..count]);
    }

    /// Appends bytes of a script as a listing shows them.
    pub fn add_shown(&mut self, bytes: &[u8]) {
        if bytes.iter().all(|byte| is_plain(*byte)) {
            self.add(bytes);
            return;
        }
        for at in 0..bytes.len().min(WORDS) {
            self.add(&[shown_at(bytes, at)]);
        }
    }
}
