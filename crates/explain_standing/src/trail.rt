//! Statements in effect or undone, each with its line and what was read after it.
ghost use Rattle.std.specs.Prelude.{◌≡◌, ◌≤◌, take, vec_len, OnOk};

use std::alloc::{AllocError, Global};

/// A statement that is in effect or undone: the number of its first line, and what was read after it.
#[derive(Drop)]
pub struct TrailEntry<V> {
    pub line: u32,
    pub seen: V,
}

/// The statements in effect, oldest first, and after them those that are undone, the next one first.
///
/// It keeps all of them, whatever a bench's history forgets: one that can no longer be undone is still in effect.
#[derive(Drop)]
pub struct Trail<V> {
    entries: Vec<TrailEntry<V>>,
    standing: usize,
    ghost within: { standing ≤ vec_len entries },
}

impl<V: Drop> Trail<V> {
    ghost use Rattle.explain_standing.specs.Trails.{marks_of, nothing_marked, with_mark, stepped};

    /// No statement is in effect yet, and none is undone. Takes no memory.
    pub fn new(alloc: Global) -> Trail<V>
        ensures { marks_of result ≡ nothing_marked }
    {
        Trail {
            entries: Vec::new(alloc),
            standing: 0,
        }
    }

    /// A statement was accepted, after which this was read: it's in effect, what was undone is gone. `AllocError` if
    /// memory runs out; what the trail has then means nothing.
    pub fn applied(&mut self, line: u32, seen: V) -> Result<(), AllocError>
        ensures { OnOk result (marks_of self.new ≡ with_mark (marks_of self.old) line seen) }
    {
        self.entries.truncate(self.standing);
        self.entries.push(TrailEntry { line, seen })?;
        self.standing += 1;
        Ok(())
    }

    /// A step was made, which changed how many changes can be undone from `before` to `after`: back if these are fewer,
    /// else forward.
    pub fn stepped(&mut self, before: u32, after: u32)
        ensures { marks_of self.new ≡ stepped (marks_of self.old) before after }
    {
        self.standing = if after <= before {
            self.standing.saturating_sub((before - after) as usize)
        } else {
            self.standing
                .saturating_add((after - before) as usize)
                .min(self.entries.len())
        };
    }

    /// The statements in effect, oldest first.
    pub fn standing(&self) -> &[TrailEntry<V>]
        ensures { result.now ≡ take (marks_of self.now).standing (marks_of self.now).entries }
    {
        &self.entries.as_slice()[..self.standing]
    }
}
