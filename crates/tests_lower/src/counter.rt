//! A counter whose steps can be taken back.

use step_history::Reversible;

/// A counter that wraps around; a change is a step that is added to it.
#[derive(Clone, Copy)]
pub(crate) struct Counter {
    pub(crate) count: u32,
}

impl Reversible for Counter {
    ghost use Rattle.std.specs.Prelude.{ℕ};
    ghost use Rattle.tests_lower.specs.declared.counter.Counter.{Counter};
    ghost use Rattle.tests_lower.specs.Counter.{counter_can, counter_discard, counter_fits, counter_laws};
    ghost use Rattle.tests_lower.specs.Counter.{counter_states, counter_swap, hold_nothing};

    type Change = u32;

    ghost Meaning = { ℕ };

    ghost shows = { λ (c : Counter). c.count };

    ghost fits = { counter_fits (λ (c : Counter). c.count) };

    ghost states = { counter_states (λ (c : Counter). c.count) };

    ghost apart = { hold_nothing (λ (c : Counter). c.count) };

    ghost whole = { hold_nothing (λ (c : Counter). c.count) };

    ghost can_swap = { counter_can (λ (c : Counter). c.count) };

    ghost swaps = { counter_swap (λ (c : Counter). c.count) };

    ghost discards = { counter_discard (λ (c : Counter). c.count) };

    fn swap(&mut self, change: &mut u32) {
        self.count = self.count.wrapping_add(*change);
        *change = 0u32.wrapping_sub(*change);
    }

    fn discard(&mut self, change: u32) {
        let _ = change;
    }

    ghost laws = { counter_laws (λ (c : Counter). c.count) };
}
