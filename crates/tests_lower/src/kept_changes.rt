//! Steps of a counter are kept, taken back and made again, and the oldest is forgotten.

ghost use Rattle.tests_lower.specs.declared.counter.Counter.{Counter};
ghost use Rattle.tests_lower.specs.Counter.{counter_fits};

use crate::checks::{holds, same};
use crate::counter::Counter;
use std::process::Abort;
use std::test::Fail;
use step_history::{History, Reversible, TooFar, TooFarAhead};

/// Adds the step, and keeps it.
fn step(rt: &impl Abort, counter: &mut Counter, history: &mut History<Counter>, by: u32)
    requires { counter_fits (λ (c : Counter). c.count) history.old.kept counter.old history.old.undone }
    ensures { counter_fits (λ (c : Counter). c.count) history.new.kept counter.new history.new.undone }
{
    // Reading the counter shows the proof that it has 32 bits.
    let _count = counter.count;
    holds!(rt; history.reserve_place().is_ok());
    let mut change = by;
    counter.swap(&mut change);
    history.push_reserved(counter, change);
}

/// This many steps back give this answer, and lead to this count.
fn back(
    rt: &impl Abort,
    counter: &mut Counter,
    history: &mut History<Counter>,
    n: u32,
    want: Result<(), TooFar>,
    count: u32,
)
    requires { counter_fits (λ (c : Counter). c.count) history.old.kept counter.old history.old.undone }
    ensures { counter_fits (λ (c : Counter). c.count) history.new.kept counter.new history.new.undone }
{
    let answer = history.back(counter, n);
    same!(rt; answer, want);
    same!(rt; counter.count, count);
}

/// This many steps forward give this answer, and lead to this count.
fn forward(
    rt: &impl Abort,
    counter: &mut Counter,
    history: &mut History<Counter>,
    n: u32,
    want: Result<(), TooFarAhead>,
    count: u32,
)
    requires { counter_fits (λ (c : Counter). c.count) history.old.kept counter.old history.old.undone }
    ensures { counter_fits (λ (c : Counter). c.count) history.new.kept counter.new history.new.undone }
{
    let answer = history.forward(counter, n);
    same!(rt; answer, want);
    same!(rt; counter.count, count);
}

/// A counter goes back and forward over three steps that are kept.
fn go_back_and_forward(rt: &impl Abort, counter: &mut Counter, history: &mut History<Counter>)
    requires { counter_fits (λ (c : Counter). c.count) history.old.kept counter.old history.old.undone }
    ensures { counter_fits (λ (c : Counter). c.count) history.new.kept counter.new history.new.undone }
{
    step(rt, counter, history, 1);
    step(rt, counter, history, 10);
    step(rt, counter, history, 100);
    same!(rt; counter.count, 116);
    back(rt, counter, history, 9, Err(TooFar { kept: 3 }), 116);
    back(rt, counter, history, 2, Ok(()), 6);
    same!(rt; (history.kept(), history.undone()), (1, 2));
    forward(rt, counter, history, 3, Err(TooFarAhead { undone: 2 }), 6);
    forward(rt, counter, history, 1, Ok(()), 16);
}

/// Another step is kept in place of what is undone.
fn step_behind_undone(rt: &impl Abort, counter: &mut Counter, history: &mut History<Counter>)
    requires { counter_fits (λ (c : Counter). c.count) history.old.kept counter.old history.old.undone }
{
    step(rt, counter, history, 1000);
    same!(rt; counter.count, 1016);
    forward(
        rt,
        counter,
        history,
        1,
        Err(TooFarAhead { undone: 0 }),
        1016,
    );
    back(rt, counter, history, 3, Ok(()), 5);
}

#[test]
fn a_counter_goes_back_and_forward(rt: HostRuntime) -> Result<(), Fail> {
    let mut history = History::new(rt.alloc(), 3)?;
    let mut counter = Counter { count: 5 };
    go_back_and_forward(&rt, &mut counter, &mut history);
    step_behind_undone(&rt, &mut counter, &mut history);
    drop(history);
    Ok(())
}

/// A history of two steps forgets the first of three.
fn forget_the_oldest(rt: &impl Abort, counter: &mut Counter, history: &mut History<Counter>)
    requires { counter_fits (λ (c : Counter). c.count) history.old.kept counter.old history.old.undone }
{
    step(rt, counter, history, 1);
    step(rt, counter, history, 10);
    step(rt, counter, history, 100);
    back(rt, counter, history, 3, Err(TooFar { kept: 2 }), 111);
    back(rt, counter, history, 2, Ok(()), 1);
    step(rt, counter, history, 1000);
    back(rt, counter, history, 1, Ok(()), 1);
    back(rt, counter, history, 1, Err(TooFar { kept: 0 }), 1);
    forward(rt, counter, history, 1, Ok(()), 1001);
    forward(
        rt,
        counter,
        history,
        1,
        Err(TooFarAhead { undone: 0 }),
        1001,
    );
}

#[test]
fn a_full_history_forgets_its_oldest_change(rt: HostRuntime) -> Result<(), Fail> {
    let mut history = History::new(rt.alloc(), 2)?;
    forget_the_oldest(&rt, &mut Counter { count: 0 }, &mut history);
    drop(history);
    Ok(())
}
