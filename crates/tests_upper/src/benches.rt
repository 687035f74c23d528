//! Calls of a bench by a Rust caller.

use crate::checks::{holds, same};
use std::process::Abort;
use std::test::Fail;
use vsm_bench::{
    Bench, Boundary, Code, DEFAULT_SETTINGS, Family, Form, Length, Location, Refusal, Reply,
    Statement, Value,
};

/// STORAGE OBTAIN of this many bytes from subpool 1.
fn obtain(length: u32) -> Statement {
    Statement::Obtain {
        length: Length::Fixed(Value::Number(length)),
        subpool: Value::Number(1),
        place: None,
        boundary: Boundary::Doubleword,
        location: Location::Low,
        form: Form {
            family: Family::S,
            conditional: false,
        },
    }
}

/// Applies a statement that is valid.
fn apply(rt: &impl Abort, bench: &mut Bench, statement: &Statement) -> Result<Reply, Refusal> {
    assert!(rt; statement.valid());
    bench.apply(statement)
}

/// How many statements are kept and how many undone.
fn steps(bench: &Bench) -> (u32, u32) {
    (bench.kept(), bench.undone())
}

/// An area is obtained, and the second statement obtains nothing.
fn obtain_once(rt: &impl Abort, bench: &mut Bench) {
    let granted = Reply::Obtained {
        address: 0x6000,
        length: 16,
    };
    holds!(rt; apply(rt, bench, &obtain(12)) == Ok(granted));
    holds!(rt; apply(rt, bench, &obtain(0)) == Err(Refusal::Abend(Code::User(3001))));
    same!(rt; steps(bench), (1, 0));
    let mut bytes = [1u8; 2];
    holds!(rt; bench.peek(Value::Register(1), &mut bytes).is_ok());
    same!(rt; bytes, [0; 2]);
}

/// The statement is undone and made again.
fn go_back_and_forward(rt: &impl Abort, bench: &mut Bench) {
    let mut bytes = [1u8; 2];
    holds!(rt; bench.back(2).is_err());
    holds!(rt; bench.back(1).is_ok());
    same!(rt; steps(bench), (0, 1));
    holds!(rt; bench.peek(Value::Register(1), &mut bytes).is_err());
    holds!(rt; bench.forward(2).is_err());
    holds!(rt; bench.forward(1).is_ok());
    same!(rt; steps(bench), (1, 0));
    holds!(rt; bench.peek(Value::Number(0x6000), &mut bytes).is_ok());
}

#[test]
fn a_statement_is_applied_undone_and_made_again(rt: HostRuntime) -> Result<(), Fail> {
    let mut bench = Bench::new(rt.alloc(), DEFAULT_SETTINGS)?;
    obtain_once(&rt, &mut bench);
    go_back_and_forward(&rt, &mut bench);
    Ok(())
}
