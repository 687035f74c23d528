//! The examples of comments, each as a test: `tests/readme-example` compares them.

use script_steps::{FaultKind, LINES, Response, Session, fault_word};
use std::process::Abort;
use std::test::Fail;
use vsm_bench::{
    Bench, Boundary, DEFAULT_SETTINGS, Family, Form, Length, Location, Reply, Statement, Value, run,
};

#[test]
fn bench_is_new(rt: HostRuntime) -> Result<(), Fail> {
    let bench = Bench::new(rt.alloc(), DEFAULT_SETTINGS)?;
    assert_eq!(rt; bench.kept(), 0);
    Ok(())
}

#[test]
fn statement_is_applied(rt: HostRuntime) -> Result<(), Fail> {
    let mut bench = Bench::new(rt.alloc(), DEFAULT_SETTINGS)?;
    let obtain = Statement::Obtain {
        length: Length::Fixed(Value::Number(12)),
        subpool: Value::Number(1),
        place: None,
        boundary: Boundary::Doubleword,
        location: Location::Low,
        form: Form {
            family: Family::S,
            conditional: false,
        },
    };
    let obtained = Reply::Obtained {
        address: 0x6000,
        length: 16,
    };
    assert!(rt; obtain.valid());
    assert!(rt; bench.apply(&obtain) == Ok(obtained));
    Ok(())
}

#[test]
fn bytes_are_read(rt: HostRuntime) -> Result<(), Fail> {
    let bench = Bench::new(rt.alloc(), DEFAULT_SETTINGS)?;
    let mut bytes = [0; 4];
    // No page is assigned yet.
    assert!(rt; bench.peek(Value::Number(0x6000), &mut bytes).is_err());
    Ok(())
}

#[test]
fn change_is_undone(rt: HostRuntime) -> Result<(), Fail> {
    let mut bench = Bench::new(rt.alloc(), DEFAULT_SETTINGS)?;
    let turn = Statement::Run {
        task: Value::Number(1),
    };
    assert!(rt; turn.valid());
    assert!(rt; bench.apply(&turn).is_ok());
    assert!(rt; bench.back(1).is_ok());
    assert_eq!(rt; (bench.kept(), bench.undone()), (0, 1));
    Ok(())
}

#[test]
fn change_is_made_again(rt: HostRuntime) -> Result<(), Fail> {
    let mut bench = Bench::new(rt.alloc(), DEFAULT_SETTINGS)?;
    let turn = Statement::Run {
        task: Value::Number(1),
    };
    assert!(rt; turn.valid());
    assert!(rt; bench.apply(&turn).is_ok());
    assert!(rt; bench.back(1).is_ok());
    assert!(rt; bench.forward(1).is_ok());
    assert_eq!(rt; (bench.kept(), bench.undone()), (1, 0));
    Ok(())
}

#[test]
fn map_is_written(rt: HostRuntime) -> Result<(), Fail> {
    let bench = Bench::new(rt.alloc(), DEFAULT_SETTINGS)?;
    let mut map = Vec::new(rt.alloc());
    assert!(rt; bench.write_map(&mut map).is_ok());
    assert!(rt; map.as_slice().starts_with(b" TASK 1 PARENT 0 CURRENT\n"));
    Ok(())
}

#[test]
fn storage_is_read(rt: HostRuntime) -> Result<(), Fail> {
    let bench = Bench::new(rt.alloc(), DEFAULT_SETTINGS)?;
    assert_eq!(rt; bench.storage().current(), 1);
    Ok(())
}

#[test]
fn register_is_read(rt: HostRuntime) -> Result<(), Fail> {
    let bench = Bench::new(rt.alloc(), DEFAULT_SETTINGS)?;
    assert_eq!(rt; bench.register(1, 3), 0);
    Ok(())
}

#[test]
fn value_is_looked_up(rt: HostRuntime) -> Result<(), Fail> {
    let bench = Bench::new(rt.alloc(), DEFAULT_SETTINGS)?;
    assert!(rt; bench.word(&Value::Number(8)) == Some(8));
    Ok(())
}

#[test]
fn cause_is_asked(rt: HostRuntime) -> Result<(), Fail> {
    let bench = Bench::new(rt.alloc(), DEFAULT_SETTINGS)?;
    let end = Statement::EndTask;
    assert!(rt; end.valid());
    // The first task can't end.
    assert!(rt; matches!(bench.cause_of(&end), Ok(Some(_))));
    Ok(())
}

#[test]
fn script_is_run(rt: HostRuntime) -> Result<(), Fail> {
    let mut script: &[u8] = b" STORAGE OBTAIN,LENGTH=8\n";
    let mut output = Vec::new(rt.alloc());
    assert!(rt; run(rt.alloc(), &mut script, &mut output, DEFAULT_SETTINGS).is_ok());
    assert!(rt;
        output
            .as_slice()
            .starts_with(b"0000001 RC=0 A=00006000 L=00000008\n")
    );
    Ok(())
}

#[test]
fn line_is_taken(rt: HostRuntime) -> Result<(), Fail> {
    let bench = Bench::new(rt.alloc(), DEFAULT_SETTINGS)?;
    let mut session = Session::new(bench);
    assert!(rt; session.take_bytes(b" MAP").is_ok());
    assert!(rt; session.lines() < LINES);
    assert!(rt; matches!(session.end_line(), Some((1, Response::Map))));
    Ok(())
}

#[test]
fn fault_has_a_word(rt: HostRuntime) -> Result<(), Fail> {
    assert_eq!(rt; fault_word(FaultKind::Operation), "OPERATION");
    Ok(())
}
