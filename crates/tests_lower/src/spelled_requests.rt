//! The request that each statement asks for, with all its operands spelled; and what can't be spelled.

use crate::checks::same;
use arrayvec::ArrayVec;
use macro_reader::{
    Boundary, Content, Family, Fault, Fed, Form, Header, Length, Location, Name, NewCellPool,
    Place, Reader, Request, Statement, Subpools, Value,
};
use std::process::Abort;

fn name(text: &str) -> Name {
    Name::from(text).unwrap_or_default()
}

fn named(text: &str) -> Value {
    Value::Named(name(text))
}

fn header(text: &str) -> Option<Header> {
    Some(Header::from(text).unwrap_or_default())
}

/// Feeds a script of one line, and compares the request.
fn asks_for(rt: &impl Abort, line: &[u8], want: Request) {
    let want: Result<Fed, Fault> = Ok(Fed::Ready(want, 1));
    let text = str::from_utf8(line).unwrap_or("");
    assert_eq!(rt; Reader::new().next(line), want, "{text}");
}

/// As `asks_for`, of a statement that changes the storage.
fn acts(rt: &impl Abort, line: &[u8], want: Statement) {
    asks_for(rt, line, Request::Act(want));
}

fn form(family: Family, conditional: bool) -> Form {
    Form {
        family,
        conditional,
    }
}

/// A pair of bounds, eight and register 6.
fn bounds() -> Length {
    Length::Variable {
        maximum: Value::Number(8),
        minimum: Value::Register(6),
    }
}

/// What the first line of `areas` asks for.
fn obtained_by_storage() -> Statement {
    Statement::Obtain {
        length: bounds(),
        subpool: named("P"),
        place: Some(Place::Register(5)),
        boundary: Boundary::Page,
        location: Location::Either,
        form: form(Family::S, true),
    }
}

/// What the second line of `areas` asks for.
fn obtained_by_getmain() -> Statement {
    Statement::Obtain {
        length: Length::Fixed(Value::Number(8)),
        subpool: Value::Number(3),
        place: Some(Place::Named(name("Q"))),
        boundary: Boundary::Doubleword,
        location: Location::Low,
        form: form(Family::E, false),
    }
}

/// The release of an area by FREEMAIN EC.
fn released_by_freemain() -> Statement {
    Statement::Release {
        length: Value::Register(5),
        address: named("P"),
        subpool: Value::Number(3),
        form: form(Family::E, true),
    }
}

/// The release of a whole subpool by FREEMAIN R.
fn whole_by_r(subpool: Value) -> Statement {
    Statement::Whole {
        subpool,
        form: form(Family::R, false),
    }
}

#[test]
fn areas(rt: HostRuntime) {
    let storage = b" STORAGE OBTAIN,LENGTH=(8,(6)),SP=P,ADDR=(5),BNDRY=PAGE,LOC=31,COND=YES";
    acts(&rt, storage, obtained_by_storage());
    let getmain = b" GETMAIN EU,LV=8,A=q,SP=3,BNDRY=DBLWD";
    acts(&rt, getmain, obtained_by_getmain());
    let freemain = b" FREEMAIN EC,LV=(5),A=P,SP=3";
    acts(&rt, freemain, released_by_freemain());
    acts(&rt, b" FREEMAIN R,SP=3", whole_by_r(Value::Number(3)));
}

/// What the first line of `cell_pools` asks for.
fn built() -> Statement {
    Statement::Build(NewCellPool {
        name: name("P"),
        header: header("a,B"),
        primary: Value::Number(2),
        secondary: Some(Value::Register(3)),
        size: Value::Number(8),
        subpool: named("Q"),
        location: Location::Low,
    })
}

#[test]
fn cell_pools(rt: HostRuntime) {
    let pool = name("P");
    let build = b" CPOOL BUILD,PCELLCT=2,SCELLCT=(3),CSIZE=8,CPID=p,SP=Q,LOC=24,HDR='a,B'";
    acts(&rt, build, built());
    let got = Statement::GetCell {
        pool,
        place: Some(Place::Named(name("Q"))),
        conditional: true,
    };
    acts(&rt, b" CPOOL GET,C,CPID=P,CELL=Q", got);
    let freed = Statement::FreeCell {
        pool,
        cell: Value::Number(0x6010),
    };
    acts(&rt, b" CPOOL FREE,CPID=P,CELL=X'6010'", freed);
    let deleted = Statement::DeletePool { pool };
    acts(&rt, b" CPOOL DELETE,CPID=P", deleted);
}

#[test]
fn tasks(rt: HostRuntime) {
    let attached = Statement::Attach {
        given: Subpools::Number(Value::Number(5)),
        shared: Subpools::Listed {
            address: Value::Register(6),
        },
        shares_zero: false,
    };
    acts(&rt, b" ATTACH EP=A,GSPV=5,SHSPL=(R6),SZERO=NO", attached);
    let detached = Statement::Detach {
        task: Value::Register(15),
    };
    acts(&rt, b" DETACH (15)", detached);
    acts(&rt, b" RUN t", Statement::Run { task: named("T") });
    acts(&rt, b" ENDTASK", Statement::EndTask);
}

/// What the first line of `bytes` asks for.
fn poked() -> Statement {
    let mut bytes = ArrayVec::new();
    bytes.push(0x0a);
    bytes.push(0xb1);
    Statement::Poke {
        address: named("AREA"),
        content: Content::Spelled(bytes),
    }
}

#[test]
fn bytes(rt: HostRuntime) {
    acts(&rt, b" POKE Area,x'0aB1'", poked());
    let peeked = Request::Peek {
        addr: Value::Register(5),
        len: 256,
    };
    asks_for(&rt, b" PEEK (5),256", peeked);
}

/// Whether a statement can spell the value.
fn spells_value(rt: &impl Abort, value: Value, valid: bool) {
    assert_eq!(rt; value.valid(), valid, "{value:?}");
}

/// Whether a statement can spell the place.
fn spells_place(rt: &impl Abort, place: Place, valid: bool) {
    assert_eq!(rt; place.valid(), valid, "{place:?}");
}

/// Whether a statement can spell the content.
fn spells_content(rt: &impl Abort, content: Content, valid: bool) {
    same!(rt; content.valid(), valid);
}

#[test]
fn values_that_can_be_spelled(rt: HostRuntime) {
    spells_value(&rt, Value::Number(4_294_967_295), true);
    spells_value(&rt, named("A_1"), true);
    spells_value(&rt, named("a"), false);
    spells_value(&rt, named("1A"), false);
    spells_value(&rt, Value::Register(15), true);
    spells_value(&rt, Value::Register(16), false);
    spells_content(&rt, Content::Word(Value::Register(15)), true);
    spells_content(&rt, Content::Word(Value::Register(16)), false);
    spells_content(&rt, Content::Spelled(ArrayVec::new()), false);
    spells_place(&rt, Place::Named(name("A_1")), true);
    spells_place(&rt, Place::Named(name("a")), false);
    spells_place(&rt, Place::Register(0), false);
    spells_place(&rt, Place::Register(12), true);
    spells_place(&rt, Place::Register(13), false);
}

/// A request of this family that stores the address in this register.
fn obtain_in(family: Family, register: u8) -> Statement {
    Statement::Obtain {
        length: Length::Fixed(Value::Number(0)),
        subpool: Value::Number(4_294_967_295),
        place: Some(Place::Register(register)),
        boundary: Boundary::Page,
        location: Location::Either,
        form: form(family, true),
    }
}

/// A name that isn't in upper case.
fn lower() -> Value {
    named("a")
}

fn attach(given: Subpools, shared: Subpools) -> Statement {
    Statement::Attach {
        given,
        shared,
        shares_zero: true,
    }
}

/// The statement CPOOL BUILD of this name and header.
fn build(pool: &str, text: &str) -> Statement {
    Statement::Build(NewCellPool {
        name: name(pool),
        header: header(text),
        primary: Value::Number(0),
        secondary: None,
        size: Value::Number(5),
        subpool: Value::Number(128),
        location: Location::Low,
    })
}

/// Whether a script can spell the statement.
fn spells(rt: &impl Abort, statement: Statement, valid: bool) {
    assert_eq!(rt; statement.valid(), valid, "{statement:?}");
}

#[test]
fn statements_that_can_be_spelled(rt: HostRuntime) {
    spells(&rt, obtain_in(Family::S, 12), true);
    spells(&rt, obtain_in(Family::S, 13), false);
    spells(&rt, obtain_in(Family::E, 1), false);
    spells(&rt, obtain_in(Family::R, 1), false);
    spells(&rt, build("P", "Own ~"), true);
    spells(&rt, build("p", "Own ~"), false);
    spells(&rt, build("P", ""), false);
    spells(&rt, build("P", "it's"), false);
    spells(&rt, build("P", "\t"), false);
    spells(&rt, Statement::DeletePool { pool: name("") }, false);
    let with_a_blank = Statement::DeletePool { pool: name("P Q") };
    spells(&rt, with_a_blank, false);
    spells(&rt, Statement::Run { task: lower() }, false);
    spells(&rt, Statement::Detach { task: lower() }, false);
    spells(&rt, Statement::EndTask, true);
}

#[test]
fn subpools_that_can_be_spelled(rt: HostRuntime) {
    let numbered = Subpools::Number(Value::Number(0));
    spells(&rt, attach(numbered, Subpools::Nothing), true);
    let named = Subpools::Number(lower());
    spells(&rt, attach(named, Subpools::Nothing), false);
    let listed = Subpools::Listed { address: lower() };
    spells(&rt, attach(Subpools::Nothing, listed), false);
}
