//! Names are defined, get other words, and are undone and forgotten.

ghost use Rattle.std.specs.Prelude.{Some};
ghost use Rattle.vsm_machine.specs.NameSteps.{FitsTable};

use crate::checks::{holds, same};
use std::process::Abort;
use vsm_machine::{Name, NameChange, NameTable};

fn name(text: &str) -> Name {
    Name::from(text).unwrap_or_default()
}

/// Takes the step, and leaves its inverse, which can be taken next.
fn turn(table: &mut NameTable, change: &mut NameChange)
    requires { FitsTable table.old (Some change.old) }
    ensures { FitsTable table.new (Some change.new) }
{
    table.swap(change);
}

/// Gives the name its word, and returns the change that undoes this. Other undone names are forgotten.
fn put(rt: &impl Abort, table: &mut NameTable, name: Name, word: u32) -> NameChange
    ensures { FitsTable table.new (Some result) }
{
    match table.reserve(&name) {
        Ok(()) => {
            table.forget_others(&name);
            let mut change = table.change_to(&name, word);
            turn(table, &mut change);
            change
        }
        Err(_) => panic!(rt; "no memory for a name"),
    }
}

/// The name is defined, undone and defined again.
fn define_and_undo(rt: &impl Abort, table: &mut NameTable, area: Name) {
    same!(rt; table.word(&area), None);
    let mut change = put(rt, table, area, 0x6000);
    same!(rt; table.word(&area), Some(0x6000));
    turn(table, &mut change);
    same!(rt; table.word(&area), None);
    turn(table, &mut change);
    same!(rt; table.word(&area), Some(0x6000));
}

/// The name gets another word, which is undone.
fn reword_and_undo(rt: &impl Abort, table: &mut NameTable, area: Name) {
    let mut change = put(rt, table, area, 0x7000);
    same!(rt; table.word(&area), Some(0x7000));
    turn(table, &mut change);
    same!(rt; table.word(&area), Some(0x6000));
    let back = NameChange::Reword {
        place: 0,
        word: 0x7000,
    };
    same!(rt; change, back);
}

#[test]
fn names_are_defined_and_undone(rt: HostRuntime) {
    let mut table = NameTable::new(rt.alloc());
    let area = name("AREA");
    define_and_undo(&rt, &mut table, area);
    reword_and_undo(&rt, &mut table, area);
    drop(table);
}

/// The second name is defined and undone, and leaves its row to be defined.
fn undo_second(rt: &impl Abort, table: &mut NameTable) {
    put(rt, table, name("AREA"), 0x6000);
    let mut change = put(rt, table, name("BUFFER"), 0x8000);
    same!(rt; change, NameChange::Undefine);
    turn(table, &mut change);
    let again = NameChange::Define {
        place: 1,
        word: 0x8000,
    };
    same!(rt; change, again);
}

/// An undone name stays if the other undone ones are forgotten.
fn keep_one_undone(rt: &impl Abort, table: &mut NameTable) {
    let (area, buffer) = (name("AREA"), name("BUFFER"));
    undo_second(rt, table);
    holds!(rt; table.reserve(&name("THIRD")).is_ok());
    put(rt, table, buffer, 0x9000);
    same!(rt; table.word(&area), Some(0x6000));
    same!(rt; table.word(&buffer), Some(0x9000));
}

#[test]
fn an_undone_name_is_kept(rt: HostRuntime) {
    let mut table = NameTable::new(rt.alloc());
    keep_one_undone(&rt, &mut table);
    drop(table);
}

/// An undone name is forgotten, and can still be defined.
fn forget_undone(rt: &impl Abort, table: &mut NameTable) {
    let (area, third) = (name("AREA"), name("THIRD"));
    put(rt, table, area, 0x6000);
    holds!(rt; table.reserve(&third).is_ok());
    same!(rt; table.word(&third), None);
    table.forget_undone();
    put(rt, table, third, 0x9000);
    same!(rt; table.word(&area), Some(0x6000));
    same!(rt; table.word(&third), Some(0x9000));
    holds!(rt; !table.is_full());
}

#[test]
fn undone_names_are_forgotten(rt: HostRuntime) {
    let mut table = NameTable::new(rt.alloc());
    forget_undone(&rt, &mut table);
    drop(table);
}
