//! What each line of a script is to its reader.
ghost use Rattle.std.specs.Prelude.{◌≡◌, ℕ, List};
ghost use Rattle.macro_reader.specs.Columns.{Line};
ghost use Rattle.macro_reader.specs.Continuation.{Joined};
ghost use Rattle.macro_reader.specs.Roles.{IsStand, role};
ghost use Rattle.macro_reader.specs.Scripts.{Mode, awaiting, gathering, moved};
ghost use Rattle.explain_faults.specs.Roles.{brought_by, role_in};

use macro_reader::{FaultKind, ReaderState};

/// What a line is.
#[derive(Clone, Copy)]
pub enum Role {
    /// A comment or an empty line.
    Aside,
    /// The first line of a statement.
    First,
    /// A continuation line.
    Further,
    /// The line that breaks a rule of continuation.
    Breaking,
    /// A line that is dropped after such a line.
    Gone,
}

impl Role {
    /// Whether the line isn't a comment or an empty line.
    pub fn is_of_statement(self) -> bool {
        !matches!(self, Role::Aside)
    }
}

/// What a line brings.
#[derive(Clone, Copy, PartialEq, Eq)]
pub enum Brought {
    /// No answer: it's an aside, it's dropped, or its statement goes on.
    Nothing,
    /// An answer that is no fault.
    Answer,
    /// A fault of this kind.
    Fault(FaultKind),
}

/// What a line is to a reader that awaits a statement, by the reader's state after the line and what the line brings.
fn first_role(after: ReaderState, brought: Brought) -> Role
    ensures { (number : ℕ) (line : Line) → IsStand (moved number awaiting line).0 after
        → brought_by (moved number awaiting line).1 ≡ brought → role_in result ≡ role awaiting line }
{
    match brought {
        Brought::Nothing => match after {
            ReaderState::Awaiting => Role::Aside,
            ReaderState::Dropping => Role::First,
            ReaderState::Gathering => Role::First,
        },
        Brought::Answer => Role::First,
        Brought::Fault(_) => Role::First,
    }
}

/// What a line is to a reader whose statement is open, by what the line brings.
fn further_role(brought: Brought) -> Role
    ensures { (number n : ℕ) (card : List ℕ) (j : Joined) (count : ℕ) (line : Line)
        → brought_by (moved number (gathering n card j count) line).1 ≡ brought
        → role_in result ≡ role (gathering n card j count) line }
{
    match brought {
        Brought::Fault(kind) => match kind {
            FaultKind::Continuation => Role::Breaking,
            FaultKind::Column
            | FaultKind::Operation
            | FaultKind::Operand
            | FaultKind::Repeated
            | FaultKind::Missing
            | FaultKind::Value
            | FaultKind::LeftOut => Role::Further,
        },
        Brought::Answer => Role::Further,
        Brought::Nothing => Role::Further,
    }
}

/// What a line is, by the reader's state before and after it, and by what it brings.
pub fn role_of(before: ReaderState, after: ReaderState, brought: Brought) -> Role
    ensures { (number : ℕ) (mode : Mode) (line : Line) → IsStand mode before → IsStand (moved number mode line).0 after
        → brought_by (moved number mode line).1 ≡ brought → role_in result ≡ role mode line }
{
    match before {
        ReaderState::Awaiting => first_role(after, brought),
        ReaderState::Dropping => Role::Gone,
        ReaderState::Gathering => further_role(brought),
    }
}
