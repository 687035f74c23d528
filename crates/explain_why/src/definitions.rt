//! What became of the definition of a name in the lines before a statement.
ghost use Rattle.std.specs.Prelude.{◌≡◌, true, false, ℕ, List, [], ◌++◌, IfOk, is_some};
ghost use Rattle.vsm_model.specs.declared.limits.Settings.{Settings};
ghost use Rattle.script_steps.specs.Output.{Marked};
ghost use Rattle.script_steps.specs.Taken.{Brings, Took};
ghost use Rattle.explain_why.specs.Defined.{is_made, word_after, AreItsLines, IsDefinition, IsDefinitionIn};
ghost use Rattle.explain_why.specs.Defined.{IsNowTurned};

use bench_core::Bench;
use macro_reader::Name;
use script_steps::{NumberedResponse, Response, Session, TooLong, Watch};

/// What became of the definition of a name. Lines are the first of their statements.
#[derive(Clone, Copy)]
pub(crate) enum Definition {
    /// No accepted statement has defined it.
    Missing,
    /// The statement of this line has.
    Made { line: u32 },
    /// BACK in a line took it back. FORWARD by this many changes makes it again; 0 isn't known yet.
    Undone { line: u32, back: u32, forward: u32 },
    /// BACK took it back, and the change of a later line discarded it.
    Discarded { line: u32, back: u32, by: u32 },
}

impl Definition {
    /// What it is after the change of a line, which discards what is undone.
    fn discarded(self, by: u32) -> Definition
        ensures { (settings : Settings) (name : List ℕ) (answers : List Marked)
            → IsDefinition settings name answers self → IsDefinition settings name answers result }
    {
        match self {
            Definition::Undone { line, back, .. } => Definition::Discarded { line, back, by },
            Definition::Missing | Definition::Made { .. } | Definition::Discarded { .. } => self,
        }
    }

    /// What it is after the answer of a line, that of a BACK, by which the name isn't defined any longer.
    fn undone(self, at: u32) -> Definition
        ensures { (settings : Settings) (name : List ℕ) (answers : List Marked)
            → IsNowTurned settings name answers at false → is_made self ≡ true
            → AreItsLines settings name answers self → IsDefinition settings name answers result }
    {
        match self {
            Definition::Made { line } => Definition::Undone {
                line,
                back: at,
                forward: 0,
            },
            Definition::Missing | Definition::Undone { .. } | Definition::Discarded { .. } => self,
        }
    }

    /// What it is after FORWARD in a line, by which the name is defined again.
    fn redone(self, at: u32) -> Definition
        ensures { (settings : Settings) (name : List ℕ) (answers : List Marked)
            → IsNowTurned settings name answers at true
            → AreItsLines settings name answers self → IsDefinition settings name answers result }
    {
        match self {
            Definition::Undone { line, .. } => Definition::Made { line },
            Definition::Missing | Definition::Made { .. } | Definition::Discarded { .. } => {
                Definition::Made { line: at }
            }
        }
    }

    /// What it is after the answer of a line, by which the name is defined.
    fn made(self, at: u32, response: &Response) -> Definition
        ensures { (settings : Settings) (name : List ℕ) (answers : List Marked)
            → IsNowTurned settings name answers at true
            → AreItsLines settings name answers self → IsDefinition settings name answers result }
    {
        match response {
            Response::Kept(_) => self.redone(at),
            Response::Replied(_)
            | Response::Refused(_)
            | Response::TooFar(_)
            | Response::TooFarAhead(_)
            | Response::Shown
            | Response::Map
            | Response::Fault(_) => Definition::Made { line: at },
        }
    }

    /// What it is after the answer of a line, which leaves the name defined or not.
    fn left(self, at: u32, response: &Response) -> Definition
        ensures { (settings : Settings) (name : List ℕ) (answers : List Marked)
            → IsDefinition settings name answers self → IsDefinition settings name answers result }
    {
        match response {
            Response::Replied(_) => self.discarded(at),
            Response::Kept(_)
            | Response::Refused(_)
            | Response::TooFar(_)
            | Response::TooFarAhead(_)
            | Response::Shown
            | Response::Map
            | Response::Fault(_) => self,
        }
    }

    /// What it is after an answer, by whether the name was defined before it and is after it.
    fn after(self, told: &NumberedResponse, was_defined: bool, is_defined: bool) -> Definition
        ensures { (settings : Settings) (name : List ℕ) (answers more : List Marked)
            → Brings settings answers more told.now
            → is_some (word_after settings name answers) ≡ was_defined
            → is_some (word_after settings name (answers ++ more)) ≡ is_defined
            → IsDefinition settings name answers self → IsDefinition settings name (answers ++ more) result }
    {
        let Some((line, response)) = told else {
            return self;
        };
        match (was_defined, is_defined) {
            (false, true) => self.made(*line, response),
            (true, false) => self.undone(*line),
            (true, true) => self.left(*line, response),
            (false, false) => self.left(*line, response),
        }
    }

    /// The same, where FORWARD by this many changes makes it again.
    fn with_steps(self, steps: u32) -> Definition
        ensures { (settings : Settings) (name : List ℕ) (answers : List Marked)
            → IsDefinition settings name answers self → IsDefinition settings name answers result }
    {
        match self {
            Definition::Undone { line, back, .. } => Definition::Undone {
                line,
                back,
                forward: steps,
            },
            Definition::Missing | Definition::Made { .. } | Definition::Discarded { .. } => self,
        }
    }
}

/// Whether a name is defined after the lines that a session has taken.
fn is_defined(session: &Session, name: &Name) -> bool
    ensures { (settings : Settings) (given : List ℕ) (answers : List Marked) → Took settings given answers session.now
        → is_some (word_after settings name.now.bytes answers) ≡ result }
{
    session.bench().name(name).is_some()
}

/// How many changes FORWARD has to make again until a name is defined; 0 if that doesn't lead there.
fn steps_to(bench: &mut Bench, name: &Name) -> u32 {
    for steps in 1..65_537 {
        if bench.forward(1).is_err() {
            return 0;
        }
        if bench.name(name).is_some() {
            return steps;
        }
    }
    0
}

/// What became of the definition of a name, after all of these lines of a script, which a session takes. `TooLong` if
/// one of their bytes passes a bound, or the last has no line feed.
fn follow<P: Watch>(
    session: &mut Session,
    lines: &[u8],
    name: &Name,
    watch: &mut P,
) -> Result<Definition, TooLong>
    ensures { (settings : Settings) → Took settings [] [] session.old
        → IfOk result (IsDefinitionIn settings name.now.bytes lines.now) }
{
    let mut definition = Definition::Missing;
    let mut at = 0;
    while at < lines.len() {
        let was_defined = is_defined(session, name);
        let Some(step) = session.take_line(lines, at)? else {
            return Err(TooLong);
        };
        definition = definition.after(&step.told, was_defined, is_defined(session, name));
        at = step.next;
        watch.line(session.lines());
    }
    Ok(definition)
}

/// What became of the definition of a name in all of these lines of a script, which a new session takes. `TooLong` if
/// one of their bytes passes a bound, or the last has no line feed.
pub(crate) fn definition_of<P: Watch>(
    session: Session,
    lines: &[u8],
    name: &Name,
    watch: &mut P,
) -> Result<Definition, TooLong>
    ensures { (settings : Settings) → Took settings [] [] session
        → IfOk result (IsDefinitionIn settings name.now.bytes lines.now) }
{
    let mut session = session;
    let definition = follow(&mut session, lines, name, watch)?;
    let mut ending = session.end();
    let steps = steps_to(&mut ending.bench, name);
    Ok(definition.with_steps(steps))
}
