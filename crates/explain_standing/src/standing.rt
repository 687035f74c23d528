//! A script is followed on a bench: which of its statements are in effect at its end, and which PEEKs show bytes of a
//! state that isn't undone later.
ghost use Rattle.std.specs.Prelude.{◌≡◌, ◌↔◌, ◌≤◌, [], drop, length, IsTrue, OnOk};
ghost use Rattle.macro_statements.specs.Requests.{act_in, asked_in};
ghost use Rattle.script_steps.specs.Script.{NoFeed};
ghost use Rattle.explain_standing.specs.Notes.{with_told};
ghost use Rattle.explain_standing.specs.Trails.{marks_of, nothing_marked, stepped, with_mark};
ghost use Rattle.explain_standing.specs.Standings.{Deeper, IsEndFollowed, IsFollowed, IsIdle, IsLineFollowed};
ghost use Rattle.explain_standing.specs.Standings.{act_asked, fallen, marks_in, readings_in, readings_noted};
ghost use Rattle.explain_standing.specs.Standings.{with_reading};

use crate::faults::FollowFault;
use crate::trail::Trail;
use macro_reader::{Request, Statement, Value};
use script_steps::{Bench, Response, Session, Watch};
use std::alloc::{AllocError, Global};
use vsm_model::Settings;

/// A PEEK that shows bytes: how many statements are in effect, its line, its address and how many bytes it shows.
#[derive(Clone, Copy)]
pub struct Reading {
    pub depth: usize,
    pub line: u32,
    pub address: Value,
    pub count: u16,
}

/// Whether more statements than these are in effect in the newest PEEK's state.
fn is_deeper(readings: &[Reading], standing: usize) -> bool
    ensures { IsTrue result ↔ Deeper standing (readings_in readings.now) }
{
    match readings.last() {
        Some(newest) => newest.depth > standing,
        None => false,
    }
}

/// The newest PEEKs, in whose states more statements than these are in effect, go.
fn forget_undone(readings: &mut Vec<Reading>, standing: usize)
    ensures { readings_in readings.new.items ≡ fallen standing (readings_in readings.old.items) }
{
    while is_deeper(readings.as_slice(), standing) {
        readings.pop();
    }
}

/// The statement of a request; ENDTASK if it's none, which no accepted statement asks for.
fn statement_of(request: Request) -> Statement
    ensures { act_in result ≡ act_asked (asked_in request) }
{
    match request {
        Request::Act(statement) => statement,
        Request::Peek { .. } | Request::Map | Request::Back(_) | Request::Forward(_) =>
            Statement::EndTask,
    }
}

/// Whether a response leaves the statements in effect and the PEEKs as they are.
fn is_idle(told: &Option<(u32, Response)>) -> bool
    ensures { IsTrue result ↔ IsIdle told.now }
{
    match told {
        Some((_, Response::Replied(_) | Response::Shown | Response::Kept(_))) => false,
        None
        | Some(
            (
                _,
                Response::Refused(_)
                | Response::TooFar(_)
                | Response::TooFarAhead(_)
                | Response::Map
                | Response::Fault(_),
            ),
        ) => true,
    }
}

/// A script that was followed to its end.
#[derive(Drop)]
pub struct Followed {
    /// The statements in effect and those that are undone, each with its line.
    pub trail: Trail<Statement>,
    /// The PEEKs whose states aren't undone, oldest first.
    pub readings: Vec<Reading>,
}

impl Followed {
    /// Nothing is followed yet. Takes no memory.
    fn new(alloc: Global) -> Followed
        ensures acts { marks_in result.trail ≡ nothing_marked }
        ensures readings { readings_in result.readings.items ≡ [] }
    {
        Followed {
            trail: Trail::new(alloc),
            readings: Vec::new(alloc),
        }
    }

    /// Notes the statement of a line, which is in effect.
    fn note_act(&mut self, line: u32, request: Request) -> Result<(), AllocError>
        ensures acts { OnOk result (marks_in self.new.trail
            ≡ with_mark (marks_in self.old.trail) line (act_asked (asked_in request))) }
        ensures readings { self.new.readings ≡ self.old.readings }
    {
        self.trail.applied(line, statement_of(request))
    }

    /// Notes the PEEK of a line, which showed bytes.
    fn note_reading(&mut self, line: u32, request: Request) -> Result<(), AllocError>
        ensures acts { self.new.trail ≡ self.old.trail }
        ensures readings { OnOk result (readings_in self.new.readings.items
            ≡ with_reading (asked_in request) (marks_of self.old.trail).standing line
            (readings_in self.old.readings.items)) }
    {
        match request {
            Request::Peek { addr, len } => {
                let depth = self.trail.standing().len();
                self.readings.push(Reading {
                    depth,
                    line,
                    address: addr,
                    count: len,
                })?;
                Ok(())
            }
            Request::Act(_) | Request::Map | Request::Back(_) | Request::Forward(_) => Ok(()),
        }
    }

    /// Notes a step, which changed how many changes can be undone from `before` to `after`.
    fn note_step(&mut self, before: u32, after: u32)
        ensures acts { marks_in self.new.trail ≡ stepped (marks_in self.old.trail) before after }
        ensures readings { readings_in self.new.readings.items
            ≡ fallen (marks_of self.new.trail).standing (readings_in self.old.readings.items) }
    {
        self.trail.stepped(before, after);
        let standing = self.trail.standing().len();
        forget_undone(&mut self.readings, standing);
    }

    /// Notes what a line did: it added a statement in effect, showed bytes, or stepped over statements, before which
    /// `before` could be undone.
    fn note(
        &mut self,
        request: Request,
        before: u32,
        told: &Option<(u32, Response)>,
    ) -> Result<(), AllocError>
        ensures acts { OnOk result (marks_in self.new.trail
            ≡ with_told (act_asked (asked_in request)) before told.now (marks_in self.old.trail)) }
        ensures readings { OnOk result (readings_in self.new.readings.items
            ≡ readings_noted told.now (asked_in request) (marks_of self.old.trail).standing
            (marks_of self.new.trail).standing (readings_in self.old.readings.items)) }
    {
        match told {
            Some((line, Response::Replied(_))) => self.note_act(*line, request),
            Some((line, Response::Shown)) => self.note_reading(*line, request),
            Some((_, Response::Kept(after))) => {
                self.note_step(before, *after);
                Ok(())
            }
            None
            | Some(
                (
                    _,
                    Response::Refused(_)
                    | Response::TooFar(_)
                    | Response::TooFarAhead(_)
                    | Response::Map
                    | Response::Fault(_),
                ),
            ) => Ok(()),
        }
    }
}

/// Follows the line that begins at a place of the script, and returns the place of the next. `None`, and nothing is
/// taken, if no line feed follows from there on.
fn follow_line(
    session: &mut Session,
    followed: &mut Followed,
    script: &[u8],
    at: usize,
) -> Result<Option<usize>, FollowFault>
    requires { at ≤ length script.now }
    ensures { IsLineFollowed script.now at session.old session.new followed.old followed.new result }
{
    let before = session.bench().kept();
    let mut request = Request::Map;
    let step = match session.take_line_into(script, at, &mut request) {
        Ok(Some(step)) => step,
        Ok(None) => return Ok(None),
        Err(_) => return Err(FollowFault::TooLong),
    };
    match followed.note(request, before, &step.told) {
        Ok(()) => Ok(Some(step.next)),
        Err(_) => Err(FollowFault::Memory),
    }
}

/// Follows what is after the last line feed.
fn follow_end(session: Session, followed: &mut Followed, rest: &[u8]) -> Result<(), FollowFault>
    requires { NoFeed rest.now }
    ensures { IsEndFollowed rest.now session followed.old followed.new result }
{
    let mut session = session;
    let before = session.bench().kept();
    match session.take_bytes(rest) {
        Ok(()) => (),
        Err(_) => {
            drop(session);
            return Err(FollowFault::TooLong);
        }
    }
    let mut request = Request::Map;
    let ending = session.end_into(&mut request);
    let noted = followed.note(request, before, &ending.last);
    // The response to a statement that is open at the end is a fault, which is idle.
    let idle = is_idle(&ending.open_statement);
    drop(ending);
    match noted {
        Ok(()) if idle => Ok(()),
        Ok(()) | Err(_) => Err(FollowFault::Memory),
    }
}

/// A script from a place on.
pub fn rest_from(script: &[u8], at: usize) -> &[u8]
    requires { at ≤ length script.now }
    ensures { result.now ≡ drop at script.now }
{
    &script[at..]
}

/// Follows a script on a new bench under these settings, to its end.
pub fn follow<P: Watch>(
    alloc: Global,
    script: &[u8],
    settings: Settings,
    watch: &mut P,
) -> Result<Followed, FollowFault>
    ensures { IsFollowed settings script.now result }
{
    let bench = match Bench::new(alloc, settings) {
        Ok(bench) => bench,
        Err(fault) => return Err(FollowFault::New(fault)),
    };
    let mut followed = Followed::new(alloc);
    let mut session = Session::new(bench);
    let mut at = 0;
    while let Some(next) = follow_line(&mut session, &mut followed, script, at)? {
        watch.line(session.lines());
        at = next;
    }
    let rest = rest_from(script, at);
    follow_end(session, &mut followed, rest)?;
    Ok(followed)
}
