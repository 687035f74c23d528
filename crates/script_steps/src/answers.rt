//! The answers of a bench to what a line asks for.
ghost use Rattle.std.specs.Prelude.{◌≡◌, ◌≤◌, Ok, length};
ghost use Rattle.vsm_model.specs.Standing.{Apply, Back, Forward};
ghost use Rattle.macro_statements.specs.Requests.{peek, act_in, asked_in, written_in, IsValidAct};
ghost use Rattle.macro_statements.specs.Requests.{IsValidAsked};
ghost use Rattle.macro_reader.specs.Scripts.{told_at_end};
ghost use Rattle.macro_reader.specs.Rooms.{told_with, IsValidWith};
ghost use Rattle.bench_core.specs.Stands.{bench_of, settings_in};
ghost use Rattle.script_steps.specs.Answers.{AreShown, Responds, RespondsTo, Tells, told_count, told_refused};
ghost use Rattle.script_steps.specs.Answers.{IsToldAlone};
ghost use Rattle.bench_core.specs.Machine.{shown_at};
ghost use Rattle.script_steps.specs.Responses.{reading_response};

use crate::responses::{NumberedResponse, Response};
use arrayvec::ArrayVec;
use bench_core::Bench;
use macro_reader::{Fault, Request, Statement, Value};

/// Puts bytes into room for the most that a PEEK may show, which is 256, in place of its contents.
fn keep_shown(shown: &mut ArrayVec<u8, 256>, bytes: &[u8])
    requires { length bytes.now ≤ 256 }
    ensures { shown.new.items ≡ bytes.now }
{
    shown.clear();
    shown.try_extend_from_slice(bytes).unwrap();
}

/// Carries out a statement, or refuses it.
fn carry_out(bench: &mut Bench, statement: &Statement) -> Response
    requires { IsValidAct (act_in statement.now) }
    ensures responds { RespondsTo (settings_in bench.old) (bench_of bench.old) (Apply (act_in statement.now)) result
        (bench_of bench.new) }
    ensures settings { settings_in bench.new ≡ settings_in bench.old }
{
    match bench.apply(statement) {
        Ok(reply) => Response::Replied(reply),
        Err(refusal) => Response::Refused(refusal),
    }
}

/// Shows the bytes at an address, the number that is asked for, in the room that is lent.
fn show(bench: &Bench, address: Value, count: u16, shown: &mut ArrayVec<u8, 256>) -> Response
    requires { IsValidAsked (peek (written_in address) count) }
    ensures response { result
        ≡ reading_response (shown_at (bench_of bench.now).present (written_in address) count) }
    ensures shown { AreShown (shown_at (bench_of bench.now).present (written_in address) count) shown.new.items }
{
    let mut room = [0; 256];
    let out = &mut room[..count as usize];
    match bench.peek(address, out) {
        Ok(()) => {
            keep_shown(shown, out);
            Response::Shown
        }
        Err(refusal) => Response::Refused(refusal),
    }
}

/// Undoes the last `n` changes, or none if fewer are kept.
fn step_back(bench: &mut Bench, n: u32) -> Response
    ensures responds { RespondsTo (settings_in bench.old) (bench_of bench.old) (Back n) result (bench_of bench.new) }
    ensures settings { settings_in bench.new ≡ settings_in bench.old }
{
    match bench.back(n) {
        Ok(()) => Response::Kept(bench.kept()),
        Err(fault) => Response::TooFar(fault.kept),
    }
}

/// Makes the first `n` undone changes again, or none if fewer are undone.
fn step_forward(bench: &mut Bench, n: u32) -> Response
    ensures responds { RespondsTo (settings_in bench.old) (bench_of bench.old) (Forward n) result
        (bench_of bench.new) }
    ensures settings { settings_in bench.new ≡ settings_in bench.old }
{
    match bench.forward(n) {
        Ok(()) => Response::Kept(bench.kept()),
        Err(fault) => Response::TooFarAhead(fault.undone),
    }
}

/// The response of a bench to a request; the bytes of a reading go into the room that is lent.
fn respond(bench: &mut Bench, request: &Request, shown: &mut ArrayVec<u8, 256>) -> Response
    requires { IsValidAsked (asked_in request.now) }
    ensures responds { Responds (settings_in bench.old) (bench_of bench.old) (Ok (asked_in request.now)) result
        shown.new.items (bench_of bench.new) }
    ensures settings { settings_in bench.new ≡ settings_in bench.old }
{
    match request {
        Request::Act(statement) => carry_out(bench, statement),
        Request::Peek { addr, len } => show(bench, *addr, *len, shown),
        Request::Map => Response::Map,
        Request::Back(n) => step_back(bench, *n),
        Request::Forward(n) => step_forward(bench, *n),
    }
}

/// The response to what a line gave: a request, which is in a room, with the number of the statement's first line. The
/// bytes of a reading go into another room.
pub(crate) fn tell(
    bench: &mut Bench,
    fed: Result<Option<u32>, Fault>,
    request: &Request,
    shown: &mut ArrayVec<u8, 256>,
) -> NumberedResponse
    requires { IsValidWith fed (asked_in request.now) }
    ensures tells { Tells (settings_in bench.old) (bench_of bench.old) (told_with fed (asked_in request.now)) result
        shown.new.items (bench_of bench.new) }
    ensures settings { settings_in bench.new ≡ settings_in bench.old }
{
    match fed {
        Ok(None) => None,
        Ok(Some(line)) => Some((line, respond(bench, request, shown))),
        Err(fault) => Some((fault.line, Response::Fault(fault.kind))),
    }
}

/// The response to a statement that is open at the end of the script. It leaves a bench as it is.
pub(crate) fn tell_end(ended: Result<(), Fault>) -> NumberedResponse
    ensures { IsToldAlone (told_at_end ended) result }
{
    match ended {
        Ok(()) => None,
        Err(fault) => Some((fault.line, Response::Fault(fault.kind))),
    }
}

/// How many lines of output are reported: one or none.
pub(crate) fn told_count(told: &NumberedResponse) -> u32
    ensures count { result ≡ told_count told.now }
    ensures most { result ≤ 1 }
{
    u32::from(told.is_some())
}

/// How many of them are refusals.
pub(crate) fn told_refused(told: &NumberedResponse) -> u32
    ensures count { result ≡ told_refused told.now }
    ensures most { result ≤ told_count told.now }
{
    match told {
        Some((_, response)) if response.is_refused() => 1,
        _ => 0,
    }
}
