//! Responses to the statements of a script.
ghost use Rattle.std.specs.Prelude.{◌≡◌};
ghost use Rattle.script_steps.specs.Responses.{is_refused};

use bench_core::Refusal;
use macro_reader::FaultKind;
use vsm_model::Reply;

/// What a bench responds to a statement of a script.
#[derive(Clone, Copy)]
pub enum Response {
    /// The reply of an accepted service.
    Replied(Reply),
    /// Why a service or a reading is refused.
    Refused(Refusal),
    /// A step was made; this many changes are kept now.
    Kept(u32),
    /// BACK past what is kept, with that number.
    TooFar(u32),
    /// FORWARD past what is undone, with that number.
    TooFarAhead(u32),
    /// The bytes of a reading, which the session shows.
    Shown,
    /// The map, whose lines follow.
    Map,
    /// The statement is wrong.
    Fault(FaultKind),
}

/// A response, with the number of the statement's first line; `None` if a line has none.
pub type NumberedResponse = Option<(u32, Response)>;

impl Response {
    /// Whether it counts as refused: a fault, a refusal or an abend.
    pub fn is_refused(&self) -> bool
        ensures { result ≡ is_refused self.now }
    {
        match self {
            Response::Replied(_) | Response::Kept(_) | Response::Shown | Response::Map => false,
            Response::Refused(_)
            | Response::TooFar(_)
            | Response::TooFarAhead(_)
            | Response::Fault(_) => true,
        }
    }
}
