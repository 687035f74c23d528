//! Scripts that lie in memory, line by line.
ghost use Rattle.std.specs.Prelude.{◌≡◌, ◌<◌, ◌≤◌, ℕ, List, length, slice_index, take};
ghost use Rattle.macro_statements.specs.Requests.{asked_in};
ghost use Rattle.vsm_model.specs.declared.limits.Settings.{Settings};
ghost use Rattle.script_steps.specs.Output.{Marked};
ghost use Rattle.script_steps.specs.Script.{NoFeed};
ghost use Rattle.script_steps.specs.Steps.{AsksStep, BringsStep, ShowsStep, StepsOver, TakesStep};
ghost use Rattle.script_steps.specs.Taken.{Took};

use crate::responses::NumberedResponse;
use crate::session::{LINES, Session, TooLong};
use macro_reader::Request;
use memchr::memchr;

/// One line of a script: where it begins, where the next begins, and its answer.
#[derive(Drop)]
pub struct Step {
    /// The place of its first byte in the script.
    pub start: usize,
    /// The place after its line feed.
    pub next: usize,
    /// Its answer, if any, with the number of the statement's first line.
    pub told: NumberedResponse,
}

/// Is called for each line of a long run, to show progress; it has no contract.
pub trait Watch {
    /// This many lines were taken.
    fn line(&mut self, lines: u32);
}

/// How many bytes are before the first line feed: all of them if there is none.
pub fn before_feed(bytes: &[u8]) -> usize
    ensures within { result ≤ length bytes.now }
    ensures plain { NoFeed (take result bytes.now) }
    ensures feed { result < length bytes.now → slice_index bytes.now result ≡ 10 }
{
    match memchr(b'\n', bytes) {
        Some(place) => place,
        None => bytes.len(),
    }
}

impl Session {
    /// Takes the line that begins at a place of the script with its line feed, if the session has taken what is before
    /// it.
    ///
    /// `None`, and nothing is taken, if no line feed follows from there on; `TooLong` if one of its bytes passes a
    /// bound.
    pub fn take_line(&mut self, script: &[u8], at: usize) -> Result<Option<Step>, TooLong>
        requires { at ≤ length script.now }
        ensures takes { (settings : Settings) (answers : List Marked)
            → Took settings (take at script.now) answers self.old
            → TakesStep settings script.now at answers self.new result }
        ensures brings { (settings : Settings) (answers : List Marked)
            → Took settings (take at script.now) answers self.old
            → BringsStep settings script.now answers self.new result }
        ensures shows { (settings : Settings) (answers : List Marked)
            → Took settings (take at script.now) answers self.old
            → ShowsStep settings script.now answers self.new result }
        ensures place { StepsOver script.now at result }
    {
        let mut request = Request::Map;
        self.take_line_into(script, at, &mut request)
    }

    /// Does the same, and puts what a statement that isn't wrong asked for into a room, if the line has an answer.
    #[tactic(auto, using(crate::proofs::LineEnds::is_line))]
    pub fn take_line_into(
        &mut self,
        script: &[u8],
        at: usize,
        request: &mut Request,
    ) -> Result<Option<Step>, TooLong>
        requires { at ≤ length script.now }
        ensures takes { (settings : Settings) (answers : List Marked)
            → Took settings (take at script.now) answers self.old
            → TakesStep settings script.now at answers self.new result }
        ensures brings { (settings : Settings) (answers : List Marked)
            → Took settings (take at script.now) answers self.old
            → BringsStep settings script.now answers self.new result }
        ensures shows { (settings : Settings) (answers : List Marked)
            → Took settings (take at script.now) answers self.old
            → ShowsStep settings script.now answers self.new result }
        ensures asks { (settings : Settings) (answers : List Marked)
            → Took settings (take at script.now) answers self.old
            → AsksStep settings script.now answers self.new result (asked_in request.new) }
        ensures place { StepsOver script.now at result }
    {
        let rest = &script[at..];
        let size = before_feed(rest);
        if size == rest.len() {
            return Ok(None);
        }
        self.take_bytes(&rest[..size])?;
        if self.lines >= LINES {
            return Err(TooLong);
        }
        let told = self.end_line_into(request);
        Ok(Some(Step {
            start: at,
            next: at + size + 1,
            told,
        }))
    }
}
