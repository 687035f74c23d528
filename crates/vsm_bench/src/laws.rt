//! What holds after any list of statements and steps.
ghost use Rattle.macro_reader.specs.Written.{spelled, stored_in, HasBytes};
ghost use Rattle.macro_reader.specs.Requests.{act, act_in, AskedHasBytes};
ghost use Rattle.vsm_bench.specs.Headline.{RunsAlone, StaysWithinLimit, ForwardGivesBack};
ghost use Rattle.vsm_bench.specs.Headline.{AnswersAreAllowed, NoOthersAreAllowed};
ghost use Rattle.vsm_bench.specs.Served.{AcceptedIsItsService, RefusedHasItsCause};
ghost use Rattle.vsm_bench.specs.Reached.{AcceptedLeavesWellFormed, ReachedIsWellFormed, BenchIsWellFormed};

use macro_reader::{Content, Statement};

/// After any list of calls of `apply`, `back` and `forward` on a new bench, whose answers keep the relation of one call
/// that is their contract, the whole state and the replies of the statements in effect are those of only these
/// statements run on the plain machine; there are as many kept and undone states as statements, and together at most
/// the limit. A step forward after a step back gives what was there before, also with refused calls and readings
/// between.
pub fn standing()
    ensures alone { RunsAlone }
    ensures limit { StaysWithinLimit }
    ensures forward { ForwardGivesBack }
    ensures allowed { AnswersAreAllowed }
    ensures only { NoOthersAreAllowed }
{}

/// A statement is its service.
pub fn statements_are_served()
    ensures accepted { AcceptedIsItsService }
    ensures refused { RefusedHasItsCause }
{}

/// Under valid settings, an accepted statement leaves a well-formed state well-formed, if it can be written and what it
/// stores are bytes. So the state after any list of such statements run alone is well-formed, as `standing` runs those
/// in effect; and so are all states of a bench after any list of calls with such statements, also with refused ones:
/// the present state, and those that it can go back and forward to.
pub fn reached_is_well_formed()
    ensures accepted { AcceptedLeavesWellFormed }
    ensures alone { ReachedIsWellFormed }
    ensures bench { BenchIsWellFormed }
{}

// The elements of a slice of bytes are below 256.
fn are_bytes(bytes: &[u8])
    ensures { HasBytes (spelled bytes.now) }
{}

// The same holds of what is stored.
fn has_bytes(content: &Content)
    ensures { HasBytes (stored_in content.now) }
{
    if let Content::Spelled(bytes) = content {
        are_bytes(bytes.as_slice());
    }
}

/// What a statement of the code stores are bytes, so one that can be written, as `Bench::apply` asks, is such a
/// statement.
pub fn stores_bytes(statement: &Statement)
    ensures { AskedHasBytes (act (act_in statement.now)) }
{
    if let Statement::Poke { content, .. } = statement {
        has_bytes(content);
    }
}
