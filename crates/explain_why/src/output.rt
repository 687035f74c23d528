//! Why a line of a script is answered as it is: all of the text at once, or none of it.
ghost use Rattle.std.specs.Prelude.{◌≢◌, List, ℕ};
ghost use Rattle.text_output.specs.Writing.{Writes};
ghost use Rattle.explain_why.specs.Faults.{IsFaultOf};
ghost use Rattle.explain_why.specs.Output.{Explains};

use crate::faults::WhyFault;
use crate::lines::why_text;
use script_steps::Watch;
use std::alloc::Global;
use std::io::Write;
use text_output::{Gathered, WriteFault};
use vsm_model::Settings;

/// The fault if no text can be gathered in memory: a write failed if memory ran out.
fn gathering_fault(fault: WhyFault) -> WhyFault
    ensures other { result ≢ WhyFault.Write }
    ensures same { (script : List ℕ) (line : ℕ) → IsFaultOf script line fault → IsFaultOf script line result }
{
    match fault {
        WhyFault::Write | WhyFault::Memory => WhyFault::Memory,
        WhyFault::New(fault) => WhyFault::New(fault),
        WhyFault::TooLong => WhyFault::TooLong,
        WhyFault::NoLine(lines) => WhyFault::NoLine(lines),
        WhyFault::Aside => WhyFault::Aside,
        WhyFault::Dropped => WhyFault::Dropped,
    }
}

/// Writes a text as it is.
fn write_text<W: Write>(text: &[u8], out: &mut W) -> Result<(), WriteFault>
    ensures { Writes (W.contents out.old) (W.contents out.new) text.now result }
{
    let mut gathered = Gathered::new();
    gathered.put(out, text);
    gathered.hand_out(out)
}

/// Writes why the statement of a line, its first or a later one, is answered as it is: what it asks for in the state
/// before it, the reason that decides if it's refused, what the rules look at, and the answer. `true` if that is a
/// refusal.
///
/// The lines before it are carried out on a new bench under the settings, and once more to look for what brought the
/// reason; `watch` is called for each.
///
/// `New` if no such bench can be made; `TooLong` if a byte up to the statement's end passes a bound; `NoLine`, `Aside`
/// and `Dropped` if the line belongs to no statement; `Memory` if there is no memory for the text, or for the
/// statements in effect before it, once more; `Write` if a write fails. After `Write` a prefix was written, after each
/// other fault nothing.
pub fn why<W: Write, P: Watch>(
    alloc: Global,
    script: &[u8],
    settings: Settings,
    line: u32,
    out: &mut W,
    watch: &mut P,
) -> Result<bool, WhyFault>
    ensures { Explains settings script.now line (W.contents out.old) (W.contents out.new) result }
{
    let mut text = Vec::new(alloc);
    match why_text(alloc, script, settings, line, &mut text, watch) {
        Ok(refused) => match write_text(text.as_slice(), out) {
            Ok(()) => Ok(refused),
            Err(_) => Err(WhyFault::Write),
        },
        Err(fault) => Err(gathering_fault(fault)),
    }
}
