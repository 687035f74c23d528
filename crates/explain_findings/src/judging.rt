//! What is found of one statement or PEEK.
ghost use Rattle.std.specs.Prelude.{◌≡◌, ◌/◌, Some, option_map};
ghost use Rattle.macro_statements.specs.Requests.{IsValidAct, IsValue, act, act_in, written_in};
ghost use Rattle.bench_core.specs.Machine.{service_asked};
ghost use Rattle.bench_core.specs.Stands.{bench_of};
ghost use Rattle.vsm_model.specs.Meaning.{service_in};
ghost use Rattle.explain_standing.specs.NumberMaps.{number_in};
ghost use Rattle.explain_findings.specs.Endings.{name_used};
ghost use Rattle.explain_findings.specs.Homes.{home_at};
ghost use Rattle.explain_findings.specs.Judged.{HasFewBytes, finding_by, name_of, outside_by, part_by, read_by};
ghost use Rattle.explain_findings.specs.Judged.{reading_by, stale_by, unset_by};
ghost use Rattle.explain_findings.specs.NameEndings.{ending_kept};
ghost use Rattle.explain_standing.specs.Carried.{state_in};

use crate::accesses::outside_at;
use crate::endings::Endings;
use crate::findings::{Finding, Outside, Part, Unset};
use crate::parts::{doublewords, part_at};
use crate::stores::unset_at;
use explain_standing::{Carried, NumberMap, Reading};
use explain_who::subpool_at;
use macro_reader::{Statement, Value};
use operand_texts::Name;
use script_steps::Bench;
use storage_core::{Storage, Subpool};
use vsm_model::Service;

/// What is known in addition to what the statements took: what ended the areas and cells of names, and what stored
/// bytes.
#[derive(Drop)]
pub(crate) struct Known {
    pub endings: Endings,
    /// The line that stored each byte last.
    pub stored: NumberMap,
    /// The subpool of the last address: a guess for the next one.
    pub guess: Option<Subpool>,
}

/// The name in a value, if it's one.
fn name_in(value: &Value) -> Option<&Name>
    ensures { option_map (λ name. name.now.bytes) result ≡ name_of (written_in value.now) }
{
    match value {
        Value::Named(name) => Some(name),
        Value::Number(_) | Value::Register(_) => None,
    }
}

/// The name in the address of a statement that uses storage.
fn name_used(statement: &Statement) -> Option<&Name>
    ensures { option_map (λ name. name.now.bytes) result ≡ name_used (act (act_in statement.now)) }
{
    match statement {
        Statement::Poke { address, .. } | Statement::Release { address, .. } => name_in(address),
        Statement::FreeCell { cell, .. } => name_in(cell),
        Statement::Obtain { .. }
        | Statement::Whole { .. }
        | Statement::Build(_)
        | Statement::GetCell { .. }
        | Statement::DeletePool { .. }
        | Statement::Attach { .. }
        | Statement::Detach { .. }
        | Statement::Run { .. }
        | Statement::EndTask => None,
    }
}

/// The line of the statement that ended what is at the word of a name that is used.
fn stale(endings: &Endings, name: Option<&Name>) -> Option<u32>
    ensures { result ≡ stale_by (ending_kept endings.now) (option_map (λ name. name.now.bytes) name.entry) }
{
    match name {
        Some(name) => endings.ended_by(name),
        None => None,
    }
}

/// The subpool of this address, if it's one; else what was guessed before.
fn next_guess(storage: &Storage, address: Option<u32>, guess: Option<Subpool>) -> Option<Subpool> {
    match address {
        Some(address) => subpool_at(storage, address, guess),
        None => guess,
    }
}

/// The address at which a service stores.
fn stored_at(service: &Service<'_>) -> Option<u32> {
    match service {
        Service::Store { address, .. } => Some(*address),
        Service::Obtain(_)
        | Service::Release(_)
        | Service::Whole { .. }
        | Service::Attach(_)
        | Service::Detach { .. }
        | Service::EndTask
        | Service::Run { .. }
        | Service::Build { .. }
        | Service::Get { .. }
        | Service::Free { .. }
        | Service::Delete { .. } => None,
    }
}

/// What a service stores outside of the area or the cell of its first byte. The guessed subpool is asked for pages
/// first.
fn stored_outside(
    carried: &Carried,
    service: &Service<'_>,
    guess: Option<Subpool>,
) -> Option<Outside>
    requires { HasFewBytes (service_in service.now) }
    ensures { result ≡ outside_by (home_at (state_in carried.now) (number_in carried.now.lines))
        (Some (service_in service.now)) }
{
    match service {
        Service::Store { address, bytes } => {
            let count = bytes.len() as u32;
            outside_at(
                carried.bench.storage(),
                &carried.lines,
                *address,
                count,
                guess,
            )
        }
        Service::Obtain(_)
        | Service::Release(_)
        | Service::Whole { .. }
        | Service::Attach(_)
        | Service::Detach { .. }
        | Service::EndTask
        | Service::Run { .. }
        | Service::Build { .. }
        | Service::Get { .. }
        | Service::Free { .. }
        | Service::Delete { .. } => None,
    }
}

/// Whether a service releases a part of an area, or more than one. The guessed subpool is asked for pages first.
fn released_part(carried: &Carried, service: &Service<'_>, guess: Option<Subpool>) -> Option<Part>
    ensures { result ≡ part_by (home_at (state_in carried.now) (number_in carried.now.lines))
        (number_in carried.now.lines) (Some (service_in service.now)) }
{
    match service {
        Service::Release(release) => {
            let first = release.address / 8;
            let count = doublewords(release.length);
            part_at(carried.bench.storage(), &carried.lines, first, count, guess)
        }
        Service::Obtain(_)
        | Service::Whole { .. }
        | Service::Attach(_)
        | Service::Detach { .. }
        | Service::EndTask
        | Service::Run { .. }
        | Service::Store { .. }
        | Service::Build { .. }
        | Service::Get { .. }
        | Service::Free { .. }
        | Service::Delete { .. } => None,
    }
}

/// What is found of a statement before it's carried out, where it asks for this service.
pub(crate) fn finding_at(
    carried: &Carried,
    known: &mut Known,
    statement: &Statement,
    service: &Service<'_>,
) -> Finding
    requires valid { IsValidAct (act_in statement.now) }
    requires asked { service_asked (bench_of carried.now.bench).present (act_in statement.now)
        ≡ Some (service_in service.now) }
    ensures found { result ≡ finding_by (home_at (state_in carried.now) (number_in carried.now.lines))
        (number_in carried.now.lines) (ending_kept known.old.endings) (Some (service_in service.now))
        (act_in statement.now) }
    ensures endings { known.new.endings ≡ known.old.endings }
    ensures stored { known.new.stored ≡ known.old.stored }
{
    let storage = carried.bench.storage();
    known.guess = next_guess(storage, stored_at(service), known.guess);
    Finding {
        outside: stored_outside(carried, service, known.guess),
        stale: stale(&known.endings, name_used(statement)),
        part: released_part(carried, service, known.guess),
        unset: None,
    }
}

/// Which of this many bytes at an address that is read is outside of the area or the cell of the first one.
fn read_outside(
    carried: &Carried,
    address: Option<u32>,
    count: u16,
    guess: Option<Subpool>,
) -> Option<Outside>
    ensures { result ≡ read_by (home_at (state_in carried.now) (number_in carried.now.lines)) address count }
{
    match address {
        Some(address) => {
            let count = u32::from(count);
            outside_at(
                carried.bench.storage(),
                &carried.lines,
                address,
                count,
                guess,
            )
        }
        None => None,
    }
}

/// Which of this many bytes at an address that is read is unset.
fn read_unset(carried: &Carried, known: &Known, address: Option<u32>, count: u16) -> Option<Unset>
    ensures { result ≡ unset_by (home_at (state_in carried.now) (number_in carried.now.lines))
        (λ cell. number_in carried.now.cells (cell / 4)) (number_in known.now.stored) address count }
{
    match address {
        Some(address) => unset_at(carried, &known.stored, address, count, known.guess),
        None => None,
    }
}

/// What is found of a PEEK.
pub(crate) fn reading_finding(carried: &Carried, known: &mut Known, reading: &Reading) -> Finding
    requires { IsValue (written_in reading.now.address) }
    ensures found { result ≡ reading_by (home_at (state_in carried.now) (number_in carried.now.lines))
        (λ cell. number_in carried.now.cells (cell / 4)) (number_in known.old.stored) (ending_kept known.old.endings)
        (bench_of carried.now.bench).present (written_in reading.now.address) reading.now.count }
    ensures endings { known.new.endings ≡ known.old.endings }
    ensures stored { known.new.stored ≡ known.old.stored }
{
    let storage = carried.bench.storage();
    let address = carried.bench.word(&reading.address);
    known.guess = next_guess(storage, address, known.guess);
    Finding {
        outside: read_outside(carried, address, reading.count, known.guess),
        stale: stale(&known.endings, name_in(&reading.address)),
        part: None,
        unset: read_unset(carried, known, address, reading.count),
    }
}
