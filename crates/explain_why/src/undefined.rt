//! The name for which a request is refused: the first in its values that isn't defined.
ghost use Rattle.std.specs.Prelude.{◌≡◌, map, option_map};
ghost use Rattle.macro_operands.specs.Requests.{act_in, asked_in, length_in, stored_in, subpools_in, written_in};
ghost use Rattle.bench_core.specs.Stands.{bench_of};
ghost use Rattle.explain_why.specs.Undefined.{first_undefined, pool_values, undefined_in, values_asked};
ghost use Rattle.explain_why.specs.Undefined.{values_of_act, values_of_length, values_of_store};
ghost use Rattle.explain_why.specs.Undefined.{values_of_subpools};

use bench_core::Bench;
use macro_reader::{Content, Length, Name, NewCellPool, Request, Statement, Subpools, Value};

/// The name of a value, if it isn't defined.
fn undefined_in(bench: &Bench, value: &Value) -> Option<Name>
    ensures { option_map (λ name. name.bytes) result
        ≡ undefined_in (bench_of bench.now).present (written_in value.now) }
{
    match value {
        Value::Named(name) => match bench.name(name) {
            Some(_) => None,
            None => Some(*name),
        },
        Value::Number(_) | Value::Register(_) => None,
    }
}

/// The first name in values that isn't defined.
fn first_undefined(bench: &Bench, values: &[Value]) -> Option<Name>
    ensures { option_map (λ name. name.bytes) result
        ≡ first_undefined (bench_of bench.now).present (map written_in values.now) }
{
    for value in values {
        if let Some(name) = undefined_in(bench, value) {
            return Some(name);
        }
    }
    None
}

/// The same in a length.
fn undefined_length(bench: &Bench, length: &Length) -> Option<Name>
    ensures { option_map (λ name. name.bytes) result
        ≡ first_undefined (bench_of bench.now).present (values_of_length (length_in length.now)) }
{
    match length {
        Length::Fixed(length) => first_undefined(bench, &[*length]),
        Length::Variable { maximum, minimum } => first_undefined(bench, &[*maximum, *minimum]),
    }
}

/// The same in the subpools of a new task.
fn undefined_subpools(bench: &Bench, subpools: &Subpools) -> Option<Name>
    ensures { option_map (λ name. name.bytes) result
        ≡ first_undefined (bench_of bench.now).present (values_of_subpools (subpools_in subpools.now)) }
{
    match subpools {
        Subpools::Nothing => None,
        Subpools::Number(number) => first_undefined(bench, &[*number]),
        Subpools::Listed { address } => first_undefined(bench, &[*address]),
    }
}

/// The same in the numbers of a new cell pool.
fn undefined_build(bench: &Bench, cells: &NewCellPool) -> Option<Name>
    ensures { option_map (λ name. name.bytes) result ≡ first_undefined (bench_of bench.now).present
        (pool_values (written_in cells.now.primary) (option_map written_in cells.now.secondary)
        (written_in cells.now.size) (written_in cells.now.subpool)) }
{
    match &cells.secondary {
        Some(secondary) => first_undefined(
            bench,
            &[cells.primary, *secondary, cells.size, cells.subpool],
        ),
        None => first_undefined(bench, &[cells.primary, cells.size, cells.subpool]),
    }
}

/// The same in an address and what is stored there.
fn undefined_store(bench: &Bench, address: &Value, content: &Content) -> Option<Name>
    ensures { option_map (λ name. name.bytes) result ≡ first_undefined (bench_of bench.now).present
        (values_of_store (written_in address.now) (stored_in content.now)) }
{
    match content {
        Content::Word(value) => first_undefined(bench, &[*address, *value]),
        Content::Spelled(_) => first_undefined(bench, &[*address]),
    }
}

/// The same in a statement.
fn undefined_act(bench: &Bench, statement: &Statement) -> Option<Name>
    ensures { option_map (λ name. name.bytes) result
        ≡ first_undefined (bench_of bench.now).present (values_of_act (act_in statement.now)) }
{
    match statement {
        Statement::Obtain {
            length,
            subpool,
            ..
        } => undefined_length(bench, length).or(first_undefined(bench, &[*subpool])),
        Statement::Release {
            length,
            address,
            subpool,
            ..
        } => first_undefined(bench, &[*length, *address, *subpool]),
        Statement::Build(cells) => undefined_build(bench, cells),
        Statement::Attach { given, shared, .. } => {
            undefined_subpools(bench, given).or(undefined_subpools(bench, shared))
        }
        Statement::Poke { address, content } => undefined_store(bench, address, content),
        Statement::Whole { subpool: value, .. }
        | Statement::FreeCell { cell: value, .. }
        | Statement::Detach { task: value }
        | Statement::Run { task: value } => first_undefined(bench, &[*value]),
        Statement::GetCell { .. } | Statement::DeletePool { .. } | Statement::EndTask => None,
    }
}

/// The first name in the values of a request that isn't defined.
pub fn undefined_name(bench: &Bench, request: &Request) -> Option<Name>
    ensures { option_map (λ name. name.bytes) result
        ≡ first_undefined (bench_of bench.now).present (values_asked (asked_in request.now)) }
{
    match request {
        Request::Act(statement) => undefined_act(bench, statement),
        Request::Peek { addr, .. } => first_undefined(bench, &[*addr]),
        Request::Map | Request::Back(_) | Request::Forward(_) => None,
    }
}
