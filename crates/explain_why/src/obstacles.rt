//! What keeps a statement from its effect, in the state in which it's refused.
ghost use Rattle.std.specs.Prelude.{◌≡◌};
ghost use Rattle.vsm_model.specs.Meaning.{service_in};
ghost use Rattle.vsm_model.specs.Services.{release};
ghost use Rattle.macro_statements.specs.Requests.{act_in, IsValidAct};
ghost use Rattle.storage_core.specs.Meaning.{settings_of, state_of};
ghost use Rattle.bench_core.specs.Stands.{bench_of, settings_in};
ghost use Rattle.explain_who.specs.Taken.{is_taken, taken_at};
ghost use Rattle.explain_why.specs.Obstacles.{area_obstacle, cell_obstacle, cell_of, free_obstacle, is_there};
ghost use Rattle.explain_why.specs.Obstacles.{is_no_storage, is_not_in_use, is_used_cell, lacks_room};
ghost use Rattle.explain_why.specs.Obstacles.{obstacle_asked, obstacle_by, obstacle_in, obtain_obstacle};

use bench_core::Bench;
use explain_reasons::deciding_address;
use explain_who::{Taken, cell_at, subpool_at, taken_on};
use macro_reader::Statement;
use storage_core::{Cause, Obtain, PlanRecords, Release, Service, Storage};

/// What keeps a statement from its effect, if an earlier one can have brought it.
#[derive(Clone, Copy)]
pub(crate) enum Obstacle {
    /// Something is taken at the address.
    Taken(u32),
    /// Nothing is.
    Untaken(u32),
    /// The address lies in a cell in use.
    UsedCell(u32),
    /// It lies in a cell that is free.
    FreeCell(u32),
    /// The area has no room.
    NoRoom(Obtain),
}

/// A line that brought an obstacle.
#[derive(Clone, Copy)]
pub(crate) struct Bringer {
    pub line: u32,
    pub obstacle: Obstacle,
}

/// How the storage at an address is taken.
fn taken_at(storage: &Storage, address: u32) -> Taken
    ensures { result ≡ taken_at (state_of storage.now) address }
{
    taken_on(storage, subpool_at(storage, address, None), address)
}

/// Whether an address lies in a cell in use.
fn is_used_cell(taken: &Taken) -> bool
    ensures { result ≡ is_used_cell taken.now }
{
    match taken {
        Taken::UsedCell(_) => true,
        Taken::Unassigned
        | Taken::Free
        | Taken::Obtained(_)
        | Taken::FreeCell(_)
        | Taken::PastCells(_) => false,
    }
}

/// Whether the cause is that there is no storage.
fn is_no_storage(cause: Cause) -> bool
    ensures { result ≡ is_no_storage cause }
{
    matches!(cause, Cause::NoStorage)
}

/// Whether the cause is that a cell isn't in use.
fn is_not_in_use(cause: Cause) -> bool
    ensures { result ≡ is_not_in_use cause }
{
    matches!(cause, Cause::NotInUse)
}

/// Whether there is no room for an area.
fn lacks_room(storage: &Storage, o: Obtain) -> bool
    ensures { result ≡ lacks_room (settings_of storage.now) (state_of storage.now) o }
{
    let mut room = PlanRecords::new();
    let asked = Obtain {
        register: None,
        conditional: false,
        ..o
    };
    match storage.plan(Service::Obtain(asked), false, &mut room) {
        Ok(_) => false,
        Err(cause) => is_no_storage(cause),
    }
}

/// Whether something is taken at an address, in an area or for a cell pool.
fn is_taken(taken: &Taken) -> bool
    ensures { result ≡ is_taken taken.now }
{
    match taken {
        Taken::Unassigned | Taken::Free => false,
        Taken::Obtained(_) | Taken::UsedCell(_) | Taken::FreeCell(_) | Taken::PastCells(_) => true,
    }
}

impl Obstacle {
    /// Whether it's there in a storage.
    pub(crate) fn is_there(&self, storage: &Storage) -> bool
        ensures { result ≡ is_there (settings_of storage.now) self.now (state_of storage.now) }
    {
        match *self {
            Obstacle::Taken(address) => is_taken(&taken_at(storage, address)),
            Obstacle::Untaken(address) => !is_taken(&taken_at(storage, address)),
            Obstacle::UsedCell(address) => is_used_cell(&taken_at(storage, address)),
            Obstacle::FreeCell(address) => !is_used_cell(&taken_at(storage, address)),
            Obstacle::NoRoom(o) => lacks_room(storage, o),
        }
    }
}

/// What is at an address where an area is to be released.
fn area_obstacle(storage: &Storage, address: u32) -> Obstacle
    ensures { result ≡ area_obstacle address (taken_at (state_of storage.now) address) }
{
    if is_taken(&taken_at(storage, address)) {
        Obstacle::Taken(address)
    } else {
        Obstacle::Untaken(address)
    }
}

/// The address of the cell in which an address lies; the address itself if it lies in none.
fn cell_of(storage: &Storage, address: u32) -> u32
    ensures { result ≡ cell_of (state_of storage.now) address }
{
    cell_at(storage, address).unwrap_or(address)
}

/// What is at an address where a cell is to be freed.
fn cell_obstacle(storage: &Storage, address: u32) -> Obstacle
    ensures { result ≡ cell_obstacle (state_of storage.now) address (taken_at (state_of storage.now) address) }
{
    match taken_at(storage, address) {
        Taken::UsedCell(_) => Obstacle::UsedCell(cell_of(storage, address)),
        Taken::FreeCell(_) => Obstacle::FreeCell(cell_of(storage, address)),
        Taken::Unassigned | Taken::Free => Obstacle::Untaken(address),
        Taken::Obtained(_) | Taken::PastCells(_) => Obstacle::Taken(address),
    }
}

/// Of an obtain that is refused for a cause: its area has no room.
fn obtain_obstacle(o: Obtain, cause: Cause) -> Option<Obstacle>
    ensures { result ≡ obtain_obstacle o cause }
{
    if is_no_storage(cause) {
        Some(Obstacle::NoRoom(o))
    } else {
        None
    }
}

/// Of a release that is refused for a cause: what is at the address that decides.
fn release_obstacle(storage: &Storage, r: Release, cause: Cause) -> Option<Obstacle>
    ensures { result ≡ obstacle_in (settings_of storage.now) (state_of storage.now) (release r) cause }
{
    match deciding_address(storage, r, cause) {
        Some(address) => Some(area_obstacle(storage, address)),
        None => None,
    }
}

/// Of a FREE that is refused for a cause: what is at the cell's address.
fn free_obstacle(storage: &Storage, cell: u32, cause: Cause) -> Option<Obstacle>
    ensures { result ≡ free_obstacle (state_of storage.now) cell cause }
{
    if is_not_in_use(cause) {
        Some(cell_obstacle(storage, cell))
    } else {
        None
    }
}

/// What keeps a service from its effect, if it's refused for a cause.
fn obstacle_in(storage: &Storage, service: &Service<'_>, cause: Cause) -> Option<Obstacle>
    ensures { result ≡ obstacle_in (settings_of storage.now) (state_of storage.now) (service_in service.now) cause }
{
    match service {
        Service::Obtain(o) => obtain_obstacle(*o, cause),
        Service::Release(r) => release_obstacle(storage, *r, cause),
        Service::Free { cell, .. } => free_obstacle(storage, *cell, cause),
        Service::Whole { .. }
        | Service::Attach(_)
        | Service::Detach { .. }
        | Service::EndTask
        | Service::Run { .. }
        | Service::Store { .. }
        | Service::Build { .. }
        | Service::Get { .. }
        | Service::Delete { .. } => None,
    }
}

/// The same if it has a cause.
fn obstacle_by(storage: &Storage, service: &Service<'_>, cause: Option<Cause>) -> Option<Obstacle>
    ensures { result ≡ obstacle_by (settings_of storage.now) (state_of storage.now) (service_in service.now) cause }
{
    match cause {
        Some(cause) => obstacle_in(storage, service, cause),
        None => None,
    }
}

/// What keeps a statement that can be written from its effect on a bench, if it's refused.
fn valid_obstacle(bench: &Bench, statement: &Statement) -> Option<Obstacle>
    requires { IsValidAct (act_in statement.now) }
    ensures { result ≡ obstacle_asked (settings_in bench.now) (bench_of bench.now).present (act_in statement.now) }
{
    let mut room = [0; 4];
    let Some(service) = bench.service_of(statement, &mut room) else {
        return None;
    };
    match bench.cause_of(statement) {
        Ok(cause) => obstacle_by(bench.storage(), &service, cause),
        Err(_) => None,
    }
}

/// What keeps a statement from its effect on a bench, if it can be written and is refused.
pub(crate) fn obstacle_of(bench: &Bench, statement: &Statement) -> Option<Obstacle>
    ensures { IsValidAct (act_in statement.now) → result
        ≡ obstacle_asked (settings_in bench.now) (bench_of bench.now).present (act_in statement.now) }
{
    if statement.valid() {
        valid_obstacle(bench, statement)
    } else {
        None
    }
}
