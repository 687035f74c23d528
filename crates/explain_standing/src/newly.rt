//! What a service took, by its reply.
ghost use Rattle.std.specs.Prelude.{◌≡◌};
ghost use Rattle.explain_standing.specs.Newly.{grown, run_of, taken_by};

use arrayvec::ArrayVec;
use vsm_model::Reply;

/// The run of doublewords that are taken after a service and weren't before: the first of them and how many there are,
/// or none.
pub type TakenRun = ArrayVec<(u32, u32), 1>;

/// This many doublewords from the first on, or none.
fn run_of(first: u32, count: u32) -> TakenRun
    ensures { result.items ≡ run_of first count }
{
    let mut run = ArrayVec::new();
    if count > 0 {
        run.try_push((first, count)).unwrap();
    }
    run
}

/// By how many doublewords the taken bytes grew.
fn grown(before: u64, after: u64) -> u32
    ensures { result ≡ grown before after }
{
    (after.saturating_sub(before) / 8).min(u64::from(u32::MAX)) as u32
}

/// What a service with this reply took, by the taken bytes before and after it.
pub fn taken_by(reply: Reply, before: u64, after: u64) -> TakenRun
    ensures { result.items ≡ taken_by reply before after }
{
    match reply {
        Reply::Obtained { address, length } => run_of(address / 8, length / 8),
        Reply::Cell(address) => run_of(address / 8, grown(before, after)),
        Reply::Returned(_) | Reply::Attached(_) | Reply::Turn(_) | Reply::Stored => ArrayVec::new(),
    }
}
