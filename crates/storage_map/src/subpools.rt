//! The lines of subpools: owner and sharers, extents and free areas.
ghost use Rattle.std.specs.Prelude.{◌≡◌, flat_map, true};
ghost use Rattle.subpool_storage.specs.Order.{subpools_in_order};
ghost use Rattle.subpool_storage.specs.Subpools.{is_there};
ghost use Rattle.storage_core.specs.Meaning.{state_in_place, state_of, settings_of};
ghost use Rattle.storage_map.specs.Found.{IsFound};
ghost use Rattle.storage_map.specs.Lines.{sharer_text, subpool_line};
ghost use Rattle.vsm_model.specs.Map.{listed, sharers, subpool_lines};
ghost use Rattle.text_output.specs.Writing.{Puts};

use crate::areas::{put_extents, put_free_areas};
use crate::fields::put_field;
use std::io::Write;
use storage_changes::maps::{runs_are_shown, subpools_are_shown};
use storage_core::{Storage, Subpool, SubpoolPlace};
use text_output::{Gathered, put_decimal};

/// A subpool that a walk found, and the place after it.
#[derive(Clone, Copy)]
pub(crate) struct FoundSubpool {
    subpool: Subpool,
    behind: SubpoolPlace,
}

/// Puts a comma and a task.
#[tactic(auto, using(text_output::proofs::Gathering::puts_both))]
fn put_sharer<W: Write>(gathered: &mut Gathered, writer: &mut W, task: u8)
    ensures { Puts (W.contents writer.old) (W.contents writer.new) gathered.old gathered.new (sharer_text task) }
{
    gathered.put(writer, b",");
    put_decimal(gathered, writer, u64::from(task));
}

/// Puts the tasks that see the subpool without owning it, with commas between, or NONE.
fn put_sharers<W: Write>(
    gathered: &mut Gathered,
    writer: &mut W,
    storage: &Storage,
    subpool: Subpool,
)
    ensures { Puts (W.contents writer.old) (W.contents writer.new) gathered.old gathered.new
        (listed (sharers (state_of storage.now) subpool.number subpool.owner)) }
{
    subpools_are_shown();
    let front = Storage::first_sharer_place();
    let Some((first, second)) = storage.next_sharer(subpool, front) else {
        gathered.put(writer, b"NONE");
        return;
    };
    put_decimal(gathered, writer, u64::from(first));
    let mut place = second;
    while let Some((task, behind)) = storage.next_sharer(subpool, place) {
        put_sharer(gathered, writer, task);
        place = behind;
    }
}

/// Puts the first line of the subpool.
#[tactic(auto, using(text_output::proofs::Gathering::puts_both))]
fn put_subpool_line<W: Write>(
    gathered: &mut Gathered,
    writer: &mut W,
    storage: &Storage,
    found: FoundSubpool,
)
    requires { IsFound storage.now found }
    ensures { Puts (W.contents writer.old) (W.contents writer.new) gathered.old gathered.new
        (subpool_line (state_of storage.now) found.subpool) }
{
    put_field(
        gathered,
        writer,
        b" SUBPOOL",
        u64::from(found.subpool.number),
    );
    put_field(gathered, writer, b" OWNER", u64::from(found.subpool.owner));
    gathered.put(writer, b" SHARERS ");
    put_sharers(gathered, writer, storage, found.subpool);
    gathered.put(writer, b"\n");
}

/// Puts the lines of the subpool.
fn put_subpool<W: Write>(
    gathered: &mut Gathered,
    writer: &mut W,
    storage: &Storage,
    found: FoundSubpool,
)
    requires there { is_there (state_in_place storage.now).subpools found.subpool ≡ true }
    requires found { IsFound storage.now found }
    ensures { Puts (W.contents writer.old) (W.contents writer.new) gathered.old gathered.new
        (subpool_lines (settings_of storage.now) (state_of storage.now) found.subpool.number found.subpool.owner) }
{
    runs_are_shown();
    put_subpool_line(gathered, writer, storage, found);
    put_extents(gathered, writer, storage, found.behind);
    put_free_areas(gathered, writer, storage, found.behind);
}

/// Puts the lines of all subpools, by number and then by owner.
pub(crate) fn put_subpools<W: Write>(gathered: &mut Gathered, writer: &mut W, storage: &Storage)
    ensures { Puts (W.contents writer.old) (W.contents writer.new) gathered.old gathered.new
        (flat_map (λ p. subpool_lines (settings_of storage.now) (state_of storage.now) p.number p.owner)
        (subpools_in_order (state_in_place storage.now).subpools)) }
{
    let mut place = Storage::first_subpool_place();
    while let Some((subpool, behind)) = storage.next_subpool(place) {
        put_subpool(gathered, writer, storage, FoundSubpool { subpool, behind });
        place = behind;
    }
}
