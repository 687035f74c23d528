//! The whole map of a storage, and the line of its history.
ghost use Rattle.storage_map.specs.Lines.{bytes_text, pages_text};
ghost use Rattle.vsm_model.specs.Map.{history_line, storage_map};
ghost use Rattle.storage_core.specs.Meaning.{state_of, settings_of};
ghost use Rattle.text_output.specs.Writing.{Puts, Writes};

use crate::cells::put_cell_pools;
use crate::counts::Totals;
use crate::fields::put_field;
use crate::subpools::put_subpools;
use crate::sums::totals;
use crate::tasks::put_tasks;
use std::io;
use std::io::Write;
use storage_changes::maps::subpools_are_shown;
use storage_core::Storage;
use text_output::Gathered;

/// Puts the line of the pages.
#[tactic(auto, using(text_output::proofs::Gathering::puts_both))]
fn put_pages<W: Write>(gathered: &mut Gathered, writer: &mut W, totals: Totals)
    ensures { Puts (W.contents writer.old) (W.contents writer.new) gathered.old gathered.new (pages_text totals) }
{
    put_field(gathered, writer, b" PAGES LOW", u64::from(totals.low_pages));
    put_field(gathered, writer, b" OF", u64::from(totals.low_size));
    put_field(gathered, writer, b" HIGH", u64::from(totals.high_pages));
    put_field(gathered, writer, b" OF", u64::from(totals.high_size));
    gathered.put(writer, b"\n");
}

/// Puts the line of the bytes.
#[tactic(auto, using(text_output::proofs::Gathering::puts_both))]
fn put_bytes<W: Write>(gathered: &mut Gathered, writer: &mut W, totals: Totals)
    ensures { Puts (W.contents writer.old) (W.contents writer.new) gathered.old gathered.new (bytes_text totals) }
{
    put_field(gathered, writer, b" BYTES TAKEN", totals.taken);
    put_field(gathered, writer, b" FREE", totals.free);
    gathered.put(writer, b"\n");
}

/// Puts the map of a storage: tasks ascending with their registers, subpools by number and owner with their sharers,
/// extents and free areas (z/OS MVS Programming: Assembler Services Guide, "Subpool handling"), cell pools by name with
/// their extents and free cells (Assembler Services Reference, CPOOL), and the totals of pages and bytes. Takes no
/// memory.
pub fn put_map<W: Write>(gathered: &mut Gathered, writer: &mut W, storage: &Storage)
    ensures { Puts (W.contents writer.old) (W.contents writer.new) gathered.old gathered.new
        (storage_map (settings_of storage.now) (state_of storage.now)) }
{
    subpools_are_shown();
    put_tasks(gathered, writer, storage);
    put_subpools(gathered, writer, storage);
    put_cell_pools(gathered, writer, storage);
    let totals = totals(storage);
    put_pages(gathered, writer, totals);
    put_bytes(gathered, writer, totals);
}

/// Puts the line of a history: how many changes are kept, and how many can be.
#[tactic(auto, using(text_output::proofs::Gathering::puts_both))]
pub fn put_history<W: Write>(gathered: &mut Gathered, writer: &mut W, kept: u32, limit: u32)
    ensures { Puts (W.contents writer.old) (W.contents writer.new) gathered.old gathered.new
        (history_line kept limit) }
{
    put_field(gathered, writer, b" HISTORY KEPT", u64::from(kept));
    put_field(gathered, writer, b" OF", u64::from(limit));
    gathered.put(writer, b"\n");
}

/// Writes the map of a storage. After a fault what was written is a prefix of the text; a writer that takes nothing
/// gives an error of the kind `WriteZero`. Takes no memory.
pub fn write_map<W: Write>(storage: &Storage, writer: &mut W) -> Result<(), io::Error>
    ensures { Writes (W.contents writer.old) (W.contents writer.new)
        (storage_map (settings_of storage.now) (state_of storage.now)) result }
{
    let mut gathered = Gathered::new();
    put_map(&mut gathered, writer, storage);
    gathered.finish(writer)
}

/// Writes the line of a history: how many changes are kept, and how many can be. Faults are those of `write_map`.
pub fn write_history<W: Write>(kept: u32, limit: u32, writer: &mut W) -> Result<(), io::Error>
    ensures { Writes (W.contents writer.old) (W.contents writer.new) (history_line kept limit) result }
{
    let mut gathered = Gathered::new();
    put_history(&mut gathered, writer, kept, limit);
    gathered.finish(writer)
}
