//! The map of a bench.
ghost use Rattle.std.specs.Prelude.{◌++◌, codes, length};
ghost use Rattle.vsm_machine.specs.NameTable.{rows_of};
ghost use Rattle.vsm_model.specs.Map.{hex_field, line, map_text, name_lines};
ghost use Rattle.bench_core.specs.Stands.{bench_of, settings_in};
ghost use Rattle.text_output.specs.Writing.{Puts, Writes};

use crate::bench::Bench;
use std::io;
use std::io::Write;
use storage_map as maps;
use text_output::{Gathered, put_hexadecimal};
use vsm_machine::{Name, NameTable};

/// Puts the line of a name: what it's called, and the word that it stands for in hexadecimal digits.
#[tactic(auto, using(text_output::proofs::Gathering::puts_both))]
fn put_name<W: Write>(gathered: &mut Gathered, writer: &mut W, row: (Name, u32))
    ensures { Puts (W.contents writer.old) (W.contents writer.new) gathered.old gathered.new
        (line (codes " NAME " ++ row.0.bytes ++ hex_field row.1)) }
{
    gathered.put(writer, b" NAME ");
    gathered.put(writer, row.0.as_bytes());
    gathered.put(writer, b" ");
    put_hexadecimal(gathered, writer, 8, row.1);
    gathered.put(writer, b"\n");
}

/// Puts a line for each defined name, in the order in which they were defined.
fn put_names<W: Write>(gathered: &mut Gathered, writer: &mut W, names: &NameTable)
    ensures { Puts (W.contents writer.old) (W.contents writer.new) gathered.old gathered.new
        (name_lines (rows_of names.now)) }
{
    let mut index = 0;
    while let Some(row) = names.name_at(index) {
        put_name(gathered, writer, row);
        index += 1;
    }
}

impl Bench {
    /// Puts the map of the bench as it is: that of its storage, the defined names with their words, and how many
    /// changes are kept. Takes no memory.
    pub fn put_map<W: Write>(&self, gathered: &mut Gathered, writer: &mut W)
        ensures { Puts (W.contents writer.old) (W.contents writer.new) gathered.old gathered.new
            (map_text (settings_in self.now) (bench_of self.now).present (length (bench_of self.now).past)) }
    {
        let storage = &self.machine.storage;
        maps::put_map(gathered, writer, storage);
        put_names(gathered, writer, &self.machine.names);
        maps::put_history(gathered, writer, self.kept(), storage.settings().history);
    }

    /// Writes the map of the bench as it is. After a fault what was written is a prefix of the text; a writer that
    /// takes nothing gives an error of the kind `WriteZero`. Takes no memory.
    ///
    /// ```
    /// let bench = Bench::new(rt.alloc(), DEFAULT_SETTINGS)?;
    /// let mut map = Vec::new(rt.alloc());
    /// assert!(rt; bench.write_map(&mut map).is_ok());
    /// assert!(rt; map.as_slice().starts_with(b" TASK 1 PARENT 0 CURRENT\n"));
    /// ```
    pub fn write_map<W: Write>(&self, writer: &mut W) -> Result<(), io::Error>
        ensures { Writes (W.contents writer.old) (W.contents writer.new)
            (map_text (settings_in self.now) (bench_of self.now).present (length (bench_of self.now).past)) result }
    {
        let mut gathered = Gathered::new();
        self.put_map(&mut gathered, writer);
        gathered.finish(writer)
    }
}
