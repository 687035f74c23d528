//! Help: what it says of the options, and of everything else after that; and the version.
ghost use Rattle.std.specs.Prelude.{◌≡◌, ◌++◌};
ghost use Rattle.text_output.specs.Writing.{Writes};
ghost use Rattle.vsm_bench.specs.Command.{Helped, Versioned};
ghost use Rattle.vsm_bench.specs.Help.{help_end, version_text};

use crate::messages::write_text;
use clap::Error;
use script_steps::{NewFault, RunFault};
use std::alloc::Global;
use std::io;
use std::io::Write;
use text_output::Gathered;

const AFTER_THE_OPTIONS: &str = "
The low region is below the 16 MB line, the high region above it. LOC=31 or ANY asks for an area in the high region,
or in the low one if that has no room. LOC=RES, the default, follows --residence: 24 is below the line, 31 either side.

See vsm-statements(5) for scripts and vsm-messages(7) for output: manual pages made from STATEMENTS.md and MESSAGES.md.

Exit status:
   0  no statement was refused, or help was asked for
   4  at least one line is FAULT, REFUSED or ABEND
   8  the script can't be read, the output can't be written, or the script is too long
  16  a wrong command line, settings out of their limits, or no memory

Example: if the file example.vsm has these lines, each after a blank,

   STORAGE OBTAIN,LENGTH=100,SP=1
   STORAGE RELEASE,LENGTH=40,ADDR=X'6000',SP=1
   BACK 1

'vsm --low 128 example.vsm' prints

  0000001 RC=0 A=00006000 L=00000068
  0000002 RC=0
  0000003 KEPT=1

nilbozad 0.1.0 (rattle logic dac8208d650f15bf)
";

/// Help's end, which follows what it says of the options.
fn help_end() -> &'static str
    ensures { result.now ≡ help_end }
{
    AFTER_THE_OPTIONS
}

/// Writes what is said of the options, and help's end; or a prefix of that, if a write fails.
fn write_both<O: Write>(output: &mut O, options: &str) -> io::Result<()>
    ensures { Writes (O.contents output.old) (O.contents output.new) (options.now ++ help_end) result }
{
    let mut gathered = Gathered::new();
    gathered.put(output, options.as_bytes());
    gathered.put(output, help_end().as_bytes());
    gathered.finish(output)
}

/// Writes help. `Write` if a write fails, with a prefix of it written; `New` if there is no memory to begin with.
pub(crate) fn write_help<O: Write>(
    alloc: Global,
    options: &Error,
    output: &mut O,
) -> Result<(), RunFault>
    ensures { Helped (O.contents output.old) (O.contents output.new) result }
{
    let Ok(text) = options.to_string(alloc) else {
        return Err(RunFault::New(NewFault::NoMemory));
    };
    match write_both(output, text.as_str()) {
        Ok(()) => Ok(()),
        Err(_) => Err(RunFault::Write),
    }
}

/// The version of the program, and the logic that it's proved in, in one line.
pub(crate) fn version_line() -> &'static str
    ensures { result.now ≡ version_text }
{
    "vsm 0.1.0 (rattle logic dac8208d650f15bf)\n"
}

/// Writes the version. `Write` if a write fails, with a prefix of it written.
pub(crate) fn write_version<O: Write>(output: &mut O) -> Result<(), RunFault>
    ensures { Versioned (O.contents output.old) (O.contents output.new) result }
{
    match write_text(output, version_line()) {
        Ok(()) => Ok(()),
        Err(_) => Err(RunFault::Write),
    }
}
