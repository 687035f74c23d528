//! The texts of help.

/// What `--version` prints after the program's name: the version, and the kit.
pub(crate) const VERSION: &str = "0.1.0 (rattle logic dac8208d650f15bf)";

pub(crate) const ABOUT: &str =
    "Explains a script of vsm: where its mistakes are, why it's answered so, how much storage is left, and \
        who changed what.";

pub(crate) const AFTER: &str =
    "'vsm-explain COMMAND --help' lists the arguments of a command, with an example. Give the options of vsm after the
command's name: the script runs under them. EXPLAIN.md has a worked hunt for each command, vsm(1) the options,
vsm-statements(5) the statements of a script, vsm-messages(7) the answers.

Exit status:
   0  the question was answered
   4  check, list: at least one line is FAULT, REFUSED or ABEND, or was not carried out; check: at least one is OUTSIDE
      or STALE or, with --leaks, LEFT; why: the line's answer is FAULT, REFUSED or ABEND
   8  the script can't be read, is empty or too long, or the output can't be written
  16  a wrong argument; a missing line, task or name; settings out of their limits; or no memory
";

pub(crate) const CHECK_ABOUT: &str = "Says what is wrong with a script, a line for each place.";

pub(crate) const CHECK_AFTER: &str =
    "Prints FILE:LINE:COLUMN: WORD: text, as compilers do, so that an editor can go there; COLUMN counts bytes. WORD is
that of a FAULT, ABEND or REFUSED with the reason, WARNING, or NOT CARRIED OUT; or of a statement that is answered
well: OUTSIDE (bytes outside of their area or cell), STALE (a name whose area or cell has ended), PART (a release that
isn't of one area), UNSET (a byte is read that nothing stored since its area or cell was obtained), or, with --leaks,
LEFT (an area or a cell that the script leaves taken). RC=4 isn't wrong.

Example: if the file example.vsm has ' STORAGE OBTAIN,LENGHT=8', 'vsm-explain check example.vsm' prints
'example.vsm:1:17: OPERAND: no operand of STORAGE OBTAIN; LENGTH?'.
";

pub(crate) const LIST_ABOUT: &str =
    "Lists a script with its answers, and shows where each mistake is.";

pub(crate) const LIST_AFTER: &str =
    "Lists numbered lines; each statement is followed by its answer and, in brackets, the number of kept changes;
what was expected appears under the first wrong operand. 'x' marks a line that was not carried out. A point is shown for
each byte that isn't a printing character.

Example: 'vsm-explain list --refused example.vsm' lists only the statements that weren't accepted.
";

pub(crate) const WHY_ABOUT: &str =
    "Says why a line was answered as it was, or what an answer means.";

pub(crate) const WHY_AFTER: &str =
    "LINE is any line of a statement. Without LINE, FILE is an answer: S878, U3008, RC=4, FAULT VALUE, REFUSED NAME.

Examples: 'vsm-explain why example.vsm 85' lists for line 85 which places the rules looked at, in order;
'vsm-explain why S878' prints what vsm-messages(7) says of S878.
";

pub(crate) const REPORT_ABOUT: &str = "Reports what is left of the storage, and in what pieces.";

pub(crate) const REPORT_AFTER: &str =
    "For each subpool: its owner, its pages, bytes taken and free, how many free areas, the largest and where,
and how fragmented the free storage is. For each side of the 16 MB line: unassigned pages, their runs, the longest.

Examples: 'vsm-explain report example.vsm 40' shows what was left after the statement of line 40;
'vsm-explain report --areas example.vsm 40' lists each area that is taken then, and the line that obtained it;
'vsm-explain report --areas --since 40 example.vsm' lists at the end what later lines obtained;
'vsm-explain report --cells --pool CP example.vsm' lists the cells of CP that are in use, and the lines that got them;
'vsm-explain report --over-time example.vsm > rows.csv' makes a row of CSV for each statement.
";

pub(crate) const WHO_ABOUT: &str =
    "Names the lines that changed something, newest first, with what was there before \
        and after.";

pub(crate) const WHO_AFTER: &str =
    "ADDRESS and N are numbers as in a script: 24582 or X'6006'. ADDRESS is also hexadecimal in eight digits, as answers
print it, and after 0x; or it's a name, whose word it is at the end of the script. Ask for one thing: N bytes at
ADDRESS, or one option. The first line of the answer says what was asked for. Of ADDRESS, it's the lines that stored
there, and those that obtained, released or handed out that storage.

Examples, as a shell takes them:
  vsm-explain who example.vsm 00006006 2     names the lines that changed the two bytes there, or their storage,
  vsm-explain who example.vsm TABLE          those of the address that TABLE has,
  vsm-explain who --register 3 example.vsm   those that changed register 3 of task 1.
";
