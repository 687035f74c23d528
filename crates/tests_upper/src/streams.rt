//! Readers and writers that are slow, and that fail in mid-stream.

use crate::checks::{holds, is_begun, same};
use crate::running::outcome_of;
use std::alloc::Global;
use std::io;
use std::io::{Read, Write};
use std::process::Abort;
use std::test::Fail;
use vsm_bench::{Bench, DEFAULT_SETTINGS, RunFault, run};

const SCRIPT: &[u8] = b" STORAGE OBTAIN,LENGTH=8,SP=1
* a comment
 BACK 9
 FOO
 BACK 1
 FORWARD 1
 MAP
 POKE (1),                                                             X
               X'C1C2'
 PEEK (1),3";

const OUTPUT: &[u8] = b"0000001 RC=0 A=00006000 L=00000008
0000003 REFUSED KEPT=1
0000004 FAULT OPERATION
0000005 KEPT=0
0000006 KEPT=1
0000007 MAP
 TASK 1 PARENT 0 CURRENT
  R0 00000000 00006000 00000000 00000000 00000000 00000000 00000000 00000000
  R8 00000000 00000000 00000000 00000000 00000000 00000000 00000000 00000000
 SUBPOOL 0 OWNER 1 SHARERS NONE
 SUBPOOL 1 OWNER 1 SHARERS NONE
  EXTENT 00006000 00001000
  FREE 00006008 00000FF8
 PAGES LOW 1 OF 16 HIGH 0 OF 16
 BYTES TAKEN 8 FREE 4088
 HISTORY KEPT 1 OF 1024
0000008 OK
0000010 D=C1C200
";

/// The map of a new bench.
const FIRST_MAP: &[u8] = b" TASK 1 PARENT 0 CURRENT
  R0 00000000 00000000 00000000 00000000 00000000 00000000 00000000 00000000
  R8 00000000 00000000 00000000 00000000 00000000 00000000 00000000 00000000
 SUBPOOL 0 OWNER 1 SHARERS NONE
 PAGES LOW 0 OF 16 HIGH 0 OF 16
 BYTES TAKEN 0 FREE 0
 HISTORY KEPT 0 OF 1024
";

/// A reader that gives one byte a call, and then an error.
#[derive(Drop)]
struct Slow<'a> {
    bytes: &'a [u8],
}

impl<'a> Read for Slow<'a> {
    fn read(&mut self, buf: &mut [u8]) -> io::Result<usize> {
        if buf.is_empty() {
            return Ok(0);
        }
        if let Some((first, rest)) = self.bytes.split_first() {
            buf[0] = *first;
            self.bytes = rest;
            return Ok(1);
        }
        Err(io::Error::from(io::ErrorKind::Other))
    }
}

/// A writer that takes one byte a call until its room is full, and then takes none or fails.
#[derive(Drop)]
struct Narrow {
    bytes: Vec<u8>,
    room: usize,
    fails: bool,
}

impl Write for Narrow {
    fn write(&mut self, buf: &[u8]) -> io::Result<usize> {
        if buf.is_empty() {
            return Ok(0);
        }
        if self.bytes.len() < self.room {
            self.bytes.push(buf[0])?;
            return Ok(1);
        }
        if self.fails {
            return Err(io::Error::from(io::ErrorKind::Other));
        }
        Ok(0)
    }

    fn flush(&mut self) -> io::Result<()> {
        Ok(())
    }
}

impl Narrow {
    fn with_room(alloc: Global, room: usize, fails: bool) -> Narrow {
        Narrow {
            bytes: Vec::new(alloc),
            room,
            fails,
        }
    }
}

#[test]
fn a_read_error_leaves_the_answers_of_whole_lines(rt: HostRuntime) -> Result<(), Fail> {
    // The last line has no line feed, so it isn't known to be whole.
    let mut reader = Slow {
        bytes: b" BACK 0\n BACK 0",
    };
    let mut output = Vec::new(rt.alloc());
    let totals = run(rt.alloc(), &mut reader, &mut output, DEFAULT_SETTINGS);
    holds!(rt; totals == Err(RunFault::Read));
    same!(rt; output.as_slice(), b"0000001 KEPT=0\n".as_slice());
    Ok(())
}

#[test]
fn a_read_error_has_its_text_and_status(rt: HostRuntime) -> Result<(), Fail> {
    let mut reader = Slow { bytes: SCRIPT };
    let mut output = Vec::new(rt.alloc());
    outcome_of(&rt, &[], &mut reader, &mut output)?.is_fault(&rt, b"vsm: read\n");
    Ok(())
}

/// The run of a writer with room for this many bytes ends when it is full.
fn fill_up(rt: &impl Abort, alloc: Global, room: usize, fails: bool) {
    let mut writer = Narrow::with_room(alloc, room, fails);
    let totals = run(alloc, &mut SCRIPT, &mut writer, DEFAULT_SETTINGS);
    is_begun(rt, writer.bytes.as_slice(), OUTPUT, room);
    holds!(rt; totals == Err(RunFault::Write));
}

#[test]
fn a_writer_that_is_full_ends_the_run(rt: HostRuntime) -> Result<(), Fail> {
    for fails in [false, true] {
        for room in 0..OUTPUT.len() {
            fill_up(&rt, rt.alloc(), room, fails);
        }
    }
    Ok(())
}

#[test]
fn a_map_is_written_byte_by_byte(rt: HostRuntime) -> Result<(), Fail> {
    let bench = Bench::new(rt.alloc(), DEFAULT_SETTINGS)?;
    let mut writer = Narrow::with_room(rt.alloc(), FIRST_MAP.len(), true);
    bench.write_map(&mut writer)?;
    same!(rt; writer.bytes.as_slice(), FIRST_MAP);
    Ok(())
}

/// Why the map isn't written.
fn map_error(bench: &Bench, writer: &mut Narrow) -> Option<io::ErrorKind> {
    match bench.write_map(writer) {
        Ok(()) => None,
        Err(error) => Some(error.kind()),
    }
}

/// The map is written as far as there is room for it.
fn cut_off(rt: &impl Abort, alloc: Global, bench: &Bench, room: usize, fails: bool) {
    let mut writer = Narrow::with_room(alloc, room, fails);
    let error = map_error(bench, &mut writer);
    is_begun(rt, writer.bytes.as_slice(), FIRST_MAP, room);
    let wanted = if fails {
        io::ErrorKind::Other
    } else {
        io::ErrorKind::WriteZero
    };
    same!(rt; error, Some(wanted));
}

#[test]
fn a_map_goes_out_as_far_as_the_writer_takes_it(rt: HostRuntime) -> Result<(), Fail> {
    let bench = Bench::new(rt.alloc(), DEFAULT_SETTINGS)?;
    for fails in [false, true] {
        for room in 0..FIRST_MAP.len() {
            cut_off(&rt, rt.alloc(), &bench, room, fails);
        }
    }
    Ok(())
}

#[test]
fn a_write_error_has_its_text_and_status(rt: HostRuntime) -> Result<(), Fail> {
    let mut writer = Narrow::with_room(rt.alloc(), 9, false);
    outcome_of(&rt, &[], &mut SCRIPT, &mut writer)?.is_fault(&rt, b"vsm: write\n");
    same!(rt; writer.bytes.as_slice(), b"0000001 R".as_slice());
    Ok(())
}

#[test]
fn help_that_is_cut_off_is_a_write_error(rt: HostRuntime) -> Result<(), Fail> {
    for fails in [false, true] {
        let mut writer = Narrow::with_room(rt.alloc(), 13, fails);
        outcome_of(&rt, &["--help"], &mut SCRIPT, &mut writer)?.is_fault(&rt, b"vsm: write\n");
        same!(rt; writer.bytes.as_slice(), b"Runs a script".as_slice());
    }
    Ok(())
}

/// A reader that gives one byte a call, fails once after this many, and then goes on.
#[derive(Drop)]
struct StumblingReader<'a> {
    bytes: &'a [u8],
    until: usize,
    kind: io::ErrorKind,
}

impl<'a> Read for StumblingReader<'a> {
    fn read(&mut self, buf: &mut [u8]) -> io::Result<usize> {
        if buf.is_empty() {
            return Ok(0);
        }
        if self.until == 0 {
            self.until = usize::MAX;
            return Err(io::Error::from(self.kind));
        }
        self.until -= 1;
        let Some((first, rest)) = self.bytes.split_first() else {
            return Ok(0);
        };
        buf[0] = *first;
        self.bytes = rest;
        Ok(1)
    }
}

/// A writer that takes one byte a call, fails once after this many, and then goes on.
#[derive(Drop)]
struct StumblingWriter {
    bytes: Vec<u8>,
    until: usize,
    kind: io::ErrorKind,
}

impl Write for StumblingWriter {
    fn write(&mut self, buf: &[u8]) -> io::Result<usize> {
        if buf.is_empty() {
            return Ok(0);
        }
        if self.until == 0 {
            self.until = usize::MAX;
            return Err(io::Error::from(self.kind));
        }
        self.until -= 1;
        self.bytes.push(buf[0])?;
        Ok(1)
    }

    fn flush(&mut self) -> io::Result<()> {
        Ok(())
    }
}

#[test]
fn a_read_that_fails_once_ends_the_run(rt: HostRuntime) -> Result<(), Fail> {
    for kind in [io::ErrorKind::Other, io::ErrorKind::Interrupted] {
        let mut reader = StumblingReader {
            bytes: SCRIPT,
            until: 40,
            kind,
        };
        let mut output = Vec::new(rt.alloc());
        let totals = run(rt.alloc(), &mut reader, &mut output, DEFAULT_SETTINGS);
        holds!(rt; totals == Err(RunFault::Read));
        is_begun(&rt, output.as_slice(), OUTPUT, 35);
    }
    Ok(())
}

#[test]
fn a_write_that_fails_once_ends_the_run(rt: HostRuntime) -> Result<(), Fail> {
    for kind in [io::ErrorKind::Other, io::ErrorKind::Interrupted] {
        let mut writer = StumblingWriter {
            bytes: Vec::new(rt.alloc()),
            until: 40,
            kind,
        };
        let totals = run(rt.alloc(), &mut SCRIPT, &mut writer, DEFAULT_SETTINGS);
        holds!(rt; totals == Err(RunFault::Write));
        is_begun(&rt, writer.bytes.as_slice(), OUTPUT, 40);
    }
    Ok(())
}
