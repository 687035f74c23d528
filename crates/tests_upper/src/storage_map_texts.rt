//! The map of a new storage and the line of a history, byte by byte, and writers that take nothing.

use crate::checks::same;
use std::alloc::Global;
use std::io;
use std::io::{ErrorKind, Write};
use std::process::Abort;
use std::test::Fail;
use storage_core::{Residence, Settings, Storage};
use storage_map::{write_history, write_map};

const SETTINGS: Settings = Settings {
    low_k: 64,
    high_k: 128,
    residence: Residence::Above,
    history: 10,
};

const MAP: &[u8] = b" TASK 1 PARENT 0 CURRENT
  R0 00000000 00000000 00000000 00000000 00000000 00000000 00000000 00000000
  R8 00000000 00000000 00000000 00000000 00000000 00000000 00000000 00000000
 SUBPOOL 0 OWNER 1 SHARERS NONE
 PAGES LOW 0 OF 16 HIGH 0 OF 32
 BYTES TAKEN 0 FREE 0
";

/// A writer that takes this many bytes, one a call, and then nothing.
#[derive(Drop)]
struct Narrow {
    bytes: Vec<u8>,
    room: usize,
}

impl Narrow {
    fn with_room(alloc: Global, room: usize) -> Narrow {
        Narrow {
            bytes: Vec::new(alloc),
            room,
        }
    }
}

impl Write for Narrow {
    fn write(&mut self, buf: &[u8]) -> io::Result<usize> {
        if buf.is_empty() || self.bytes.len() >= self.room {
            return Ok(0);
        }
        self.bytes.push(buf[0])?;
        Ok(1)
    }

    fn flush(&mut self) -> io::Result<()> {
        Ok(())
    }
}

#[test]
fn the_history_has_this_line(rt: HostRuntime) -> Result<(), Fail> {
    let mut output = Vec::new(rt.alloc());
    write_history(3, 10, &mut output)?;
    same!(rt; output.as_slice(), b" HISTORY KEPT 3 OF 10\n".as_slice());
    Ok(())
}

// Why the map isn't written.
fn map_error(storage: &Storage, writer: &mut Narrow) -> Option<ErrorKind> {
    match write_map(storage, writer) {
        Ok(()) => None,
        Err(error) => Some(error.kind()),
    }
}

// The map of a new storage is written as far as there is room for it.
fn cut_off(rt: &impl Abort, alloc: Global, storage: &Storage, room: usize) {
    let mut writer = Narrow::with_room(alloc, room);
    same!(rt; map_error(storage, &mut writer), Some(ErrorKind::WriteZero));
    same!(rt; Some(writer.bytes.as_slice()), MAP.get(..room));
}

#[test]
fn a_writer_that_takes_no_more_is_answered_by_an_error(rt: HostRuntime) -> Result<(), Fail> {
    let storage = Storage::new(rt.alloc(), SETTINGS)?;
    for room in [0, 1, 100] {
        cut_off(&rt, rt.alloc(), &storage, room);
    }
    let mut writer = Narrow::with_room(rt.alloc(), MAP.len());
    same!(rt; map_error(&storage, &mut writer), None);
    same!(rt; writer.bytes.as_slice(), MAP);
    Ok(())
}
