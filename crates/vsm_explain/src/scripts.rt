//! Scripts, read whole.

ghost use Rattle.std.specs.Prelude.{◌≡◌, IfErr, IfOk};
ghost use Rattle.vsm_explain.specs.Scripts.{IsScript, IsUnread, IsUnreadFile, OfFile, has_zero};

use memchr::memchr;
use std::alloc::Global;
use std::io;
use std::io::Read;
use vsm_bench::ScriptFiles;

/// The most bytes of a script: 256 for each of the lines that it may have.
const MOST_BYTES: u64 = 268_435_456;

/// Why a script can't be explained.
#[derive(Clone, Copy)]
pub(crate) enum Unread {
    /// It can't be opened or read; this is the system's message.
    Read(io::Error),
    /// It's empty.
    Empty,
    /// It has more bytes than can be explained.
    TooLong,
    /// It has a byte X'00', so it isn't text.
    Binary,
}

/// Whether a script has a byte X'00'.
fn has_zero(script: &[u8]) -> bool
    ensures { result ≡ has_zero script.now }
{
    memchr(0, script).is_some()
}

/// All that a reader has left, if that is a script. In one that is listed a byte may be X'00'.
pub(crate) fn read_whole<S: Read>(
    alloc: Global,
    listed: bool,
    script: &mut S,
) -> Result<Vec<u8>, Unread>
    ensures script { IfOk result (λ bytes. IsScript listed (S.remaining script.old) bytes.items) }
    ensures unread { IfErr result (IsUnread listed (S.remaining script.old)) }
{
    let mut bytes = Vec::new(alloc);
    let mut limited = script.take(MOST_BYTES + 1);
    match limited.read_to_end(&mut bytes) {
        Err(error) => Err(Unread::Read(error)),
        Ok(_) if bytes.is_empty() => Err(Unread::Empty),
        Ok(_) if bytes.len() as u64 > MOST_BYTES => Err(Unread::TooLong),
        Ok(_) if !listed && has_zero(bytes.as_slice()) => Err(Unread::Binary),
        Ok(_) => Ok(bytes),
    }
}

/// The script at a path.
pub(crate) fn read_file<R: ScriptFiles>(
    rt: &R,
    alloc: Global,
    listed: bool,
    path: &str,
) -> Result<Vec<u8>, Unread>
    ensures script { IfOk result (λ bytes. OfFile (R.opened rt.now) (R.Script.remaining)
        (λ left. IsScript listed left bytes.items) path.now) }
    ensures unread { IfErr result (IsUnreadFile (R.opened rt.now) (R.Script.remaining) listed path.now) }
{
    match rt.open_script(path) {
        Ok(mut script) => read_whole(alloc, listed, &mut script),
        Err(error) => Err(Unread::Read(error)),
    }
}

/// The most lines of a script.
pub(crate) const MOST_LINES: u32 = 1_048_576;

/// The most bytes of a line.
pub(crate) const MOST_COLUMNS: usize = 65_536;

/// What a script has too much of.
#[derive(Clone, Copy)]
pub(crate) enum Excess {
    /// It has too many lines.
    Lines,
    /// This line is the first with too many bytes.
    Bytes(u32),
}

/// What a script that is too long has too much of.
pub(crate) fn excess_of(script: &[u8]) -> Excess {
    let mut line = 1u32;
    let mut columns = 0usize;
    for byte in script {
        if line > MOST_LINES {
            break;
        }
        if *byte == b'\n' {
            line += 1;
            columns = 0;
        } else if columns >= MOST_COLUMNS {
            return Excess::Bytes(line);
        } else {
            columns += 1;
        }
    }
    Excess::Lines
}
