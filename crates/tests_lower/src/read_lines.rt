//! What a caller of the reader is given: which line gives an answer, the line of its statement, and what finish says.

use macro_reader::{Fault, FaultKind, Fed, Reader, Request};
use std::process::Abort;

/// A line with a text from a column on, whose column 72 may say that the next line continues it.
fn card(column: usize, text: &[u8], continued: bool) -> [u8; 72] {
    let mut line = [b' '; 72];
    for i in 0..71usize {
        if i.saturating_add(1) >= column {
            line[i] = text
                .get(i.saturating_add(1).saturating_sub(column))
                .copied()
                .unwrap_or(b' ');
        }
    }
    if continued {
        line[71] = b'X';
    }
    line
}

fn more() -> Result<Fed, Fault> {
    Ok(Fed::More)
}

fn ready(request: Request, line: u32) -> Result<Fed, Fault> {
    Ok(Fed::Ready(request, line))
}

fn fault(kind: FaultKind, line: u32) -> Result<Fed, Fault> {
    Err(Fault { kind, line })
}

/// The line gets this answer.
fn feed(rt: &impl Abort, reader: &mut Reader, line: &[u8], want: Result<Fed, Fault>) {
    let text = str::from_utf8(line).unwrap_or("");
    assert_eq!(rt; reader.next(line), want, "{text}");
}

/// What finish says.
fn finish(rt: &impl Abort, reader: &mut Reader, want: Result<(), Fault>) {
    assert_eq!(rt; reader.finish(), want);
}

/// Statements and faults of one line and of two.
fn feed_ten(rt: &impl Abort, reader: &mut Reader) {
    feed(rt, reader, &card(1, b"* a comment", true), more());
    feed(rt, reader, &card(1, b"", false), more());
    feed(
        rt,
        reader,
        &card(2, b"BACK 1", false),
        ready(Request::Back(1), 3),
    );
    feed(rt, reader, &card(2, b"MAP", true), more());
    feed(
        rt,
        reader,
        &card(16, b"remarks", false),
        ready(Request::Map, 4),
    );
    feed(rt, reader, &card(1, b"1X MAP", true), more());
    let column = fault(FaultKind::Column, 6);
    feed(rt, reader, &card(16, b"remarks", false), column);
    feed(rt, reader, &card(2, b"FORWARD 2", true), more());
    let continuation = fault(FaultKind::Continuation, 8);
    feed(rt, reader, &card(15, b"remarks", true), continuation);
    // The line after the fault is dropped.
    feed(rt, reader, &card(2, b"FORWARD 2", false), more());
}

#[test]
fn answers_have_the_line_of_their_statement(rt: HostRuntime) {
    let mut reader = Reader::new();
    feed_ten(&rt, &mut reader);
    let forward = ready(Request::Forward(2), 11);
    feed(&rt, &mut reader, b" FORWARD 2", forward);
    finish(&rt, &mut reader, Ok(()));
}

#[test]
fn statement_that_is_open_at_the_end(rt: HostRuntime) {
    let mut reader = Reader::new();
    feed(&rt, &mut reader, b"* a comment", more());
    feed(&rt, &mut reader, &card(2, b"BACK 1,", true), more());
    feed(&rt, &mut reader, &card(16, b"2", true), more());
    let open = Fault {
        kind: FaultKind::Continuation,
        line: 2,
    };
    finish(&rt, &mut reader, Err(open));
    finish(&rt, &mut reader, Ok(()));
    // Lines that are dropped belong to no statement that could be open.
    feed(&rt, &mut reader, &card(2, b"BACK 0", true), more());
    let dropped = fault(FaultKind::Continuation, 4);
    feed(&rt, &mut reader, &card(15, b"X", true), dropped);
    feed(&rt, &mut reader, &card(1, b"*", true), more());
    finish(&rt, &mut reader, Ok(()));
}
