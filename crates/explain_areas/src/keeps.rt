//! Pages that few bytes keep: of each less than half is taken.
ghost use Rattle.std.specs.Prelude.{◌≡◌, ◌<◌, ◌≤◌, ◌++◌, IfOk, List, OnOk, drop, length, map, slice_index, take};
ghost use Rattle.text_output.specs.Writing.{Puts};
ghost use Rattle.explain_text.specs.Rows.{fields_of};
ghost use Rattle.explain_areas.specs.Keeps.{TakenPage, closing, counted, ends_full, further_lines, held, is_last};
ghost use Rattle.explain_areas.specs.Keeps.{lines_in, opening, page_address, page_fields, page_in, page_of, pages_in};
ghost use Rattle.explain_areas.specs.Keeps.{pages_kept, separator, turned, with_area, with_bytes, with_line, with_more};
ghost use Rattle.explain_areas.specs.Keeps.{without_full};

use crate::parts::LineArea;
use explain_text::{Form, address, number, only_in_text, put_end, put_fields, put_start};
use std::alloc::{AllocError, Global};
use std::io::Write;
use text_output::{Gathered, put_decimal};

/// The doublewords of a page.
const PAGE: u64 = 512;

/// Half of the bytes of a page.
const HALF: u32 = 2048;

/// A page, how many of its bytes are taken, and the lines whose statements took them, ascending.
#[derive(Drop)]
pub(crate) struct KeptPage {
    page: u32,
    bytes: u32,
    lines: Vec<u32>,
}

/// The place of a line among ascending ones.
fn place_of(lines: &[u32], line: u32) -> usize
    ensures within { result ≤ length lines.now }
    ensures place { with_line line lines.now ≡ take result lines.now ++ with_line line (drop result lines.now) }
    ensures at { result < length lines.now → line ≤ slice_index lines.now result }
{
    let mut at = 0;
    while at < lines.len() && lines[at] < line {
        at += 1;
    }
    at
}

/// Adds a line to ascending ones, unless it's one of them.
fn add_line(lines: &mut Vec<u32>, line: u32) -> Result<(), AllocError>
    ensures { OnOk result (lines.new.items ≡ with_line line lines.old.items) }
{
    let at = place_of(lines.as_slice(), line);
    if at < lines.len() && lines[at] == line {
        return Ok(());
    }
    lines.insert(at, line)?;
    Ok(())
}

/// Adds bytes to those of a page, and the line whose statement took them.
fn add_to(page: &mut KeptPage, bytes: u32, line: u32) -> Result<(), AllocError>
    ensures { OnOk result (page_of page.new ≡ counted (with_more line bytes (page_of page.old))) }
{
    page.bytes = page.bytes.saturating_add(bytes);
    add_line(&mut page.lines, line)
}

/// Whether the last of some pages is this one.
fn is_last(pages: &[KeptPage], page: u32) -> bool
    ensures { result ≡ is_last page (turned pages.now) }
{
    match pages.last() {
        Some(last) => last.page == page,
        None => false,
    }
}

/// Whether the last of some pages isn't kept.
fn ends_full(pages: &[KeptPage]) -> bool
    ensures { result ≡ ends_full (turned pages.now) }
{
    match pages.last() {
        Some(last) => last.bytes >= HALF,
        None => false,
    }
}

/// Drops the last page if it isn't kept.
fn drop_full(pages: &mut Vec<KeptPage>)
    ensures { turned pages.new.items ≡ without_full (turned pages.old.items) }
{
    if ends_full(pages.as_slice()) {
        let full = pages.pop();
        drop(full);
    }
}

/// Adds bytes of a page, which the statement of this line took. Of the pages before the last only those that are kept
/// remain.
fn add_bytes(
    pages: &mut Vec<KeptPage>,
    alloc: Global,
    page: u32,
    bytes: u32,
    line: u32,
) -> Result<(), AllocError>
    ensures { OnOk result ((others : List TakenPage) → turned pages.old.items ≡ held others
        → turned pages.new.items ≡ held (with_bytes line page bytes others)) }
{
    if is_last(pages.as_slice(), page) {
        let last = pages.len() - 1;
        return add_to(&mut pages[last], bytes, line);
    }
    drop_full(pages);
    let lines = Vec::from_slice(alloc, &[line])?;
    pages.push(KeptPage { page, bytes, lines })?;
    Ok(())
}

/// Adds an area, page by page.
fn add_area(pages: &mut Vec<KeptPage>, alloc: Global, area: &LineArea) -> Result<(), AllocError>
    ensures { OnOk result ((others : List TakenPage) → turned pages.old.items ≡ held others
        → turned pages.new.items ≡ held (with_area others area.now)) }
{
    let mut at = u64::from(area.start);
    let end = at + u64::from(area.count);
    while at < end {
        let page = at / PAGE;
        let next = end.min(PAGE * (page + 1));
        let bytes = 8 * (next - at);
        add_bytes(pages, alloc, page as u32, bytes as u32, area.line)?;
        at = next;
    }
    Ok(())
}

/// The pages of areas of which less than half is taken, in the order of the areas. `AllocError` if memory runs out.
pub(crate) fn pages_kept(alloc: Global, areas: &[LineArea]) -> Result<Vec<KeptPage>, AllocError>
    ensures { IfOk result (λ pages. map page_of pages.items ≡ pages_kept areas.now) }
{
    let mut pages = Vec::new(alloc);
    for area in areas {
        add_area(&mut pages, alloc, area)?;
    }
    drop_full(&mut pages);
    Ok(pages)
}

/// What precedes the first of some lines, which these follow.
fn opening(form: Form, rest: &[u32]) -> &'static [u8]
    ensures { result.now ≡ opening form rest.now }
{
    match form {
        Form::Text if rest.is_empty() => b", of line ",
        Form::Text => b", of lines ",
        Form::Json => b",\"lines\":[",
    }
}

/// What precedes a further line, which these follow.
fn separator(form: Form, rest: &[u32]) -> &'static [u8]
    ensures { result.now ≡ separator form rest.now }
{
    match form {
        Form::Text if rest.is_empty() => b" and ",
        Form::Text => b", ",
        Form::Json => b",",
    }
}

/// What ends lines.
fn closing(form: Form) -> &'static [u8]
    ensures { result.now ≡ closing form }
{
    match form {
        Form::Text => b"",
        Form::Json => b"]",
    }
}

/// Puts further lines.
fn put_further<W: Write>(gathered: &mut Gathered, writer: &mut W, form: Form, lines: &[u32])
    ensures { Puts (W.contents writer.old) (W.contents writer.new) gathered.old gathered.new
        (further_lines form lines.now) }
{
    let mut left = lines;
    while let Some((line, rest)) = left.split_first() {
        gathered.put(writer, separator(form, rest));
        put_decimal(gathered, writer, u64::from(*line));
        left = rest;
    }
}

/// Puts lines.
#[tactic(auto, using(text_output::proofs::Gathering::puts_both))]
fn put_lines<W: Write>(gathered: &mut Gathered, writer: &mut W, form: Form, lines: &[u32])
    ensures { Puts (W.contents writer.old) (W.contents writer.new) gathered.old gathered.new
        (lines_in form lines.now) }
{
    if let Some((line, rest)) = lines.split_first() {
        gathered.put(writer, opening(form, rest));
        put_decimal(gathered, writer, u64::from(*line));
        put_further(gathered, writer, form, rest);
        gathered.put(writer, closing(form));
    }
}

/// The address of a page.
fn page_address(page: u32) -> u32
    ensures { result ≡ page_address page }
{
    page.saturating_mul(4096)
}

/// Puts the address of a page, and how many of its bytes are taken.
fn put_bytes<W: Write>(gathered: &mut Gathered, writer: &mut W, form: Form, page: &KeptPage)
    ensures { Puts (W.contents writer.old) (W.contents writer.new) gathered.old gathered.new
        (fields_of form (page_fields (page_of page.now))) }
{
    let fields = [
        address(b"page ", b"address", page_address(page.page)),
        number(b": ", b"bytes", u64::from(page.bytes)),
        only_in_text(b" of 4096 bytes"),
    ];
    put_fields(gathered, writer, form, &fields);
}

/// Puts a page: its address, how many of its bytes are taken, and the lines.
#[tactic(auto, using(text_output::proofs::Gathering::puts_both))]
fn put_page<W: Write>(gathered: &mut Gathered, writer: &mut W, form: Form, page: &KeptPage)
    ensures { Puts (W.contents writer.old) (W.contents writer.new) gathered.old gathered.new
        (page_in form (page_of page.now)) }
{
    put_start(gathered, writer, form, b"page");
    put_bytes(gathered, writer, form, page);
    put_lines(gathered, writer, form, page.lines.as_slice());
    put_end(gathered, writer, form);
}

/// Puts pages.
pub(crate) fn put_pages<W: Write>(
    gathered: &mut Gathered,
    writer: &mut W,
    form: Form,
    pages: &[KeptPage],
)
    ensures { Puts (W.contents writer.old) (W.contents writer.new) gathered.old gathered.new
        (pages_in form (map page_of pages.now)) }
{
    for page in pages {
        put_page(gathered, writer, form, page);
    }
}
