//! Whose pages bytes are in, and which of them are free.
ghost use Rattle.explain_text.specs.Pieces.{PutsSome};

use crate::free_bytes::put_free_bytes;
use crate::pages::put_pages;
use std::io::Write;
use storage_core::Storage;
use text_output::Gathered;

/// Puts whose the pages of bytes that are stored are, and which of these were free.
pub(crate) fn put_stored<W: Write>(
    gathered: &mut Gathered,
    writer: &mut W,
    storage: &Storage,
    address: u32,
    count: u32,
)
    ensures { PutsSome (W.contents writer.old) (W.contents writer.new) gathered.old gathered.new }
{
    put_pages(gathered, writer, storage, address, count);
    put_free_bytes(gathered, writer, storage, address, count);
}
