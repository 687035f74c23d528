//! Free words, and a word that they propose.
ghost use Rattle.std.specs.Prelude.{◌++◌, codes};
ghost use Rattle.explain_text.specs.Json.{bytes_in};
ghost use Rattle.script_steps.specs.Script.{NoFeed};
ghost use Rattle.text_output.specs.Writing.{Puts};
ghost use Rattle.explain_list.specs.Rows.{proposal_in, words_in};

use explain_text::{Form, put_bytes_in};
use script_steps::before_feed;
use std::io::Write;
use text_output::Gathered;

/// What is said in free words, and a word that is proposed, unless it's empty.
#[derive(Clone, Copy)]
pub struct HintedWords<'a> {
    pub words: &'a [u8],
    pub hint: &'a [u8],
}

/// What is before the first line feed of a text.
pub fn one_line(text: &[u8]) -> &[u8]
    ensures { NoFeed result.now }
{
    &text[..before_feed(text)]
}

/// Puts a word that is proposed, after other words.
#[tactic(auto, using(text_output::proofs::Gathering::puts_both))]
fn put_proposed<W: Write>(form: Form, gathered: &mut Gathered, writer: &mut W, hint: &[u8])
    ensures { Puts (W.contents writer.old) (W.contents writer.new) gathered.old gathered.new
        (codes "; " ++ (bytes_in form hint.now ++ codes "?")) }
{
    gathered.put(writer, b"; ");
    put_bytes_in(form, gathered, writer, hint);
    gathered.put(writer, b"?");
}

/// Puts a word that is proposed, unless it's empty.
fn put_proposal<W: Write>(form: Form, gathered: &mut Gathered, writer: &mut W, hint: &[u8])
    ensures { Puts (W.contents writer.old) (W.contents writer.new) gathered.old gathered.new
        (proposal_in form hint.now) }
{
    if !hint.is_empty() {
        put_proposed(form, gathered, writer, hint);
    }
}

/// Puts free words, and the word that is proposed, if any.
#[tactic(auto, using(text_output::proofs::Gathering::puts_both))]
pub fn put_hinted_words<W: Write>(
    form: Form,
    gathered: &mut Gathered,
    writer: &mut W,
    hinted: &HintedWords,
)
    ensures { Puts (W.contents writer.old) (W.contents writer.new) gathered.old gathered.new
        (words_in form hinted.now.words.now hinted.now.hint.now) }
{
    put_bytes_in(form, gathered, writer, hinted.words);
    put_proposal(form, gathered, writer, hinted.hint);
}
