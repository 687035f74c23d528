//! Names, headers, sides and subpools back from their words.

ghost use Rattle.std.specs.Prelude.{◌≡◌, ◌+◌, ◌/◌, ◌%◌, ◌≤◌, ◌<◌, ◌++◌, ◌∷◌, [], IsUtf8, IfSome, option_map};
ghost use Rattle.arrayvec.specs.ArrayVec.{array_vec_len};
ghost use Rattle.cell_pool.specs.Names.{byte_of, bytes_in, unpacked, spelled, location_in, header_in, AreBytes};
ghost use Rattle.cell_pool.specs.Items.{subpool_in};
ghost use Rattle.vsm_model.specs.Subpools.{same_subpool};

use crate::label::Label;
use crate::settings::{CellPoolHeader, CellPoolName};
use arrayvec::ArrayVec;
use std::str;
use vsm_model::{Residence, Subpool};

// Appends the byte of a digit, if it has one.
fn push_digit<const N: usize>(text: &mut ArrayVec<u8, N>, digit: u32)
    requires range { digit ≤ 256 }
    requires room { array_vec_len text.old < N }
    ensures bytes { text.new.items ≡ text.old.items ++ byte_of digit }
    ensures len { array_vec_len text.new ≤ array_vec_len text.old + 1 }
{
    if digit > 0 {
        text.push((digit - 1) as u8);
    }
}

// Appends the bytes of a word.
fn push_word<const N: usize>(text: &mut ArrayVec<u8, N>, word: u32)
    requires range { word / 66049 ≤ 256 }
    requires room { array_vec_len text.old + 3 ≤ N }
    ensures bytes { text.new.items ≡ text.old.items ++ bytes_in word }
    ensures len { array_vec_len text.new ≤ array_vec_len text.old + 3 }
{
    push_digit(text, word / 66_049);
    push_digit(text, (word / 257) % 257);
    push_digit(text, word % 257);
}

// Appends the bytes of seven words.
fn push_words<const N: usize>(text: &mut ArrayVec<u8, N>, words: [u32; 7])
    requires bytes { AreBytes (unpacked words) }
    requires room { array_vec_len text.old + 21 ≤ N }
    ensures bytes { text.new.items ≡ text.old.items ++ unpacked words }
    ensures len { array_vec_len text.new ≤ array_vec_len text.old + 21 }
{
    for k in 0..7 {
        push_word(text, words[k]);
    }
}

/// The name that such words spell.
pub fn name_of(label: Label) -> CellPoolName
    requires text { IsUtf8 (spelled label) }
    requires bytes { AreBytes (spelled label) }
    ensures { result.bytes ≡ spelled label }
{
    let mut bytes = ArrayVec::<u8, 63>::new();
    push_words(&mut bytes, label.first);
    push_words(&mut bytes, label.second);
    push_words(&mut bytes, label.third);
    let mut name = CellPoolName::new();
    if let Ok(text) = str::from_utf8(bytes.as_slice()) {
        name.push_str(text);
    }
    name
}

/// The header in seven words and a form; `None` if the form says that there is none.
pub fn header_of(front: [u32; 7], form: [u32; 7]) -> Option<CellPoolHeader>
    requires { IfSome (header_in front form) AreBytes }
    ensures { option_map (λ h. h.items) result ≡ header_in front form }
{
    if form[1] == 0 {
        return None;
    }
    let mut text = CellPoolHeader::new();
    push_words(&mut text, front);
    push_word(&mut text, form[2]);
    Some(text)
}

/// The side that the first word of a form says.
pub fn location_of(word: u32) -> Residence
    ensures { result ≡ location_in (word ∷ []) }
{
    if word == 0 {
        Residence::Below
    } else {
        Residence::Above
    }
}

fn low_byte(word: u32) -> u8
    ensures { result ≡ word % 256 }
{
    (word % 256) as u8
}

/// The subpool that a row's words say: its number and its owner.
pub fn subpool_of(words: [u32; 2]) -> Subpool
    ensures { result ≡ subpool_in words }
{
    Subpool {
        number: low_byte(words[0]),
        owner: low_byte(words[1]),
    }
}

/// Whether a row's words say this subpool.
pub fn says_subpool(words: [u32; 2], subpool: Subpool) -> bool
    ensures { result ≡ same_subpool (subpool_in words) subpool }
{
    let said = subpool_of(words);
    said.number == subpool.number && said.owner == subpool.owner
}
