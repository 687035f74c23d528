//! Rows as items of a tree. An item's key is the place of the row's two numbers in their order: the second number times
//! 256, plus the first, which is below 256.

ghost use Rattle.std.specs.Prelude.{◌≡◌, ℕ, ◌^◌, ◌<◌, ◌∷◌, drop};
ghost use Rattle.row_table.specs.Rows.{word, IsInRange};
ghost use Rattle.row_table.specs.Keys.{key_of, six, seven, row_in_item};

use crate::Item;
use crate::row::Row;

// How many numbers there are for the first of the two.
const NUMBERS: u32 = 256;

// The key of these two numbers.
pub(crate) fn key_of(first: u32, second: u32) -> u64
    ensures key { result ≡ key_of first second }
    ensures range { result < 2 ^ 63 }
{
    u64::from(second) * u64::from(NUMBERS) + u64::from(first)
}

// The row that an item is.
pub(crate) fn row_of(item: Item) -> Row
    ensures row { result ≡ row_in_item item }
    ensures range { IsInRange result.words }
{
    Row {
        id: item.id,
        words: row_words(item.words),
    }
}

// The words of the row that is kept in these six.
pub(crate) fn row_words(words: [u32; 6]) -> [u32; 7]
    ensures words { result ≡ seven words }
    ensures range { IsInRange result }
{
    let key = words[0];
    [
        key % NUMBERS,
        key / NUMBERS,
        words[1],
        words[2],
        words[3],
        words[4],
        words[5],
    ]
}

// The six words in which a row is kept.
pub(crate) fn item_words(words: [u32; 7]) -> [u32; 6]
    requires { IsInRange words }
    ensures words { result ≡ six words }
    ensures back { seven result ≡ words }
    ensures key { word result 0 ≡ key_of (word words 0) (word words 1) }
{
    let key = words[1] * NUMBERS + words[0];
    [key, words[2], words[3], words[4], words[5], words[6]]
}

// The words of a row after its key.
pub(crate) fn words_behind_key(words: [u32; 7]) -> [u32; 5]
    ensures words { result ≡ drop 2 words }
    ensures back { (key : ℕ) → key ≡ key_of (word words 0) (word words 1) → word words 0 < 256
        → seven (key ∷ result) ≡ words }
{
    [words[2], words[3], words[4], words[5], words[6]]
}
