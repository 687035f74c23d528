//! Numbers of output, digit by digit.
ghost use Rattle.std.specs.Prelude.{◌≡◌, ◌<◌, ◌≤◌, ◌+◌, ◌*◌, ◌++◌, codes, decimal, drop, take, length, true};
ghost use Rattle.std.specs.Fmt.{digit_glyph};
ghost use Rattle.std.specs.List.{flat_map};
ghost use Rattle.vsm_model.specs.Texts.{hexadecimal, padded_decimal};
ghost use Rattle.text_output.specs.Writing.{Puts};

use crate::writing::Gathered;
use itoa::{Buffer, write_digits};
use std::io::Write;

/// Puts a number in decimal digits.
pub fn put_decimal<W: Write>(gathered: &mut Gathered, writer: &mut W, n: u64)
    ensures { Puts (W.contents writer.old) (W.contents writer.new) gathered.old gathered.new (decimal n) }
{
    let mut buffer = Buffer::new();
    gathered.put(writer, buffer.format(n).as_bytes());
}

/// Puts a number in decimal digits, with leading zeros to this width, at most seven.
pub fn put_padded_decimal<W: Write>(gathered: &mut Gathered, writer: &mut W, width: usize, n: u32)
    requires { width ≤ 7 }
    ensures { Puts (W.contents writer.old) (W.contents writer.new) gathered.old gathered.new (padded_decimal width n) }
{
    let mut places = *b"0000000000";
    let first = write_digits(u64::from(n), &mut places, 10);
    gathered.put(writer, &places[first.min(10 - width)..]);
}

/// Puts a number in decimal digits, with leading zeros to seven, and what follows its ten places.
pub fn put_over_zeros<W: Write>(gathered: &mut Gathered, writer: &mut W, n: u32, places: &mut [u8])
    requires { take 10 places.old ≡ codes "0000000000" }
    ensures { Puts (W.contents writer.old) (W.contents writer.new) gathered.old gathered.new
        (padded_decimal 7 n ++ drop 10 places.old) }
{
    let first = write_digits(u64::from(n), places, 10);
    gathered.put(writer, &places[first.min(3)..]);
}

/// Puts the number of a line: decimal digits, with leading zeros to seven, and a blank.
pub fn put_line_number<W: Write>(gathered: &mut Gathered, writer: &mut W, n: u32)
    ensures { Puts (W.contents writer.old) (W.contents writer.new) gathered.old gathered.new
        (padded_decimal 7 n ++ codes " ") }
{
    let mut places = *b"0000000000 ";
    put_over_zeros(gathered, writer, n, &mut places);
}

// The two upper case hexadecimal digits of each byte.
static PAIRS: [u8; 512] = *b"000102030405060708090A0B0C0D0E0F\
        101112131415161718191A1B1C1D1E1F\
        202122232425262728292A2B2C2D2E2F\
        303132333435363738393A3B3C3D3E3F\
        404142434445464748494A4B4C4D4E4F\
        505152535455565758595A5B5C5D5E5F\
        606162636465666768696A6B6C6D6E6F\
        707172737475767778797A7B7C7D7E7F\
        808182838485868788898A8B8C8D8E8F\
        909192939495969798999A9B9C9D9E9F\
        A0A1A2A3A4A5A6A7A8A9AAABACADAEAF\
        B0B1B2B3B4B5B6B7B8B9BABBBCBDBEBF\
        C0C1C2C3C4C5C6C7C8C9CACBCCCDCECF\
        D0D1D2D3D4D5D6D7D8D9DADBDCDDDEDF\
        E0E1E2E3E4E5E6E7E8E9EAEBECEDEEEF\
        F0F1F2F3F4F5F6F7F8F9FAFBFCFDFEFF";

/// One upper case hexadecimal digit.
fn hexadecimal_digit(n: u32) -> u8
    requires { n < 16 }
    ensures { result ≡ digit_glyph true n }
{
    PAIRS[2 * n as usize + 1]
}

/// Writes a byte in two upper case hexadecimal digits, from this place on.
fn write_pair(places: &mut [u8], from: usize, byte: u32)
    requires byte { byte < 256 }
    requires room { from + 2 ≤ length places.old }
    ensures { places.new ≡ take from places.old ++ hexadecimal 2 byte ++ drop (from + 2) places.old }
{
    let pair = 2 * byte as usize;
    let (high, low) = (PAIRS[pair], PAIRS[pair + 1]);
    places[from] = high;
    places[from + 1] = low;
}

/// Writes a word in eight upper case hexadecimal digits, from this place on.
pub fn write_word(places: &mut [u8], from: usize, n: u32)
    requires { from + 8 ≤ length places.old }
    ensures { places.new ≡ take from places.old ++ hexadecimal 8 n ++ drop (from + 8) places.old }
{
    write_pair(places, from + 6, n % 0x100);
    write_pair(places, from + 4, n / 0x100 % 0x100);
    write_pair(places, from + 2, n / 0x1_0000 % 0x100);
    write_pair(places, from, n / 0x100_0000);
}

/// Writes a number in upper case hexadecimal digits, with leading zeros to this width, up to the last of eight places,
/// and returns the place of the first digit.
fn hexadecimal_digits(places: &mut [u8; 8], width: u32, n: u32) -> usize
    requires { width ≤ 8 }
    ensures digits { drop result places.new ≡ hexadecimal width n }
    ensures within { result ≤ 8 }
{
    let mut place = 7;
    let mut digits = width;
    let mut rest = n;
    while digits > 1 || rest >= 16 {
        places[place] = hexadecimal_digit(rest % 16);
        place -= 1;
        digits = digits.saturating_sub(1);
        rest /= 16;
    }
    places[place] = hexadecimal_digit(rest);
    place
}

/// Puts a number in upper case hexadecimal digits, with leading zeros to this width.
pub fn put_hexadecimal<W: Write>(gathered: &mut Gathered, writer: &mut W, width: u32, n: u32)
    ensures { Puts (W.contents writer.old) (W.contents writer.new) gathered.old gathered.new (hexadecimal width n) }
{
    if width == 8 {
        let mut places = [0; 8];
        write_word(&mut places, 0, n);
        gathered.put(writer, &places);
        return;
    }
    for _ in 0..width.saturating_sub(8) {
        gathered.put(writer, b"0");
    }
    let mut places = [0; 8];
    let first = hexadecimal_digits(&mut places, width.min(8), n);
    gathered.put(writer, &places[first..]);
}

/// Puts a byte in two upper case hexadecimal digits.
pub fn put_byte<W: Write>(gathered: &mut Gathered, writer: &mut W, byte: u8)
    ensures { Puts (W.contents writer.old) (W.contents writer.new) gathered.old gathered.new (hexadecimal 2 byte) }
{
    let mut places = [0; 2];
    write_pair(&mut places, 0, u32::from(byte));
    gathered.put(writer, &places);
}

/// Writes each of at most sixteen bytes in two upper case hexadecimal digits, from the first of 32 places on.
fn byte_digits(places: &mut [u8; 32], bytes: &[u8])
    requires { length bytes.now ≤ 16 }
    ensures { take (2 * length bytes.now) places.new ≡ flat_map (hexadecimal 2) bytes.now }
{
    for i in 0..bytes.len() {
        write_pair(places, 2 * i, u32::from(bytes[i]));
    }
}

/// Puts at most sixteen bytes, each in two upper case hexadecimal digits.
fn put_few<W: Write>(gathered: &mut Gathered, writer: &mut W, bytes: &[u8])
    requires { length bytes.now ≤ 16 }
    ensures { Puts (W.contents writer.old) (W.contents writer.new) gathered.old gathered.new
        (flat_map (hexadecimal 2) bytes.now) }
{
    let mut places = [0; 32];
    byte_digits(&mut places, bytes);
    gathered.put(writer, &places[..2 * bytes.len()]);
}

/// Puts each byte in two upper case hexadecimal digits.
pub fn put_bytes<W: Write>(gathered: &mut Gathered, writer: &mut W, bytes: &[u8])
    ensures { Puts (W.contents writer.old) (W.contents writer.new) gathered.old gathered.new
        (flat_map (hexadecimal 2) bytes.now) }
{
    let mut rest = bytes;
    while !rest.is_empty() {
        let n = rest.len().min(16);
        put_few(gathered, writer, &rest[..n]);
        rest = &rest[n..];
    }
}
