ghost use Rattle.std.specs.Prelude.{◌≡◌, ◌+◌, ◌*◌, ◌/◌, ◌%◌, ◌^◌, ◌++◌, ◌<◌, ◌≤◌, codes, length, take, false};
ghost use Rattle.std.specs.Fmt.{digit_glyph};
ghost use Rattle.std.specs.Int.Digits.{digits_of};
ghost use Rattle.iom_text.specs.Texts.{digits_in, numeral, hexadecimal};

use crate::values::digit_pair;
use arrayvec::ArrayVec;

/// The text of a number below 2^64, at most 20 bytes.
pub type Numeral = ArrayVec<u8, 20>;

// The decimal digit of a number below 10.
#[inline(always)]
fn glyph(digit: u64) -> u8
    requires { digit < 10 }
    ensures { result ≡ digit_glyph false digit }
{
    b'0' + digit as u8
}

// Writes the digit 0 at the front of `places`, and returns how many digits that is.
#[inline(always)]
fn put_zero(places: &mut [u8]) -> usize
    requires { 0 < length places.old }
    ensures text { take 1 places.new ≡ codes "0" }
    ensures one { result ≡ 1 }
{
    places[0] = b'0';
    1
}

// How many decimal digits a number above 0 has.
#[inline(always)]
#[tactic(auto, using(crate::proofs::Digits::counted_decimal))]
fn decimal_count(number: u64) -> usize
    requires { 0 < number }
    ensures count { result ≡ length (digits_of 10 number) }
    ensures most { result ≤ 20 }
{
    number.ilog10() as usize + 1
}

// Fills `places` with the decimal digits of a number, from its last digit to its first.
#[inline(always)]
fn put_digits(places: &mut [u8], number: u64)
    requires { length (digits_of 10 number) ≡ length places.old }
    ensures { places.new ≡ digits_in 10 number }
{
    let mut rest = number;
    for i in (0..places.len()).rev() {
        places[i] = glyph(rest % 10);
        rest /= 10;
    }
}

/// Writes a number as decimal digits at the front of 20 places, and returns how many digits there are, 1 to 20.
#[inline(always)]
pub fn put_decimal(places: &mut [u8], number: u64) -> usize
    requires { length places.old ≡ 20 }
    ensures text { take result places.new ≡ numeral 10 number }
    ensures room { result ≤ 20 }
{
    if number == 0 {
        return put_zero(places);
    }
    let count = decimal_count(number);
    put_digits(&mut places[..count], number);
    count
}

/// A number below 2^64 as decimal digits, at most 20.
pub fn decimal(number: u64) -> Numeral
    ensures text { result.items ≡ numeral 10 number }
    ensures short { length result.items ≤ 20 }
{
    let mut digits = [0; 20];
    let count = put_decimal(&mut digits, number);
    let mut text = Numeral::new();
    let _fits = text.try_extend_from_slice(&digits[..count]);
    text
}

// How many hex digits a number above 0 has.
#[inline(always)]
#[tactic(auto, using(crate::proofs::Digits::counted))]
fn hex_count(number: u64) -> usize
    requires { 0 < number }
    ensures count { result ≡ length (digits_of 16 number) }
    ensures below { number < 16 ^ result }
    ensures most { result ≤ 16 }
{
    number.ilog2() as usize / 4 + 1
}

// A number with `count` hex digits; if that is odd, with a 0 after them.
#[inline(always)]
fn with_even_digits(number: u64, count: usize) -> u64
    requires some { 0 < number }
    requires count { count ≡ length (digits_of 16 number) }
    requires below { number < 16 ^ count }
    requires most { count ≤ 16 }
    ensures count { length (digits_of 16 result) ≡ count + count % 2 }
    ensures front { take count (digits_in 16 result) ≡ digits_in 16 number }
{
    if count % 2 == 0 { number } else { number * 16 }
}

// Fills `places` with the hex digits of a number, two at a time, from its last digits to its first.
#[inline(always)]
fn put_pairs(places: &mut [u8], number: u64)
    requires even { length places.old ≡ 2 * (length places.old / 2) }
    requires count { length (digits_of 16 number) ≡ length places.old }
    ensures { places.new ≡ digits_in 16 number }
{
    let mut rest = number;
    for i in (0..places.len() / 2).rev() {
        let pair = digit_pair((rest % 256) as u8);
        places[2 * i + 1] = pair[1];
        places[2 * i] = pair[0];
        rest /= 256;
    }
}

/// Writes a number as hex digits in lower case at the front of 16 places, and returns how many digits there are, 1 to 16.
#[inline(always)]
pub fn put_hex(places: &mut [u8], number: u64) -> usize
    requires { length places.old ≡ 16 }
    ensures text { take result places.new ≡ numeral 16 number }
    ensures room { result ≤ 16 }
{
    if number == 0 {
        return put_zero(places);
    }
    let count = hex_count(number);
    let even = with_even_digits(number, count);
    put_pairs(&mut places[..count + count % 2], even);
    count
}

/// A number below 2^64 as `0x` and hex digits in lower case, at most 18 bytes.
pub fn hexadecimal(number: u64) -> Numeral
    ensures text { result.items ≡ hexadecimal number }
    ensures short { length result.items ≤ 18 }
{
    let mut digits = [0; 16];
    let count = put_hex(&mut digits, number);
    let mut text = Numeral::new();
    text.push(b'0');
    text.push(b'x');
    let _fits = text.try_extend_from_slice(&digits[..count]);
    text
}
