// Numbers and words as text: read from a whole slice, and written into a lent slice. A double goes by its bits.
#![tactic(auto)]

ghost use Rattle.std.specs.Prelude.{◌≡◌, ℕ, ◌+◌, ◌<◌, ◌≤◌, length, Float};
ghost use Rattle.std.proofs.lemmas.List.Edits.{sets};
ghost use Rattle.std.specs.Float.{binary64};
ghost use Rattle.std.specs.Float.Ieee.{of_bits, to_bits};
ghost use Rattle.text.specs.Text.{digit_of, digit_in, digits_from, decimal_of, bits_of, starts, is_word, place_of};
ghost use Rattle.text.specs.Written.{Written, digit_byte, digits_text, count_in, decimal_text, bits_text};

use std::num;

// What a byte is worth as a digit; capitals are none.
pub fn digit(b: u8) -> Option<u64>
    ensures { result ≡ digit_of b }
{
    match b {
        b'0'..=b'9' => Some(u64::from(b - b'0')),
        b'a'..=b'f' => Some(u64::from(b - b'a' + 10)),
        _ => None,
    }
}

// What a byte is worth as a digit of a base. A byte that is no digit at all counts as the base itself, so that one test
// refuses it and a digit that is too large.
fn digit_in(base: u64, b: u8) -> Option<u64>
    ensures { result ≡ digit_in base (digit_of b) }
{
    let d = digit(b).unwrap_or(base);
    if d < base { Some(d) } else { None }
}

// The number of digits in a base, most significant first.
#[tactic(auto, using(crate::proofs::Numbers::digit_steps))]
fn digits(s: &[u8], base: u64) -> Option<u64>
    requires { (0 < base) × (base ≤ 16) }
    ensures { result ≡ digits_from base 0 s.now }
{
    let mut v = 0u64;
    for b in s {
        let d = digit_in(base, *b)?;
        v = v.checked_mul(base)?.checked_add(d)?;
    }
    Some(v)
}

// A whole slice as a decimal.
#[tactic(auto, using(crate::proofs::Numbers::decimals))]
pub fn decimal(s: &[u8]) -> Option<u64>
    ensures { result ≡ decimal_of s.now }
{
    let led = *s.first()? != b'0';
    if led || s.len() == 1 {
        digits(s, 10)
    } else {
        None
    }
}

// A whole slice as the 16 hexadecimal digits of a float's bits.
#[tactic(auto, unfolding(crate::specs::Text::bits_of))]
pub fn bits(s: &[u8]) -> Option<u64>
    ensures { result ≡ bits_of s.now }
{
    if s.len() == 16 { digits(s, 16) } else { None }
}

// Whether the text begins with the word.
#[tactic(auto, using(crate::proofs::Words::starts_pointwise))]
pub fn begins(word: &[u8], s: &[u8]) -> bool
    ensures { result ≡ starts word.now s.now }
{
    s.starts_with(word)
}

// Whether the text is the word.
#[tactic(auto, using(crate::proofs::Words::is_word_pointwise))]
pub fn is_word(word: &[u8], s: &[u8]) -> bool
    ensures { result ≡ is_word word.now s.now }
{
    s == word
}

// Where the first b stands.
#[tactic(auto, unfolding(crate::specs::Text::place_of))]
pub fn place(b: u8, s: &[u8]) -> Option<usize>
    ensures { result ≡ place_of b s.now }
{
    s.iter().position(|x| *x == b)
}

// The float with these bits; a NaN's pattern gives a NaN by arithmetic.
pub fn float_of(bits: u64) -> f64
    ensures { result ≡ of_bits binary64 bits }
{
    num::f64_from_bits_with_nan(bits)
}

// A float's bits; any NaN counts as 7ff8000000000000.
pub fn bits_of(x: f64) -> u64
    ensures { result ≡ to_bits binary64 x }
{
    num::f64_to_bits_with_nan(x)
}

// A digit as a byte.
fn digit_byte(d: u64) -> u8
    requires { d < 16 }
    ensures { result ≡ digit_byte d }
{
    let b = d as u8;
    if b < 10 { b'0' + b } else { b - 10 + b'a' }
}

// Writes a word.
pub fn put(output: &mut [u8], at: usize, word: &[u8]) -> usize
    requires { at + length word.now ≤ length output.old }
    ensures { Written word.now output.old at output.new result }
{
    for i in 0..word.len() {
        output[at + i] = word[i];
    }
    at + word.len()
}

// Writes the n last digits of v, from the last one.
#[tactic(auto, using(crate::proofs::Numerals::written_back))]
fn put_digits(output: &mut [u8], at: usize, v: u64, base: u64, n: usize)
    requires { (at + n ≤ length output.old) × (0 < base) × (base ≤ 16) }
    ensures { output.new ≡ sets output.old at (digits_text base n v) }
{
    let mut rest = v;
    for i in (0..n).rev() {
        output[at + i] = digit_byte(rest % base);
        rest /= base;
    }
}

// How many decimal digits v has.
#[tactic(auto, using(crate::proofs::Numerals::counts))]
fn count_digits(v: u64) -> usize
    ensures { (result ≡ count_in 19 v) × (result ≤ 20) }
{
    let mut rest = v;
    for n in 1..20 {
        if rest < 10 {
            return n;
        }
        rest /= 10;
    }
    20
}

// Writes a decimal, of at most 20 digits.
#[tactic(auto, using(crate::proofs::Numerals::digits_long))]
pub fn put_decimal(output: &mut [u8], at: usize, v: u64) -> usize
    requires { at + 20 ≤ length output.old }
    ensures { Written (decimal_text v) output.old at output.new result × (result ≤ at + 20) }
{
    let n = count_digits(v);
    put_digits(output, at, v, 10, n);
    at + n
}

// Writes the 16 digits of a float's bits.
#[tactic(auto, using(crate::proofs::Numerals::digits_long))]
pub fn put_bits(output: &mut [u8], at: usize, bits: u64) -> usize
    requires { at + 16 ≤ length output.old }
    ensures { Written (bits_text bits) output.old at output.new result × (result ≡ at + 16) }
{
    put_digits(output, at, bits, 16, 16);
    at + 16
}
