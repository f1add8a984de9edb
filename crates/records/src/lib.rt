// What the programs that replay a list share: the numbers in front of a record, and its bytes.
#![tactic(auto)]

ghost use Rattle.std.specs.Prelude.{◌≡◌, ◌≤◌, length};
ghost use Rattle.records.specs.Records.{number_in, with_digit, part_of, Read};

use std::io;

// The number that digits spell; none if a byte is no digit or the number is above 99,999.
#[tactic(auto, using(crate::proofs::Records::digit_steps))]
pub fn number(digits: &[u8]) -> Option<usize>
    ensures { result ≡ number_in digits.now }
{
    let mut n = 0;
    for b in digits {
        n = with_digit(n, *b)?;
    }
    Some(n)
}

// A number and one decimal digit more.
#[tactic(auto, unfolding(crate::specs::Records::with_digit))]
fn with_digit(n: usize, b: u8) -> Option<usize>
    ensures { result ≡ with_digit n b }
{
    let d = text::digit(b)? as usize;
    if 9 < d || 9999 < n {
        None
    } else {
        Some(n * 10 + d)
    }
}

// Reads n bytes to the front of a line, if there is room for them and they are there.
pub fn is_read<R: io::Read>(input: &mut R, n: usize, line: &mut [u8]) -> bool
    ensures { Read result n line.old line.new }
{
    if line.len() < n {
        return false;
    }
    read_full(input, &mut line[..n]) == n
}

// Reads until the slice is full, the input ends or a read fails, and says how many bytes stand at its front.
pub fn read_full<R: io::Read>(input: &mut R, line: &mut [u8]) -> usize
    ensures in_bounds { result ≤ length line.old }
    ensures same_length { length line.new ≡ length line.old }
{
    let mut n = 0;
    while n < line.len() {
        let Ok(more) = input.read(&mut line[n..]) else {
            return n;
        };
        if more == 0 {
            return n;
        }
        n += more;
    }
    n
}

// So many bytes from a place on; the whole line where there are not so many.
#[tactic(auto, unfolding(crate::specs::Records::part_of))]
pub fn part(line: &[u8], at: usize, n: usize) -> &[u8]
    ensures { result.now ≡ part_of line.now at n }
{
    line.get(at..)
        .and_then(|rest| rest.get(..n))
        .unwrap_or(line)
}
