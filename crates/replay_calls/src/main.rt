// Replays the Rust's answers to library calls. Standard input is a list of records, whose format
// tests/differential/driver/list.rs describes. Each call is made with slices of exactly the lengths that its record gives, and
// all that it leaves is compared: what it says, the results, the slots beyond them, the workspace.
#![tactic(auto)]

mod lend;

use std::{fmt, io};
use words::{CALLS, Call, WORDS};

// The most bytes of a record, and those of the length in front of it: five digits and a newline.
const TEXT: usize = 4096;

const FRAME: usize = 6;

// What the records of a call showed.
#[derive(Clone, Copy)]
struct Tally {
    records: u64,
    differ: u64,
}

impl Tally {
    const NONE: Tally = Tally {
        records: 0,
        differ: 0,
    };

    // One more record, and whether it differs.
    fn add(&mut self, differs: bool) {
        *self = self.with(Tally {
            records: 1,
            differ: u64::from(differs),
        });
    }

    // Both together.
    fn with(self, other: Tally) -> Tally {
        Tally {
            records: self.records.wrapping_add(other.records),
            differ: self.differ.wrapping_add(other.differ),
        }
    }
}

impl fmt::Display for Tally {
    fn fmt<W: fmt::Write>(&self, f: &mut fmt::Formatter<W>) -> fmt::Result {
        write!(f, "{} records, {} differ", self.records, self.differ)
    }
}

fn main(rt: HostRuntime) -> io::Result<()> {
    let mut tallies = [Tally::NONE; CALLS];
    replay(&rt, &mut rt.stdin(), &mut tallies)?;
    print_all(&rt, &tallies)
}

// Every record of the list. Nothing says that an input ends, so the turns are counted, up to a number that no run reaches.
fn replay<R: io::Read>(
    rt: &impl Print,
    input: &mut R,
    tallies: &mut [Tally; CALLS],
) -> io::Result<()> {
    for _ in 0..u64::MAX {
        if ends(rt, input, tallies)? {
            return Ok(());
        }
    }
    Ok(())
}

// The next record, replayed and counted; true where the list ends.
fn ends<R: io::Read>(
    rt: &impl Print,
    input: &mut R,
    tallies: &mut [Tally; CALLS],
) -> io::Result<bool> {
    let mut frame = [0u8; FRAME];
    let got = records::read_full(input, &mut frame);
    if got == 0 {
        return Ok(true);
    }
    let mut line = [0u8; TEXT];
    match length_of(&frame[..got]) {
        Some(0) => Ok(true),
        Some(n) if records::is_read(input, n, &mut line) => {
            count(rt, records::part(&line, 0, n), tallies)?;
            Ok(false)
        }
        _ => {
            print!(rt; "a record that is none\n")?;
            Ok(true)
        }
    }
}

// The length that stands in front of a record.
fn length_of(frame: &[u8]) -> Option<usize> {
    if frame.len() < FRAME {
        return None;
    }
    records::number(records::part(frame, 0, FRAME - 1))
}

// A record replayed, unless it is a comment, and counted.
fn count(rt: &impl Print, line: &[u8], tallies: &mut [Tally; CALLS]) -> io::Result<()> {
    if line.starts_with(b"#") {
        return Ok(());
    }
    let mut room = [0u64; WORDS];
    let words = words::spell(line, &mut room);
    let Ok(call) = Call::try_from(words::word(words, 0, 0)) else {
        return print!(rt; "a call that is none\n");
    };
    tallies[call as usize].add(lend::differs(call, words));
    Ok(())
}

// A line for each call, and one for all.
fn print_all(rt: &impl Print, tallies: &[Tally; CALLS]) -> io::Result<()> {
    let mut all = Tally::NONE;
    for (call, tally) in Call::ALL.iter().zip(tallies) {
        println!(rt; "{call} {tally}")?;
        all = all.with(*tally);
    }
    println!(rt; "all {all}")
}
