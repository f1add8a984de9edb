// Replays the Rust's answers to job texts. Standard input is a list of records, whose format tests/differential/driver/list.rs
// describes: a text and its answer, which is held byte for byte to what `job::run` writes.
#![tactic(auto)]

use job::OUTPUT;
use std::io;

// The lengths in front of a record: five digits, a space, five digits, a newline.
const FRAME: usize = 12;

const TEXT: usize = 8192;

const ANSWER: usize = 4096;

// What the records showed.
#[derive(Clone, Copy)]
struct Tally {
    jobs: u64,
    differ: u64,
}

fn main(rt: HostRuntime) -> io::Result<()> {
    let tally = replay(&rt, &mut rt.stdin())?;
    println!(rt; "jobs {} records, {} differ", tally.jobs, tally.differ)
}

// Every record of the list. Nothing says that an input ends, so the turns are counted, up to a number that no run reaches.
fn replay<R: io::Read>(rt: &impl Print, input: &mut R) -> io::Result<Tally> {
    let mut tally = Tally { jobs: 0, differ: 0 };
    for _ in 0..u64::MAX {
        if tally.ends(rt, input)? {
            return Ok(tally);
        }
    }
    Ok(tally)
}

impl Tally {
    // The next record, read and counted; true where the list ends.
    fn ends<R: io::Read>(&mut self, rt: &impl Print, input: &mut R) -> io::Result<bool> {
        let mut frame = [0u8; FRAME];
        if records::read_full(input, &mut frame) == 0 {
            return Ok(true);
        }
        let mut text = [0u8; TEXT];
        let mut answer = [0u8; ANSWER];
        let Some(asked) = read_part(input, records::part(&frame, 0, 5), &mut text) else {
            return none(rt);
        };
        let Some(told) = read_part(input, records::part(&frame, 6, 5), &mut answer) else {
            return none(rt);
        };
        self.count(asked, told);
        Ok(false)
    }

    // One more job, and whether it differs; a comment has no answer.
    fn count(&mut self, asked: &[u8], told: &[u8]) {
        if told.is_empty() {
            return;
        }
        self.jobs = self.jobs.wrapping_add(1);
        if !is_told(asked, told) {
            self.differ = self.differ.wrapping_add(1);
        }
    }
}

// The bytes, as many as digits say, that are read to the front of a line, if there is room for them and they are there.
fn read_part<'a, R: io::Read>(
    input: &mut R,
    digits: &[u8],
    line: &'a mut [u8],
) -> Option<&'a [u8]> {
    let n = records::number(digits)?;
    if records::is_read(input, n, line) {
        Some(records::part(line, 0, n))
    } else {
        None
    }
}

// A record that cannot be read ends the list.
fn none(rt: &impl Print) -> io::Result<bool> {
    print!(rt; "a record that is none\n")?;
    Ok(true)
}

// Whether the program answers a text so.
fn is_told(asked: &[u8], told: &[u8]) -> bool {
    let mut output = [0u8; OUTPUT];
    match job::run(asked, &mut output) {
        Ok(n) => told == records::part(&output, 0, n),
        Err(_) => false,
    }
}
