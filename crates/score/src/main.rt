// The command program: a job text from standard input, its answer to standard output.
//
// Bytes past the limit's first one cannot change the answer and are not read. A read that fails leaves standard output empty,
// a write that fails leaves it short; either writes one line to standard error.
#![tactic(auto)]

ghost use Rattle.std.specs.Prelude.{◌≤◌, length, IfOk};

use job::{INPUT, OUTPUT};
use std::io;

fn main(rt: HostRuntime) {
    let mut input = [0u8; INPUT + 1];
    let Ok(n) = read_input(&mut rt.stdin(), &mut input) else {
        let _ = eprintln!(rt; "score: standard input cannot be read");
        return;
    };
    answer(&rt, &input[..n]);
}

// Reads to the end of standard input, or until the slice is full, and says how many bytes it gave.
fn read_input<R: io::Read>(stdin: &mut R, input: &mut [u8]) -> io::Result<usize>
    ensures { IfOk result (λ n. n ≤ length input.old) }
{
    let mut n = 0;
    while n < input.len() {
        let more = stdin.read(&mut input[n..])?;
        if more == 0 {
            break;
        }
        n += more;
    }
    Ok(n)
}

// Writes the answer of a job text.
fn answer<P: Print + Eprint>(rt: &P, input: &[u8]) {
    let mut output = [0u8; OUTPUT];
    let Ok(n) = job::run(input, &mut output) else {
        return;
    };
    if rt.write_all(&output[..n]).is_err() {
        let _ = eprintln!(rt; "score: the answer cannot be written");
    }
}
