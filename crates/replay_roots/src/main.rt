// Replays a fixed list of roots that another implementation worked out. Standard input has a line for each:
// the bits of a double and of its root, 16 hexadecimal digits each. A line that starts with # says how the list was made.
#![tactic(auto)]

use std::io;

// The bytes of a line, and where its second number starts.
const LINE: usize = 34;

const ROOT: usize = 17;
// A block has whole lines, 1,024 of them.
const BLOCK: usize = 34816;

// What the lines showed.
#[derive(Clone, Copy)]
struct Tally {
    roots: u64,
    differ: u64,
}

fn main(rt: HostRuntime) -> io::Result<()> {
    let tally = replay(&mut rt.stdin());
    println!(rt; "{} roots, {} differ", tally.roots, tally.differ)
}

// Every block of the list. Nothing says that an input ends, so the turns are counted, up to a number that no run reaches.
fn replay<R: io::Read>(input: &mut R) -> Tally {
    let mut tally = Tally {
        roots: 0,
        differ: 0,
    };
    for _ in 0..u64::MAX {
        let mut text = [0u8; BLOCK];
        let n = records::read_full(input, &mut text);
        if n == 0 {
            return tally;
        }
        tally.count_lines(&text[..n]);
    }
    tally
}

impl Tally {
    // Every line of a block, a last one cut short too.
    fn count_lines(&mut self, text: &[u8]) {
        for line in text.chunks(LINE) {
            self.count(line);
        }
    }

    // One more root, and whether it differs; a comment has none.
    fn count(&mut self, line: &[u8]) {
        if line.starts_with(b"#") {
            return;
        }
        self.roots = self.roots.wrapping_add(1);
        if !holds(line) {
            self.differ = self.differ.wrapping_add(1);
        }
    }
}

// Whether the line has the root that `sqrt` finds.
fn holds(line: &[u8]) -> bool {
    if line.len() < LINE {
        return false;
    }
    let x = text::bits(&line[..ROOT - 1]);
    let root = text::bits(&line[ROOT..LINE - 1]);
    match (x, root) {
        (Some(x), Some(root)) => same(roots::sqrt(text::float_of(x)), text::float_of(root)),
        _ => false,
    }
}

// Whether two doubles have the same bits. One NaN is as good as another.
fn same(x: f64, y: f64) -> bool {
    text::bits_of(x) == text::bits_of(y)
}
