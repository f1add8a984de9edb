// The text of an answer, into a lent slice: each function writes at a place and returns the place after it.
#![tactic(auto)]

ghost use Rattle.std.specs.Prelude.{◌≡◌, ◌+◌, ◌*◌, ◌≤◌, length};
ghost use Rattle.text.specs.Written.{Written};
ghost use Rattle.lines.specs.Names.{name_of};
ghost use Rattle.reply.specs.Reply.{settled_text, number_text, measure_text, settled_line, head_text, lines_text, score_text, elected_text, answer_text, election_text, refusal_text};

use lines::Measure;

// Writes a measure's answer, of at most 128 bytes and 44 for each score. `settled` is none for a measure without rounds.
pub fn put_answer(
    output: &mut [u8],
    at: usize,
    measure: Measure,
    nodes: u64,
    rounds: u64,
    settled: Option<bool>,
    scores: &[f64],
) -> usize
    requires { at + 128 + 44 * length scores.now ≤ length output.old }
    ensures { Written (answer_text measure nodes rounds settled scores.now) output.old at output.new result }
{
    let a = put_head(output, at, measure, nodes, rounds, settled);
    put_scores(output, a, scores)
}

// Writes VoteRank's answer, of at most 128 bytes and 29 for each elected node.
pub fn put_election(output: &mut [u8], at: usize, nodes: u64, elected: &[u32]) -> usize
    requires { at + 128 + 29 * length elected.now ≤ length output.old }
    ensures { Written (election_text nodes elected.now) output.old at output.new result }
{
    let a = put_head(output, at, Measure::Voterank, nodes, 0, None);
    put_elected(output, a, elected)
}

// Writes a refusal, of at most 54 bytes.
pub fn put_refusal(output: &mut [u8], at: usize, answer: u64, line: u64) -> usize
    requires { at + 54 ≤ length output.old }
    ensures { Written (refusal_text answer line) output.old at output.new result }
{
    let a = put_number(output, at, b"answer=", answer);
    put_number(output, a, b"line=", line)
}

// Writes the five lines of a finished answer.
fn put_head(
    output: &mut [u8],
    at: usize,
    measure: Measure,
    nodes: u64,
    rounds: u64,
    settled: Option<bool>,
) -> usize
    requires { at + 128 ≤ length output.old }
    ensures { Written (head_text measure nodes rounds settled) output.old at output.new result × (result ≤ at + 128) }
{
    let a = put_measure(output, at, measure);
    let b = put_number(output, a, b"answer=", 0);
    let c = put_number(output, b, b"nodes=", nodes);
    let d = put_number(output, c, b"rounds=", rounds);
    put_settled_line(output, d, settled)
}

// Writes the line of a measure, of at most 21 bytes.
fn put_measure(output: &mut [u8], at: usize, measure: Measure) -> usize
    requires { at + 21 ≤ length output.old }
    ensures { Written (measure_text measure) output.old at output.new result × (result ≤ at + 21) }
{
    let a = text::put(output, at, b"measure=");
    let b = put_name(output, a, measure);
    text::put(output, b, b"\n")
}

// Writes a measure's name, of at most 12 bytes.
fn put_name(output: &mut [u8], at: usize, measure: Measure) -> usize
    requires { at + 12 ≤ length output.old }
    ensures { Written (name_of measure) output.old at output.new result × (result ≤ at + 12) }
{
    text::put(output, at, lines::name(measure))
}

// Writes the line KEY DECIMAL.
fn put_number(output: &mut [u8], at: usize, key: &[u8], v: u64) -> usize
    requires { at + length key.now + 21 ≤ length output.old }
    ensures { Written (number_text key.now v) output.old at output.new result × (result ≤ at + length key.now + 21) }
{
    let a = text::put(output, at, key);
    let b = text::put_decimal(output, a, v);
    text::put(output, b, b"\n")
}

// Writes the line that says whether the rounds settled, of at most 13 bytes.
fn put_settled_line(output: &mut [u8], at: usize, settled: Option<bool>) -> usize
    requires { at + 13 ≤ length output.old }
    ensures { Written (settled_line settled) output.old at output.new result × (result ≤ at + 13) }
{
    let a = text::put(output, at, b"settled=");
    let b = put_settled(output, a, settled);
    text::put(output, b, b"\n")
}

fn put_settled(output: &mut [u8], at: usize, settled: Option<bool>) -> usize
    requires { at + 4 ≤ length output.old }
    ensures { Written (settled_text settled) output.old at output.new result × (result ≤ at + 4) }
{
    match settled {
        Some(true) => text::put(output, at, b"yes"),
        Some(false) => text::put(output, at, b"no"),
        None => text::put(output, at, b"none"),
    }
}

// Writes a line for each score.
fn put_scores(output: &mut [u8], start: usize, scores: &[f64]) -> usize
    requires { start + 44 * length scores.now ≤ length output.old }
    ensures { Written (lines_text score_text 0 scores.now) output.old start output.new result }
{
    let mut at = start;
    for (k, x) in scores.iter().enumerate() {
        at = put_score(output, at, k, *x);
    }
    at
}

// Writes the line of a score, of at most 44 bytes.
fn put_score(output: &mut [u8], at: usize, k: usize, x: f64) -> usize
    requires { at + 44 ≤ length output.old }
    ensures { Written (score_text k x) output.old at output.new result × (result ≤ at + 44) }
{
    let a = text::put(output, at, b"score=");
    let b = text::put_decimal(output, a, k as u64);
    let c = text::put(output, b, b",");
    let d = text::put_bits(output, c, text::bits_of(x));
    text::put(output, d, b"\n")
}

// Writes a line for each elected node.
fn put_elected(output: &mut [u8], start: usize, elected: &[u32]) -> usize
    requires { start + 29 * length elected.now ≤ length output.old }
    ensures { Written (lines_text elected_text 0 elected.now) output.old start output.new result }
{
    let mut at = start;
    for node in elected {
        at = put_number(output, at, b"elected=", u64::from(*node));
    }
    at
}
