// The command program's whole work, on slices: the bytes of a job in, the text of its answer out.
#![tactic(auto)]

ghost use Rattle.std.specs.Prelude.{◌≡◌, take};
ghost use Rattle.text.specs.Written.{Written};
ghost use Rattle.answers.specs.Answers.{said_by};
ghost use Rattle.outcomes.specs.Pres.{Room};
ghost use Rattle.job.specs.Run.{answer_of, head_answer, run_left, run_outcome};

use answers::{Answer, Refusal, Settings};
use reader::Head;

// The most bytes of a job text, and the bytes that every answer has room in.
pub const INPUT: usize = 49152;

pub const OUTPUT: usize = 32768;

// Answers a job text. ROOM if the output has fewer than 32,768 bytes, with nothing read; every other refusal is part of the text.
pub fn run(input: &[u8], output: &mut [u8]) -> Result<usize, Refusal>
    ensures { run_left (said_by result) output.new ≡ run_outcome input.now output.old }
{
    if output.len() < OUTPUT {
        return Err(Refusal::from(Answer::Room));
    }
    Ok(answer(input, output))
}

// Writes the answer: SIZE for too many bytes, TEXT for a faulty line, or the job's.
fn answer(input: &[u8], output: &mut [u8]) -> usize
    requires { Room output.old }
    ensures { Written (answer_of input.now) output.old 0 output.new result }
{
    if INPUT < input.len() {
        return outcomes::put_refusal(output, Answer::Size, 0);
    }
    let mut from = [0u32; Settings::JOB_EDGES];
    let mut to = [0u32; Settings::JOB_EDGES];
    let mut bits = [0u64; Settings::JOB_EDGES];
    match reader::read_job(input, &mut from, &mut to, &mut bits) {
        Ok(head) => answer_job(head, &from, &to, &bits, output),
        Err(line) => outcomes::put_refusal(output, Answer::Text, line.number),
    }
}

// Writes the answer of a job without a fault: SIZE above the program's limits, or its measure's.
fn answer_job(
    head: Head,
    from: &[u32; Settings::JOB_EDGES],
    to: &[u32; Settings::JOB_EDGES],
    bits: &[u64; Settings::JOB_EDGES],
    output: &mut [u8],
) -> usize
    requires { Room output.old }
    ensures { Written (head_answer head (take head.edges from.now) (take head.edges to.now) (take head.edges bits.now)) output.old 0 output.new result }
{
    let measure = head.measure;
    let top = head.top;
    if (Settings::JOB_NODES as u64) < top.nodes || (Settings::JOB_EDGES as u64) < head.edges {
        return outcomes::put_refusal(output, Answer::Size, 0);
    }
    let m = head.edges as usize;
    scoring::score_job(measure, top, &from[..m], &to[..m], &bits[..m], output)
}
