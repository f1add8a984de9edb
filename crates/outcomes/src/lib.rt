// What a measure of a job is asked, and what its call said, written to the output as the answer's text.
#![tactic(auto)]

ghost use Rattle.std.specs.Prelude.{◌≡◌, length, take};
ghost use Rattle.text.specs.Written.{Written};
ghost use Rattle.answers.specs.Answers.{number_of, said_by};
ghost use Rattle.reply.specs.Reply.{answer_text, refusal_text};
ghost use Rattle.outcomes.specs.Texts.{said_text, settings_of, plain_text, ended_text, elected_text};
ghost use Rattle.outcomes.specs.Pres.{Room, Fits, Few};

use answers::{Answer, Refusal, Rounds, Settings};
use graph::Graph;
use lines::{Measure, Top};

// What a measure is asked: the lines `kind` to `tolerance` of its job, and the job's edges.
#[derive(Clone, Copy)]
pub struct Task<'a> {
    pub top: Top,
    pub from: &'a [u32],
    pub to: &'a [u32],
    pub weight: &'a [f64],
}

impl<'a> Task<'a> {
    // The graph, as the calls are lent it.
    pub fn graph(self) -> Graph<'a>
        ensures nodes_are { result.nodes ≡ self.entry.top.nodes }
        ensures kind_is { result.directed ≡ self.entry.top.directed }
        ensures from_is { result.from.now ≡ self.entry.from.now }
        ensures to_is { result.to.now ≡ self.entry.to.now }
        ensures weight_is { result.weight.now ≡ self.entry.weight.now }
    {
        let Task {
            top,
            from,
            to,
            weight,
        } = self;
        Graph {
            nodes: top.nodes as usize,
            directed: top.directed,
            from,
            to,
            weight,
        }
    }
}

// The settings of a job, with doubles of its bits.
pub fn settings_of(top: Top) -> Settings
    ensures { result ≡ settings_of top }
{
    Settings {
        damping: text::float_of(top.factor),
        tolerance: text::float_of(top.tolerance),
        limit: top.rounds,
    }
}

// Writes what a measure without rounds says.
pub fn put_plain(
    output: &mut [u8],
    measure: Measure,
    nodes: usize,
    said: Result<(), Refusal>,
    scores: &[f64],
) -> usize
    requires { Room output.old × Fits nodes (length scores.now) }
    ensures { Written (plain_text measure nodes (said_by said) scores.now) output.old 0 output.new result }
{
    put_scores(output, measure, nodes, said.map(|()| (0, None)), scores)
}

// Writes what an iterative measure says.
pub fn put_ended(
    output: &mut [u8],
    measure: Measure,
    nodes: usize,
    said: Result<Rounds, Refusal>,
    scores: &[f64],
) -> usize
    requires { Room output.old × Fits nodes (length scores.now) }
    ensures { Written (ended_text measure nodes (said_by said) scores.now) output.old 0 output.new result }
{
    put_scores(
        output,
        measure,
        nodes,
        said.map(|r| (r.rounds, Some(r.settled))),
        scores,
    )
}

// Writes the first scores, with the rounds that made them and whether these settled, or a refusal.
fn put_scores(
    output: &mut [u8],
    measure: Measure,
    nodes: usize,
    said: Result<(u64, Option<bool>), Refusal>,
    scores: &[f64],
) -> usize
    requires { Room output.old × Fits nodes (length scores.now) }
    ensures { Written (said_text (said_by said) (λ r. answer_text measure nodes r.0 r.1 (take nodes scores.now))) output.old 0 output.new result }
{
    match said {
        Ok((rounds, settled)) => reply::put_answer(
            output,
            0,
            measure,
            nodes as u64,
            rounds,
            settled,
            &scores[..nodes],
        ),
        Err(refusal) => put_refusal(output, refusal.answer, 0),
    }
}

// Writes what an election says.
pub fn put_elected(
    output: &mut [u8],
    nodes: usize,
    said: Result<usize, Refusal>,
    elected: &[u32],
) -> usize
    requires { Room output.old × Few (length elected.now) }
    ensures { Written (elected_text nodes (said_by said) elected.now) output.old 0 output.new result }
{
    match said {
        Ok(count) => {
            let k = count.min(elected.len());
            reply::put_election(output, 0, nodes as u64, &elected[..k])
        }
        Err(refusal) => put_refusal(output, refusal.answer, 0),
    }
}

// Writes a refusal.
pub fn put_refusal(output: &mut [u8], answer: Answer, line: u64) -> usize
    requires { Room output.old }
    ensures { Written (refusal_text (number_of answer) line) output.old 0 output.new result }
{
    reply::put_refusal(output, 0, u64::from(u32::from(answer)), line)
}
