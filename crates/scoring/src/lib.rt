// The answer of a job's measure: which call answers which measure, and the slots and the workspace that it is lent.
#![tactic(auto)]

ghost use Rattle.std.specs.Prelude.{◌≡◌, length};
ghost use Rattle.text.specs.Written.{Written};
ghost use Rattle.outcomes.specs.Lent.{lent_with};
ghost use Rattle.outcomes.specs.Pres.{Room, Fits, Few};
ghost use Rattle.scoring.specs.Scored.{scored_text, on_zeros, doubles};
ghost use Rattle.scoring.specs.Pres.{Within};

use answers::Settings;
use lines::{Measure, Top};
use outcomes::Task;

// The used fronts of the largest job's workspace.
const NARROW: usize = 8 * Settings::JOB_NODES + 8 * Settings::JOB_EDGES + 8;

const WIDE: usize = 2 * Settings::JOB_NODES;

const FLOATS: usize = 6 * Settings::JOB_NODES + 4 * Settings::JOB_EDGES;

// Writes the answer of a job's measure on its edges, with doubles of the weights' bits, and slots and a workspace of zeros.
pub fn score_job(
    measure: Measure,
    top: Top,
    from: &[u32],
    to: &[u32],
    bits: &[u64],
    output: &mut [u8],
) -> usize
    requires { Room output.old × Within top.nodes bits.now }
    ensures { Written (scored_text measure top (on_zeros from.now to.now (doubles bits.now))) output.old 0 output.new result }
{
    let m = bits.len();
    let mut weights = [0.0; Settings::JOB_EDGES];
    reader::weights_of(bits, &mut weights);
    let task = Task {
        top,
        from,
        to,
        weight: &weights[..m],
    };
    let mut scores = [0.0; Settings::JOB_NODES];
    let mut elected = [0u32; Settings::JOB_NODES];
    let mut w32 = [0u32; NARROW];
    let mut w64 = [0u64; WIDE];
    let mut wf = [0.0; FLOATS];
    score(
        measure,
        task,
        &mut scores,
        &mut elected,
        &mut w32,
        &mut w64,
        &mut wf,
        output,
    )
}

// Writes the answer of a measure.
#[tactic(auto, unfolding(crate::specs::Scored::scored_text))]
fn score(
    measure: Measure,
    task: Task<'_>,
    scores: &mut [f64],
    elected: &mut [u32],
    w32: &mut [u32],
    w64: &mut [u64],
    wf: &mut [f64],
    output: &mut [u8],
) -> usize
    requires { Room output.old × Fits task.top.nodes (length scores.old) × Few (length elected.old) }
    ensures { Written (scored_text measure task.entry.top (lent_with task.entry scores.old elected.old w32.old w64.old wf.old)) output.old 0 output.new result }
{
    match measure {
        Measure::Betweenness => { measures::score_betweenness(task, scores, w32, w64, wf, output) }
        Measure::Pagerank => iterative::score_pagerank(task, scores, w32, w64, wf, output),
        Measure::Personalized => iterative::score_personalized(task, scores, w32, w64, wf, output),
        Measure::Eigenvector => iterative::score_eigenvector(task, scores, w32, w64, wf, output),
        Measure::Katz => iterative::score_katz(task, scores, w32, w64, wf, output),
        Measure::Reaching => measures::score_reaching(task, scores, w32, w64, wf, output),
        Measure::Voterank => measures::score_voterank(task, elected, w32, w64, wf, output),
        Measure::Laplacian => measures::score_laplacian(task, scores, w32, w64, wf, output),
        Measure::Degree => measures::score_degree(task, scores, output),
    }
}
