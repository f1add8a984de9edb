// Personalized PageRank: scores that nodes pass on along their weighted lists, round by round, and that keep to a personalization vector.
#![tactic(auto)]

ghost use Rattle.std.specs.Prelude.{◌≡◌, ◌*◌, ◌<◌, ◌≤◌, length, if◌then◌else◌, ◌==◌};
ghost use Rattle.regions.specs.Doubles.{double};
ghost use Rattle.answers.specs.Answers.{said_by};
ghost use Rattle.graph.specs.Given.{lent};
ghost use Rattle.graph.specs.Left.{left};
ghost use Rattle.rounds.specs.Steps.{RoundDone, RoundsDone};
ghost use Rattle.rounds.specs.Rounds.{after, outcome};
ghost use Rattle.rounds.specs.Vectors.{current_in, next_in, Vectors};
ghost use Rattle.links.specs.Links.{links_in};
ghost use Rattle.links.specs.Steps.{LinksPre, Divided, Advanced};
ghost use Rattle.personalized_pagerank.specs.Personalized.{personal_in, gains_part, personal_node, personal_step, counts_of, personal_of, damping_wrong, personalized_outcome};
ghost use Rattle.personalized_pagerank.specs.Steps.{bases_in, RoundPre, PersonalPre, PersonalBegun};

use answers::{Refusal, Rounds, Settings};
use graph::Graph;
use rounds::Own;

// From the personalization vector, into which nodes with no out-weight above zero dangle; 1/n for each node unless a vector is given whose
// sum is positive.
// Refuses SIZE, EMPTY, NODE, NUMBER, DAMPING, ROUNDS, LENGTH, ROOM, in this order. Running out of rounds is DONE, not settled.
pub fn personalized_pagerank(
    graph: Graph<'_>,
    settings: Settings,
    given: bool,
    personalization: &[f64],
    scores: &mut [f64],
    w32: &mut [u32],
    w64: &mut [u64],
    wf: &mut [f64],
) -> Result<Rounds, Refusal>
    ensures { left (said_by result) scores.new w32.new w64.new wf.new ≡ personalized_outcome settings given personalization.now (lent graph.entry scores.old w32.old w64.old wf.old) }
{
    let nodes = graph.nodes;
    let own = Own {
        number: rounds::reads_wrong(graph.weight, settings, given, personalization),
        damping: damping_wrong(settings.damping),
        rounds: settings.limit == 0,
        lengths: rounds::length_wrong(given, personalization.len(), nodes),
        start: false,
    };
    let lengths = graph::lengths(w32, w64, wf);
    rounds::refusal(graph, true, own, scores.len() < nodes, lengths)?;
    links::prepare(graph, w32, wf);
    begin(nodes, settings.damping, given, personalization, wf);
    let ended = run(nodes, settings, w32, wf);
    links::write(nodes, graph.from.len(), ended, scores, w32, w64, wf)
}

// DAMPING: 0 or below, or 1 or above.
fn damping_wrong(damping: f64) -> bool
    ensures { result ≡ damping_wrong damping }
{
    damping <= 0.0 || 1.0 <= damping
}

// The personalization in its region and as the current vector, and the next vector as the first round begins with it.
fn begin(nodes: usize, damping: f64, given: bool, vector: &[f64], wf: &mut [f64])
    requires { PersonalPre nodes given vector.now wf.old }
    ensures { PersonalBegun nodes damping (personal_of given vector.now nodes) wf.old wf.new }
{
    let sum = links::divisor(given, vector, nodes);
    let counts = counts(given, sum);
    let base = 3 * nodes;
    links::divide(nodes, counts, vector, chosen(counts, sum, nodes), base, wf);
    regions::copy_within(wf, base, 0, nodes);
    bases(nodes, damping, wf);
}

// A given vector whose sum is positive.
fn counts(given: bool, sum: f64) -> bool
    ensures { result ≡ counts_of given sum }
{
    given && 0.0 < sum
}

// The sum of a vector that counts, else the number of nodes.
fn chosen(counts: bool, sum: f64, nodes: usize) -> f64
    ensures { result ≡ (if counts then sum else double nodes) }
{
    if counts {
        sum
    } else {
        std::num::nearest_u64_to_f64(nodes as u64)
    }
}

// The rounds; no nodes is a stop rule met before the first of them.
fn run(nodes: usize, settings: Settings, w: &[u32], wf: &mut [f64]) -> Rounds
    requires { RoundPre nodes w.now settings.damping wf.old }
    ensures { RoundsDone nodes settings (outcome (nodes == 0) (personal_step (links_in nodes w.now wf.old) settings.damping settings.tolerance (personal_in nodes wf.old)) settings.limit (current_in nodes wf.old)) wf.old result wf.new }
{
    let one = |floats: &mut [f64]| -> bool
        requires { RoundPre nodes w.now settings.damping floats.old }
        ensures { RoundDone nodes (personal_step (links_in nodes w.exit.now floats.old) settings.damping settings.tolerance (personal_in nodes floats.old)) floats.old result floats.new × (next_in nodes floats.new ≡ bases_in nodes settings.damping floats.old) }
    { round(nodes, settings, w, floats) };
    rounds::run(settings, nodes == 0, one, wf)
}

// One round. Says whether the summed absolute change is below tolerance*n.
fn round(nodes: usize, settings: Settings, w: &[u32], wf: &mut [f64]) -> bool
    requires { RoundPre nodes w.now settings.damping wf.old }
    ensures { RoundDone nodes (personal_step (links_in nodes w.now wf.old) settings.damping settings.tolerance (personal_in nodes wf.old)) wf.old result wf.new × (next_in nodes wf.new ≡ bases_in nodes settings.damping wf.old) }
{
    let n = std::num::nearest_u64_to_f64(nodes as u64);
    spread(nodes, settings.damping, w, wf);
    advance(nodes, settings.damping, wf) < settings.tolerance * n
}

// The next vector at 0.0 + (1-damping)*p[j].
fn bases(nodes: usize, damping: f64, wf: &mut [f64])
    requires { 4 * nodes ≤ length wf.old }
    ensures { Divided nodes (bases_in nodes damping wf.old) nodes wf.old wf.new }
{
    let kept = 1.0 - damping;
    let base = 3 * nodes;
    for j in 0..nodes {
        wf[nodes + j] = 0.0 + kept * wf[base + j];
    }
}

// Each node in order gives: along its list, or into the personalization.
fn spread(nodes: usize, damping: f64, w: &[u32], wf: &mut [f64])
    requires { LinksPre nodes w.now wf.old }
    ensures { Vectors nodes wf.old (current_in nodes wf.old) (after (personal_node (links_in nodes w.now wf.old) damping (personal_in nodes wf.old) (current_in nodes wf.old)) nodes (next_in nodes wf.old)) wf.new }
{
    for v in 0..nodes {
        spread_node(nodes, damping, w, v, wf);
    }
}

// A node whose out-weight is above zero distributes its damped score by weight, every other one dangles.
fn spread_node(nodes: usize, damping: f64, w: &[u32], v: usize, wf: &mut [f64])
    requires { LinksPre nodes w.now wf.old × (v < nodes) }
    ensures { Vectors nodes wf.old (current_in nodes wf.old) (personal_node (links_in nodes w.now wf.old) damping (personal_in nodes wf.old) (current_in nodes wf.old) v (next_in nodes wf.old)) wf.new }
{
    let out = wf[2 * nodes + v];
    if 0.0 < out {
        links::give(nodes, damping * wf[v] / out, w, v, wf);
    } else {
        dangle(nodes, damping * wf[v], wf);
    }
}

// Each node gains dangling*p[j], in order.
fn dangle(nodes: usize, dangling: f64, wf: &mut [f64])
    requires { 4 * nodes ≤ length wf.old }
    ensures { Vectors nodes wf.old (current_in nodes wf.old) (after (gains_part dangling (personal_in nodes wf.old)) nodes (next_in nodes wf.old)) wf.new }
{
    let base = 3 * nodes;
    for j in 0..nodes {
        wf[nodes + j] += dangling * wf[base + j];
    }
}

// The next vector becomes the current one, and the base of another round stands in its place: one pass for both. Gives the summed absolute change.
fn advance(nodes: usize, damping: f64, wf: &mut [f64]) -> f64
    requires { 4 * nodes ≤ length wf.old }
    ensures { Advanced nodes wf.old result wf.new × (next_in nodes wf.new ≡ bases_in nodes damping wf.old) }
{
    let kept = 1.0 - damping;
    let base = 3 * nodes;
    let mut change = 0.0;
    for i in 0..nodes {
        let next = wf[nodes + i];
        change += roots::abs(wf[i] - next);
        wf[i] = next;
        wf[nodes + i] = 0.0 + kept * wf[base + i];
    }
    change
}
