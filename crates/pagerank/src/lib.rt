// PageRank: scores that nodes pass on along their weighted lists, round by round.
#![tactic(auto)]

ghost use Rattle.std.specs.Prelude.{◌≡◌, ◌*◌, ◌<◌, ◌≤◌, length, ◌==◌};
ghost use Rattle.answers.specs.Answers.{said_by};
ghost use Rattle.graph.specs.Given.{lent};
ghost use Rattle.graph.specs.Left.{left};
ghost use Rattle.rounds.specs.Steps.{RoundDone, RoundsDone};
ghost use Rattle.rounds.specs.Rounds.{after, outcome};
ghost use Rattle.rounds.specs.Vectors.{current_in, next_in, Vectors};
ghost use Rattle.links.specs.Links.{links_in, outs_in};
ghost use Rattle.links.specs.Steps.{LinksPre, Advanced};
ghost use Rattle.pagerank.specs.PageRank.{with_dangling, dangling_sum, pagerank_node, pagerank_step, start_wrong, pagerank_outcome};
ghost use Rattle.pagerank.specs.Steps.{NoneDangles};

use answers::{Refusal, Rounds, Settings};
use graph::Graph;
use rounds::Own;

// The sum below which a start is refused.
const TINY: f64 = 0.000000001;

// From 1/n for each node, or from the given start divided by its sum.
// Refuses SIZE, NODE, NUMBER, LENGTH, START, ROOM, in this order. Running out of rounds is DONE, not settled.
pub fn pagerank(
    graph: Graph<'_>,
    settings: Settings,
    given: bool,
    start: &[f64],
    scores: &mut [f64],
    w32: &mut [u32],
    w64: &mut [u64],
    wf: &mut [f64],
) -> Result<Rounds, Refusal>
    ensures { left (said_by result) scores.new w32.new w64.new wf.new ≡ pagerank_outcome settings given start.now (lent graph.entry scores.old w32.old w64.old wf.old) }
{
    let nodes = graph.nodes;
    let sum = links::divisor(given, start, nodes);
    let own = Own {
        number: rounds::reads_wrong(graph.weight, settings, given, start),
        damping: false,
        rounds: false,
        lengths: rounds::length_wrong(given, start.len(), nodes),
        start: start_wrong(given, nodes, sum),
    };
    let lengths = graph::lengths(w32, w64, wf);
    rounds::refusal(graph, false, own, scores.len() < nodes, lengths)?;
    links::prepare(graph, w32, wf);
    links::divide(nodes, given, start, sum, 0, wf);
    let ended = run(nodes, settings, w32, wf);
    links::write(nodes, graph.from.len(), ended, scores, w32, w64, wf)
}

// START: there are nodes, and the sum of the given start is about zero.
fn start_wrong(given: bool, nodes: usize, sum: f64) -> bool
    ensures { result ≡ start_wrong given nodes sum }
{
    given && 0 < nodes && roots::abs(sum) < TINY
}

// The rounds; no nodes is a stop rule met before the first of them.
fn run(nodes: usize, settings: Settings, w: &[u32], wf: &mut [f64]) -> Rounds
    requires { LinksPre nodes w.now wf.old }
    ensures { RoundsDone nodes settings (outcome (nodes == 0) (pagerank_step (links_in nodes w.now wf.old) settings.damping settings.tolerance) settings.limit (current_in nodes wf.old)) wf.old result wf.new }
{
    let none = none_dangles(nodes, wf);
    let one = |floats: &mut [f64]| -> bool
        requires { LinksPre nodes w.now floats.old × NoneDangles nodes none (outs_in nodes floats.old) }
        ensures { RoundDone nodes (pagerank_step (links_in nodes w.exit.now floats.old) settings.damping settings.tolerance) floats.old result floats.new }
    { round(nodes, settings, none, w, floats) };
    rounds::run(settings, nodes == 0, one, wf)
}

// Whether no node dangles: the out-weights are those of every round.
fn none_dangles(nodes: usize, wf: &[f64]) -> bool
    requires { 4 * nodes ≤ length wf.now }
    ensures { NoneDangles nodes result (outs_in nodes wf.now) }
{
    wf[2 * nodes..3 * nodes].iter().all(|out| *out != 0.0)
}

// One round. Says whether the summed absolute change is below tolerance*n. A function of its own in the compiled code too: its loops
// then have the registers to themselves, whatever stands around them.
#[inline(never)]
fn round(nodes: usize, settings: Settings, none: bool, w: &[u32], wf: &mut [f64]) -> bool
    requires { LinksPre nodes w.now wf.old × NoneDangles nodes none (outs_in nodes wf.old) }
    ensures { RoundDone nodes (pagerank_step (links_in nodes w.now wf.old) settings.damping settings.tolerance) wf.old result wf.new }
{
    let n = std::num::nearest_u64_to_f64(nodes as u64);
    let damping = settings.damping;
    let dangling = dangling_sum(nodes, none, wf);
    let base = (1.0 - damping) / n + dangling * (damping / n);
    regions::fill(wf, nodes, nodes, base);
    spread(nodes, damping, w, wf);
    advance(nodes, wf) < settings.tolerance * n
}

// The dangling sum of the current vector; where no node dangles no pass is needed.
fn dangling_sum(nodes: usize, none: bool, wf: &[f64]) -> f64
    requires { (4 * nodes ≤ length wf.now) × NoneDangles nodes none (outs_in nodes wf.now) }
    ensures { result ≡ dangling_sum nodes (outs_in nodes wf.now) (current_in nodes wf.now) }
{
    if none {
        return 0.0;
    }
    let mut dangling = 0.0;
    for i in 0..nodes {
        dangling = with_dangling(nodes, i, wf, dangling);
    }
    dangling
}

// A node whose out-weight is exactly zero adds its score.
fn with_dangling(nodes: usize, i: usize, wf: &[f64], sum: f64) -> f64
    requires { (4 * nodes ≤ length wf.now) × (i < nodes) }
    ensures { result ≡ with_dangling (outs_in nodes wf.now) (current_in nodes wf.now) i sum }
{
    let out = wf[2 * nodes + i];
    if out == 0.0 { sum + wf[i] } else { sum }
}

// Each node in order gives along its list.
fn spread(nodes: usize, damping: f64, w: &[u32], wf: &mut [f64])
    requires { LinksPre nodes w.now wf.old }
    ensures { Vectors nodes wf.old (current_in nodes wf.old) (after (pagerank_node (links_in nodes w.now wf.old) damping (current_in nodes wf.old)) nodes (next_in nodes wf.old)) wf.new }
{
    for v in 0..nodes {
        spread_node(nodes, damping, w, v, wf);
    }
}

// A node whose out-weight is above zero distributes its damped score by weight.
fn spread_node(nodes: usize, damping: f64, w: &[u32], v: usize, wf: &mut [f64])
    requires { LinksPre nodes w.now wf.old × (v < nodes) }
    ensures { Vectors nodes wf.old (current_in nodes wf.old) (pagerank_node (links_in nodes w.now wf.old) damping (current_in nodes wf.old) v (next_in nodes wf.old)) wf.new }
{
    let out = wf[2 * nodes + v];
    if 0.0 < out {
        links::give(nodes, damping * wf[v] / out, w, v, wf);
    }
}

// The next vector becomes the current one. Gives the summed absolute change.
fn advance(nodes: usize, wf: &mut [f64]) -> f64
    requires { 4 * nodes ≤ length wf.old }
    ensures { Advanced nodes wf.old result wf.new }
{
    let mut change = 0.0;
    for i in 0..nodes {
        let next = wf[nodes + i];
        change += roots::abs(wf[i] - next);
        wf[i] = next;
    }
    change
}
