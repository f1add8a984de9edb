// Eigenvector centrality: power iteration on the edges and the identity, from the uniform unit vector.
#![tactic(auto)]

ghost use Rattle.std.specs.Prelude.{◌≡◌, ◌+◌, ◌≤◌, not, ◌||◌, length};
ghost use mathlib.Core.List.{foldl};
ghost use Rattle.std.specs.Float.Ieee.Scale.{finite};
ghost use Rattle.answers.specs.Answers.{said_by};
ghost use Rattle.graph.specs.Checks.{number_wrong};
ghost use Rattle.graph.specs.Edges.{edges_of};
ghost use Rattle.graph.specs.Given.{lent, of_edges, lent_graph};
ghost use Rattle.graph.specs.Left.{left};
ghost use Rattle.rounds.specs.Vectors.{current_in, next_in, squared_change, Vectors};
ghost use Rattle.rounds.specs.Steps.{SpreadsPre, RoundDone, RoundsDone};
ghost use Rattle.eigenvector.specs.Eigenvector.{start_of, eigen_edge, norm_of, scaled, eigen_step, eigen_rounds, eigen_outcome};
ghost use Rattle.eigenvector.specs.Steps.{RoundPre};

use answers::{Refusal, Rounds, Settings};
use graph::Graph;
use rounds::Own;

// A norm below this ends the rounds.
const TINY: f64 = 0.0000000001;

// The damping is not read.
// Refuses SIZE, NODE, NUMBER, ROOM, and UNSETTLED when all rounds are used and none met a stop rule, in this order.
pub fn eigenvector(
    graph: Graph<'_>,
    settings: Settings,
    scores: &mut [f64],
    w32: &mut [u32],
    w64: &mut [u64],
    wf: &mut [f64],
) -> Result<Rounds, Refusal>
    ensures { left (said_by result) scores.new w32.new w64.new wf.new ≡ eigen_outcome settings (lent graph.entry scores.old w32.old w64.old wf.old) }
{
    let nodes = graph.nodes;
    let own = Own {
        number: reads_wrong(graph.weight, settings.tolerance),
        damping: false,
        rounds: false,
        lengths: false,
        start: false,
    };
    let lengths = graph::lengths(w32, w64, wf);
    rounds::refusal(graph, false, own, scores.len() < nodes, lengths)?;
    let ended = run(graph, settings, wf);
    let front = graph::usual_fronts(nodes, graph.from.len());
    rounds::write_settled(nodes, front, ended, scores, w32, w64, wf)
}

// An infinity or a NaN among the weights and the tolerance.
fn reads_wrong(weight: &[f64], tolerance: f64) -> bool
    ensures { result ≡ number_wrong weight.now || not (finite tolerance) }
{
    graph::number_wrong(weight) || !graph::is_finite(tolerance)
}

// The rounds, from the uniform vector. Without edges a stop rule is met before the first.
fn run(graph: Graph<'_>, settings: Settings, wf: &mut [f64]) -> Rounds
    requires { of_edges SpreadsPre graph wf.old }
    ensures { RoundsDone graph.entry.nodes settings (eigen_rounds (lent_graph graph.entry) settings) wf.old result wf.new }
{
    let nodes = graph.nodes;
    let start = start_value(nodes);
    regions::fill(wf, 0, nodes + nodes, start);
    let one = |floats: &mut [f64]| -> bool
        requires { of_edges RoundPre graph start floats.old }
        ensures { RoundDone graph.entry.nodes (eigen_step (lent_graph graph.entry) settings.tolerance) floats.old result floats.new × (next_in graph.entry.nodes floats.new ≡ current_in graph.entry.nodes floats.new) }
    { round(graph, settings.tolerance, start, floats) };
    rounds::run(settings, graph.from.len() == 0, one, wf)
}

// 1/sqrt(n), which every entry starts with.
fn start_value(nodes: usize) -> f64
    ensures { result ≡ start_of nodes }
{
    1.0 / roots::sqrt(std::num::nearest_u64_to_f64(nodes as u64))
}

// One round: what the edges make of the vector, over its norm. A tiny norm gives the start value everywhere and stops; else the root of the
// summed squared change stops, if it is below the tolerance.
fn round(graph: Graph<'_>, tolerance: f64, start: f64, wf: &mut [f64]) -> bool
    requires { of_edges RoundPre graph start wf.old }
    ensures { RoundDone graph.entry.nodes (eigen_step (lent_graph graph.entry) tolerance) wf.old result wf.new × (next_in graph.entry.nodes wf.new ≡ current_in graph.entry.nodes wf.new) }
{
    let nodes = graph.nodes;
    spread_edges(graph, wf);
    let norm = norm(nodes, wf);
    if norm < TINY {
        regions::fill(wf, 0, nodes + nodes, start);
        return true;
    }
    let change = normalize(nodes, norm, wf);
    roots::sqrt(change) < tolerance
}

// Each edge, in list order: next[to] gains weight*current[from]; undirected, with two different ends, then the reverse.
fn spread_edges(graph: Graph<'_>, wf: &mut [f64])
    requires { of_edges SpreadsPre graph wf.old }
    ensures { Vectors graph.entry.nodes wf.old (current_in graph.entry.nodes wf.old) (foldl (eigen_edge graph.entry.directed (current_in graph.entry.nodes wf.old)) (next_in graph.entry.nodes wf.old) (edges_of graph.entry.from.now graph.entry.to.now graph.entry.weight.now)) wf.new }
{
    let turned = Graph {
        from: graph.to,
        to: graph.from,
        ..graph
    };
    rounds::spread_edges(turned, |weight| weight, wf);
}

// The root of the summed squares of the next vector.
fn norm(nodes: usize, wf: &[f64]) -> f64
    requires { nodes + nodes ≤ length wf.now }
    ensures { result ≡ norm_of nodes (next_in nodes wf.now) }
{
    let next = &wf[nodes..nodes + nodes];
    roots::sqrt(next.iter().fold(0.0, |sum, y| sum + *y * *y))
}

// The next vector over its norm becomes both vectors. The summed squared change from the current one.
fn normalize(nodes: usize, norm: f64, wf: &mut [f64]) -> f64
    requires { nodes + nodes ≤ length wf.old }
    ensures { (result ≡ squared_change nodes (current_in nodes wf.old) (scaled nodes norm (next_in nodes wf.old))) × Vectors nodes wf.old (scaled nodes norm (next_in nodes wf.old)) (scaled nodes norm (next_in nodes wf.old)) wf.new }
{
    let mut sum = 0.0;
    for i in 0..nodes {
        let next = wf[nodes + i] / norm;
        let change = next - wf[i];
        sum += change * change;
        wf[i] = next;
        wf[nodes + i] = next;
    }
    sum
}
