// Katz centrality: the walks that leave a node, each step weakened by alpha.
#![tactic(auto)]

ghost use Rattle.std.specs.Prelude.{◌≡◌, true, ◌<◌, length};
ghost use mathlib.Core.List.{foldl};
ghost use Rattle.answers.specs.Answers.{said_by};
ghost use Rattle.graph.specs.Edges.{edges_of};
ghost use Rattle.graph.specs.Given.{lent, of_edges, lent_graph};
ghost use Rattle.graph.specs.Left.{left};
ghost use Rattle.regions.specs.Region.{zero_f, list_of};
ghost use Rattle.rounds.specs.Vectors.{current_in, next_in, squared_change, Vectors};
ghost use Rattle.katz.specs.Katz.{beta_at, beta_of, katz_edge, katz_step, katz_rounds, katz_outcome};
ghost use Rattle.rounds.specs.Steps.{SpreadsPre, RoundDone, RoundsDone};
ghost use Rattle.katz.specs.Steps.{BetaPre, RunPre, RoundPre};

use answers::{Refusal, Rounds, Settings};
use graph::Graph;
use rounds::Own;

// The settings' damping is alpha; beta is 1 for each node unless `given`.
// Refuses SIZE, NODE, NUMBER, LENGTH, ROOM, and UNSETTLED when all rounds are used and none met the stop rule, in this order.
pub fn katz(
    graph: Graph<'_>,
    settings: Settings,
    given: bool,
    beta: &[f64],
    scores: &mut [f64],
    w32: &mut [u32],
    w64: &mut [u64],
    wf: &mut [f64],
) -> Result<Rounds, Refusal>
    ensures { left (said_by result) scores.new w32.new w64.new wf.new ≡ katz_outcome settings given beta.now (lent graph.entry scores.old w32.old w64.old wf.old) }
{
    let nodes = graph.nodes;
    let own = Own {
        number: rounds::reads_wrong(graph.weight, settings, given, beta),
        damping: false,
        rounds: false,
        lengths: rounds::length_wrong(given, beta.len(), nodes),
        start: false,
    };
    let lengths = graph::lengths(w32, w64, wf);
    rounds::refusal(graph, false, own, scores.len() < nodes, lengths)?;
    let ended = run(graph, settings, given, beta, wf);
    let front = graph::usual_fronts(nodes, graph.from.len());
    rounds::write_settled(nodes, front, ended, scores, w32, w64, wf)
}

// The rounds, from zero; no nodes is a stop rule met before the first of them.
fn run(graph: Graph<'_>, settings: Settings, given: bool, beta: &[f64], wf: &mut [f64]) -> Rounds
    requires { of_edges RunPre graph given beta.now wf.old }
    ensures { RoundsDone graph.entry.nodes settings (katz_rounds (lent_graph graph.entry) settings given beta.now) wf.old result wf.new }
{
    begin(graph.nodes, given, beta, wf);
    let one = |floats: &mut [f64]| -> bool
        requires { of_edges RoundPre graph given beta.now floats.old }
        ensures { RoundDone graph.entry.nodes (katz_step (lent_graph graph.entry) settings.damping settings.tolerance (beta_of given beta.exit.now graph.entry.nodes)) floats.old result floats.new × (next_in graph.entry.nodes floats.new ≡ beta_of given beta.exit.now graph.entry.nodes) }
    { round(graph, settings, given, beta, floats) };
    rounds::run(settings, graph.nodes == 0, one, wf)
}

// One round: what the edges make of beta becomes the current vector. Says whether the root of the summed squared change is below the tolerance.
fn round(graph: Graph<'_>, settings: Settings, given: bool, beta: &[f64], wf: &mut [f64]) -> bool
    requires { of_edges RoundPre graph given beta.now wf.old }
    ensures { RoundDone graph.entry.nodes (katz_step (lent_graph graph.entry) settings.damping settings.tolerance (beta_of given beta.now graph.entry.nodes)) wf.old result wf.new × (next_in graph.entry.nodes wf.new ≡ beta_of given beta.now graph.entry.nodes) }
{
    spread_edges(graph, settings.damping, wf);
    let change = advance(graph.nodes, given, beta, wf);
    roots::sqrt(change) < settings.tolerance
}

// Each edge, in list order: next[from] gains (alpha*weight)*current[to]; undirected, with two different ends, then the reverse.
fn spread_edges(graph: Graph<'_>, alpha: f64, wf: &mut [f64])
    requires { of_edges SpreadsPre graph wf.old }
    ensures { Vectors graph.entry.nodes wf.old (current_in graph.entry.nodes wf.old) (foldl (katz_edge graph.entry.directed alpha (current_in graph.entry.nodes wf.old)) (next_in graph.entry.nodes wf.old) (edges_of graph.entry.from.now graph.entry.to.now graph.entry.weight.now)) wf.new }
{
    rounds::spread_edges(graph, |weight| alpha * weight, wf);
}

// The summed squared change from the current to the next vector; the next becomes the current one, and beta stands in its place.
fn advance(nodes: usize, given: bool, beta: &[f64], wf: &mut [f64]) -> f64
    requires { BetaPre nodes given beta.now wf.old }
    ensures { (result ≡ squared_change nodes (current_in nodes wf.old) (next_in nodes wf.old)) × Vectors nodes wf.old (next_in nodes wf.old) (beta_of given beta.now nodes) wf.new }
{
    let mut sum = 0.0;
    for i in 0..nodes {
        let next = wf[nodes + i];
        let change = next - wf[i];
        sum += change * change;
        wf[i] = next;
        wf[nodes + i] = begins(given, beta, i);
    }
    sum
}

// The current vector at zero, and the next one at beta.
fn begin(nodes: usize, given: bool, beta: &[f64], wf: &mut [f64])
    requires { BetaPre nodes given beta.now wf.old }
    ensures { Vectors nodes wf.old (list_of (λ _. zero_f) nodes) (beta_of given beta.now nodes) wf.new }
{
    for i in 0..nodes {
        wf[i] = 0.0;
        wf[nodes + i] = begins(given, beta, i);
    }
}

// The beta of a node.
fn begins(given: bool, beta: &[f64], i: usize) -> f64
    requires { given ≡ true → i < length beta.now }
    ensures { result ≡ beta_at given beta.now i }
{
    if given { beta[i] } else { 1.0 }
}
