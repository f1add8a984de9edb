// What the two PageRanks share: the weighted lists with their out-weights, what a node gives along its list,
// the vector that is divided by its sum, and how a call ends.
#![tactic(auto)]

ghost use Rattle.std.specs.Prelude.{◌≡◌, ◌+◌, ◌<◌, ◌≤◌, true, length, if◌then◌else◌};
ghost use mathlib.Core.List.{foldl};
ghost use Rattle.regions.specs.Doubles.{one};
ghost use Rattle.regions.specs.Region.{list_of};
ghost use Rattle.answers.specs.Answers.{said_by};
ghost use Rattle.graph.specs.Fronts.{usual_fronts};
ghost use Rattle.graph.specs.Pres.{Limits};
ghost use Rattle.graph.specs.Left.{left};
ghost use Rattle.rounds.specs.Ending.{WritePre};
ghost use Rattle.rounds.specs.Vectors.{entry, current_in, next_in, Vectors};
ghost use Rattle.graph.specs.Given.{of_graph, of_edges};
ghost use Rattle.links.specs.Links.{shares_in, gives, sum_of, divisor_of, divided_at};
ghost use Rattle.links.specs.Steps.{LinksPre, PreparePre, Prepared, CopyPre, WeightsCopied, written_by, DividePre, Divided, GivePre, Given};

use answers::{Refusal, Rounds};
use graph::Graph;

// Builds the weighted lists, the out-weights from them, and beside them the weights of the entries.
pub fn prepare(graph: Graph<'_>, w32: &mut [u32], wf: &mut [f64])
    requires { of_edges PreparePre graph w32.old wf.old }
    ensures { of_graph Prepared graph.entry w32.old w32.new wf.old wf.new }
{
    lists::build_lists(graph, w32);
    lists::out_weights(graph, w32, wf);
    copy_weights(graph, w32, wf);
}

// The weights of the entries in the entries' order: a round reads them one after the other, not by edge.
fn copy_weights(graph: Graph<'_>, w: &[u32], wf: &mut [f64])
    requires { CopyPre graph.nodes (length graph.from.now) graph.weight.now w.now wf.old }
    ensures { WeightsCopied graph.entry.nodes (length graph.entry.from.now) graph.entry.weight.now w.now wf.old wf.new }
{
    let nodes = graph.nodes;
    let beside = nodes + 1 + 2 * graph.from.len();
    let weights = 4 * nodes;
    for k in w[0] as usize..w[nodes] as usize {
        wf[weights + k] = graph.weight[w[beside + k] as usize];
    }
}

// The sum of a vector that counts, else the number of nodes.
pub fn divisor(counts: bool, vector: &[f64], nodes: usize) -> f64
    ensures { result ≡ divisor_of counts vector.now nodes }
{
    if counts {
        total(vector)
    } else {
        std::num::nearest_u64_to_f64(nodes as u64)
    }
}

// The sum of the entries, in their order.
fn total(vector: &[f64]) -> f64
    ensures { result ≡ sum_of vector.now }
{
    vector.iter().fold(0.0, |sum, entry| sum + *entry)
}

// Each entry of a vector that counts, else 1, over the divisor.
pub fn divide(nodes: usize, counts: bool, vector: &[f64], divisor: f64, base: usize, wf: &mut [f64])
    requires { DividePre nodes counts vector.now base wf.old }
    ensures { Divided nodes (list_of (divided_at counts vector.now divisor) nodes) base wf.old wf.new }
{
    for i in 0..nodes {
        wf[base + i] = numerator(counts, vector, i) / divisor;
    }
}

// The entry of a vector that counts, else 1.
fn numerator(counts: bool, vector: &[f64], i: usize) -> f64
    requires { counts ≡ true → i < length vector.now }
    ensures { result ≡ (if counts then entry vector.now i else one) }
{
    if counts { vector[i] } else { 1.0 }
}

// The targets of v's list gain contribution*weight, in the list's order.
#[inline(always)]
pub fn give(nodes: usize, contribution: f64, w: &[u32], v: usize, wf: &mut [f64])
    requires { LinksPre nodes w.now wf.old × (v < nodes) }
    ensures { Vectors nodes wf.old (current_in nodes wf.old) (foldl (gives contribution) (next_in nodes wf.old) (shares_in nodes w.now wf.old v)) wf.new }
{
    let end = w[v + 1] as usize;
    let first = w[v] as usize;
    let k = give_fours(nodes, contribution, w, first, end, wf);
    give_rest(nodes, contribution, w, k, end, wf);
}

// The entries from first on, four a turn; returns the first of those that are left, fewer than four.
fn give_fours(
    nodes: usize,
    contribution: f64,
    w: &[u32],
    first: usize,
    end: usize,
    wf: &mut [f64],
) -> usize
    requires { GivePre nodes w.now first end wf.old }
    ensures { (first ≤ result) × (result ≤ end) × Given nodes contribution w.now first result wf.old wf.new }
{
    let mut k = first;
    while 4 <= end - k {
        give_four(nodes, contribution, w, k, wf);
        k += 4;
    }
    k
}

// Four entries; their targets and products are read before the first store, so that they wait for none.
fn give_four(nodes: usize, contribution: f64, w: &[u32], k: usize, wf: &mut [f64])
    requires { GivePre nodes w.now k (k + 4) wf.old }
    ensures { Given nodes contribution w.now k (k + 4) wf.old wf.new }
{
    let entries = nodes + 1 + k;
    let weights = 4 * nodes + k;
    let first = nodes + w[entries] as usize;
    let second = nodes + w[entries + 1] as usize;
    let third = nodes + w[entries + 2] as usize;
    let fourth = nodes + w[entries + 3] as usize;
    let to_first = contribution * wf[weights];
    let to_second = contribution * wf[weights + 1];
    let to_third = contribution * wf[weights + 2];
    let to_fourth = contribution * wf[weights + 3];
    wf[first] += to_first;
    wf[second] += to_second;
    wf[third] += to_third;
    wf[fourth] += to_fourth;
}

// The entries from first on, one a turn.
fn give_rest(nodes: usize, contribution: f64, w: &[u32], first: usize, end: usize, wf: &mut [f64])
    requires { GivePre nodes w.now first end wf.old }
    ensures { Given nodes contribution w.now first end wf.old wf.new }
{
    let entries = nodes + 1;
    let weights = 4 * nodes;
    for k in first..end {
        let at = nodes + w[entries + k] as usize;
        wf[at] += contribution * wf[weights + k];
    }
}

// The current vector as scores; wipes the workspace.
pub fn write(
    nodes: usize,
    edges: usize,
    ended: Rounds,
    scores: &mut [f64],
    w32: &mut [u32],
    w64: &mut [u64],
    wf: &mut [f64],
) -> Result<Rounds, Refusal>
    requires { Limits nodes edges × WritePre nodes (usual_fronts nodes edges) scores.old w32.old w64.old wf.old }
    ensures { left (said_by result) scores.new w32.new w64.new wf.new ≡ written_by (usual_fronts nodes edges) ended (current_in nodes wf.old) scores.old w32.old w64.old wf.old }
{
    let front = graph::usual_fronts(nodes, edges);
    regions::copy_out(wf, 0, nodes, scores);
    graph::wipe(front, w32, w64, wf);
    Ok(ended)
}
