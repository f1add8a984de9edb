// Weighted lists, built in the front of the workspace, and the out-weights of the nodes. An entry is a target and the position
// of its edge; its weight stays in the lent slice. A walk counts the entries, another places them, from the last edge to the
// first: each list is filled from its far end, and so stands in edge order.
#![tactic(auto)]

ghost use Rattle.std.specs.Prelude.{◌≡◌, ◌<◌, length};
ghost use Rattle.graph.specs.Given.{of_graph, of_edges};
ghost use Rattle.lists.specs.Lists.{weight_of, shares_at, ListsFit, BuildPre, Built, OutPre, OutWeights};
ghost use Rattle.lists.specs.Walks.{with_entry, PutPre, PlacePre, Placed};

use graph::Graph;

// Builds the lists of all nodes: n + 1 offsets, then the targets, then the edge positions.
pub fn build_lists(graph: Graph<'_>, w: &mut [u32])
    requires { of_edges BuildPre graph w.old }
    ensures { of_graph Built graph.entry w.old w.new }
{
    regions::wipe(w, graph.nodes + 1);
    rows::count_entries(graph, w);
    rows::sum_counts(graph.nodes, w);
    place_entries(graph, w);
}

// The out-weight of each node, in the third region of n numbers.
pub fn out_weights(graph: Graph<'_>, w: &[u32], wf: &mut [f64])
    requires { OutPre graph.nodes (length graph.weight.now) graph.weight.now w.now wf.old }
    ensures { OutWeights graph.entry.nodes (length graph.entry.weight.now) graph.entry.weight.now w.now wf.old wf.new }
{
    let base = 2 * graph.nodes;
    for v in 0..graph.nodes {
        wf[base + v] = out_weight(graph, w, v);
    }
}

// The weights of the list of v, added in edge order.
fn out_weight(graph: Graph<'_>, w: &[u32], v: usize) -> f64
    requires { ListsFit graph.nodes (length graph.weight.now) w.now × (v < graph.nodes) }
    ensures { result ≡ weight_of (shares_at graph.entry.nodes (length graph.entry.weight.now) graph.entry.weight.now w.now v) }
{
    let Graph { nodes, weight, .. } = graph;
    let beside = nodes + 1 + 2 * weight.len();
    let mut sum = 0.0;
    for at in &w[beside + w[v] as usize..beside + w[v + 1] as usize] {
        sum += weight[*at as usize];
    }
    sum
}

// The entries of the edges, from the last to the first: one for its from and, undirected, one for its to unless that is its from.
fn place_entries(graph: Graph<'_>, w: &mut [u32])
    requires { of_graph PlacePre graph w.old }
    ensures { of_graph Placed graph.entry w.old w.new }
{
    let Graph {
        directed,
        from,
        to,
        ..
    } = graph;
    for i in (0..from.len()).rev() {
        put(graph, from[i] as usize, to[i], i, w);
        if !directed && from[i] != to[i] {
            put(graph, to[i] as usize, from[i], i, w);
        }
    }
}

// An entry before the last one of its list: the row of targets takes it, and its edge's position stands beside it.
fn put(graph: Graph<'_>, own: usize, other: u32, at: usize, w: &mut [u32])
    requires { PutPre graph.nodes (length graph.from.now) own at w.old }
    ensures { w.new ≡ with_entry graph.entry.nodes (length graph.entry.from.now) own other at w.old }
{
    let entries = graph.nodes + 1;
    let place = rows::put(entries, own, other, w);
    w[entries + 2 * graph.from.len() + place] = at as u32;
}
