// Each edge's total out of the workspace of edge betweenness: the totals scaled in their place, and written by the edges.
#![tactic(auto)]

ghost use Rattle.std.specs.Prelude.{◌≡◌, ◌+◌, ◌-◌, ◌*◌, ◌<◌, ◌≤◌, length, if◌then◌else◌};
ghost use Rattle.std.specs.Float.{binary64};
ghost use Rattle.std.specs.Float.Ieee.{div};
ghost use Rattle.regions.specs.Doubles.{double, one, two};
ghost use Rattle.answers.specs.Settings.{node_limit};
ghost use Rattle.edge_totals.specs.Writes.{EdgesPre, EdgesPost, Multiplied, ScalePre, TotalsScaled};

use graph::Graph;
use pairs::Table;

// The results out of the workspace: the totals scaled in their place, then each edge's, by cursors that stand where the rows begin.
pub fn write_edges(
    graph: Graph<'_>,
    normalized: bool,
    w32: &mut [u32],
    wf: &mut [f64],
    forward: &mut [f64],
    back: &mut [f64],
)
    requires { EdgesPre graph.nodes graph.directed graph.from.now graph.to.now w32.old wf.old forward.old back.old }
    ensures { EdgesPost graph.entry.nodes graph.entry.directed normalized graph.entry.from.now graph.entry.to.now w32.old wf.old forward.old back.old w32.new wf.new forward.new back.new }
{
    let edges = graph.from.len();
    let table = Table::of(graph.nodes, edges);
    scale_totals(graph.nodes, graph.directed, normalized, 2 * edges, wf);
    regions::copy_within(w32, 0, table.marks, graph.nodes);
    pairs::write_forward(graph.nodes, table, graph.from, w32, wf, forward);
    if !graph.directed {
        pairs::write_back(
            graph.nodes,
            table,
            graph.from,
            graph.to,
            w32,
            wf,
            forward,
            back,
        );
    }
}

// The totals in their place: scaled if normalized and n > 1, and else as they are.
fn scale_totals(nodes: usize, directed: bool, normalized: bool, many: usize, wf: &mut [f64])
    requires { ScalePre nodes many wf.old }
    ensures { TotalsScaled nodes directed normalized many wf.old wf.new }
{
    if normalized && 1 < nodes {
        multiply(4 * nodes, many, pair_factor(nodes, directed), wf);
    }
}

// One over the pairs of different nodes: the ordered ones if directed, and else the unordered ones.
fn pair_factor(nodes: usize, directed: bool) -> f64
    requires { (1 < nodes) × (nodes ≤ node_limit) }
    ensures { result ≡ div binary64 (if directed then one else two) (double (nodes * (nodes - 1))) }
{
    let pairs = std::num::nearest_u64_to_f64((nodes * (nodes - 1)) as u64);
    if directed { 1.0 / pairs } else { 2.0 / pairs }
}

// The len floats from base, each times the factor.
fn multiply(base: usize, len: usize, factor: f64, wf: &mut [f64])
    requires { base + len ≤ length wf.old }
    ensures { Multiplied wf.old base len factor wf.new }
{
    for total in &mut wf[base..base + len] {
        *total *= factor;
    }
}
