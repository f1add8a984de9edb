// Betweenness of the edges (Brandes 2001).
#![tactic(auto)]

ghost use Rattle.std.specs.Prelude.{◌≡◌, not, ◌&&◌, ◌||◌, ltb, length};
ghost use Rattle.answers.specs.Answers.{said_by};
ghost use Rattle.graph.specs.Given.{lent, of_graph};
ghost use Rattle.graph.specs.Left.{left};
ghost use Rattle.edge_betweenness.specs.Edges.{edge_scores, edge_betweenness_outcome};
ghost use Rattle.edge_betweenness.specs.Steps.{ScorePre, ScorePost};

use answers::Refusal;
use graph::Graph;
use hops::TooManyPaths;

// The edge betweenness of each edge: the sum, over the starts, of the shares of fewest hop sequences that cross it. Forward is its pair's total, back,
// undirected only, the reversed pair's. Normalized and n > 1: times 1/(n(n-1)) directed, 2/(n(n-1)) undirected. A directed call neither needs nor
// touches `back`. Refuses SIZE, EMPTY, NODE, ROOM, in this order, and then PATHS. Reads no weight.
pub fn edge_betweenness(
    graph: Graph<'_>,
    normalized: bool,
    forward: &mut [f64],
    back: &mut [f64],
    w32: &mut [u32],
    w64: &mut [u64],
    wf: &mut [f64],
) -> Result<(), Refusal>
    ensures { left (said_by result) (edge_scores forward.new back.new) w32.new w64.new wf.new ≡ edge_betweenness_outcome normalized (lent graph.entry (edge_scores forward.old back.old) w32.old w64.old wf.old) }
{
    let short = edges_short(graph, forward.len(), back.len());
    let lengths = graph::lengths(w32, w64, wf);
    graph::plain_refusal(graph, true, false, short, lengths)?;
    let scored = score_edges(graph, normalized, forward, back, w32, w64, wf);
    graph::wipe(
        graph::usual_fronts(graph.nodes, graph.from.len()),
        w32,
        w64,
        wf,
    );
    scored?;
    Ok(())
}

// Whether a result slice of edge betweenness is too short: m forward and, undirected, m back.
fn edges_short(graph: Graph<'_>, forward: usize, back: usize) -> bool
    ensures { result ≡ (ltb forward (length graph.entry.from.now) || (not graph.entry.directed && ltb back (length graph.entry.from.now))) }
{
    let edges = graph.from.len();
    forward < edges || (!graph.directed && back < edges)
}

// The results, start by start; a path count above the limit leaves them as they were.
fn score_edges(
    graph: Graph<'_>,
    normalized: bool,
    forward: &mut [f64],
    back: &mut [f64],
    w32: &mut [u32],
    w64: &mut [u64],
    wf: &mut [f64],
) -> Result<(), TooManyPaths>
    requires { of_graph ScorePre graph forward.old back.old w32.old w64.old wf.old }
    ensures { ScorePost graph.entry.nodes graph.entry.directed normalized graph.entry.from.now graph.entry.to.now graph.entry.weight.now forward.old back.old w32.old w64.old wf.old forward.new back.new w32.new w64.new wf.new result }
{
    pair_starts::prepare_pairs(graph, w32, w64, wf);
    pair_starts::cross_starts(graph.nodes, graph.from.len(), w32, w64, wf)?;
    edge_totals::write_edges(graph, normalized, w32, wf, forward, back);
    Ok(())
}
