// Laplacian centrality, of the Rust's other.rs. It reads the ends of the edges alone.
#![tactic(auto)]

ghost use Rattle.std.specs.Prelude.{◌≡◌, ◌<◌, ◌≤◌, length};
ghost use Rattle.regions.specs.Region.{over, list_of};
ghost use Rattle.answers.specs.Answers.{said_by};
ghost use Rattle.graph.specs.Given.{lent};
ghost use Rattle.graph.specs.Left.{left};
ghost use Rattle.rows.specs.Rows.{row_at};
ghost use Rattle.laplacian.specs.Laplacian.{entry_count, laplacian_score, laplacian_outcome};

use answers::Refusal;
use graph::Graph;
use rows::Rows;

// d*d + d + twice the neighbours' d, for each node; d is the number of its neighbour entries.
// Refuses SIZE, NODE, ROOM, in this order.
pub fn laplacian(
    graph: Graph<'_>,
    scores: &mut [f64],
    w32: &mut [u32],
    w64: &mut [u64],
    wf: &mut [f64],
) -> Result<(), Refusal>
    ensures { left (said_by result) scores.new w32.new w64.new wf.new ≡ laplacian_outcome (lent graph.entry scores.old w32.old w64.old wf.old) }
{
    let short = scores.len() < graph.nodes;
    graph::plain_refusal(graph, false, false, short, graph::lengths(w32, w64, wf))?;
    rows::build_rows(graph, w32);
    let rows = Rows {
        nodes: graph.nodes,
        cells: w32,
    };
    score_nodes(rows, scores);
    graph::wipe(
        graph::usual_fronts(graph.nodes, graph.from.len()),
        w32,
        w64,
        wf,
    );
    Ok(())
}

// The score of each node.
fn score_nodes(rows: Rows<'_>, scores: &mut [f64])
    requires { rows.nodes ≤ length scores.old }
    ensures { scores.new ≡ over (list_of (laplacian_score (row_at rows.entry.nodes rows.entry.cells.now)) rows.entry.nodes) scores.old }
{
    for v in 0..rows.nodes {
        scores[v] = score(rows, v);
    }
}

// The score of v: its own part, and its neighbours added in the order of their entries.
fn score(rows: Rows<'_>, v: usize) -> f64
    requires { v < rows.nodes }
    ensures { result ≡ laplacian_score (row_at rows.entry.nodes rows.entry.cells.now) v }
{
    let d = degree(rows, v);
    let mut sum = d * d + d;
    for u in rows.row(v) {
        sum += 2.0 * degree(rows, *u as usize);
    }
    sum
}

// How many neighbour entries v has.
fn degree(rows: Rows<'_>, v: usize) -> f64
    requires { v < rows.nodes }
    ensures { result ≡ entry_count (row_at rows.entry.nodes rows.entry.cells.now) v }
{
    std::num::nearest_u64_to_f64(rows.row(v).len() as u64)
}
