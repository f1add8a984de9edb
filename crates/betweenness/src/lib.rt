// Betweenness of the nodes (Brandes 2001).
#![tactic(auto)]

ghost use Rattle.std.specs.Prelude.{◌≡◌, slice_index_or};
ghost use Rattle.std.specs.Float.{nan, binary64};
ghost use Rattle.std.specs.Float.Ieee.{mul};
ghost use Rattle.regions.specs.Region.{over, list_of};
ghost use Rattle.answers.specs.Answers.{said_by};
ghost use Rattle.graph.specs.Given.{lent, of_edges};
ghost use Rattle.graph.specs.Left.{left};
ghost use Rattle.betweenness.specs.Betweenness.{scaled, betweenness_outcome};
ghost use Rattle.betweenness.specs.Writes.{ScorePre, ScorePost, WritePre};

use answers::Refusal;
use graph::Graph;
use hops::TooManyPaths;

// The betweenness of each node: the sum, over the starts, of the shares of fewest hop sequences that pass through it. Normalized: times
// 1/((n-1)(n-2)), only if n > 2; raw undirected: times 0.5. Refuses SIZE, EMPTY, NODE, ROOM, in this order, and then PATHS. Reads no weight.
pub fn betweenness(
    graph: Graph<'_>,
    normalized: bool,
    scores: &mut [f64],
    w32: &mut [u32],
    w64: &mut [u64],
    wf: &mut [f64],
) -> Result<(), Refusal>
    ensures { left (said_by result) scores.new w32.new w64.new wf.new ≡ betweenness_outcome normalized (lent graph.entry scores.old w32.old w64.old wf.old) }
{
    let short = scores.len() < graph.nodes;
    let lengths = graph::lengths(w32, w64, wf);
    graph::plain_refusal(graph, true, false, short, lengths)?;
    let scored = score_nodes(graph, normalized, scores, w32, w64, wf);
    graph::wipe(
        graph::usual_fronts(graph.nodes, graph.from.len()),
        w32,
        w64,
        wf,
    );
    scored?;
    Ok(())
}

// The scores, start by start. They stay as they were if a path count is above the limit.
fn score_nodes(
    graph: Graph<'_>,
    normalized: bool,
    scores: &mut [f64],
    w32: &mut [u32],
    w64: &mut [u64],
    wf: &mut [f64],
) -> Result<(), TooManyPaths>
    requires { of_edges ScorePre graph scores.old w32.old w64.old wf.old }
    ensures { ScorePost graph.entry.nodes graph.entry.directed normalized graph.entry.from.now graph.entry.to.now graph.entry.weight.now scores.old w32.old w64.old wf.old scores.new w32.new w64.new wf.new result }
{
    starts::prepare(graph, w32, w64, wf);
    starts::add_starts(graph.nodes, graph.from.len(), w32, w64, wf)?;
    write_scores(graph.nodes, graph.directed, normalized, wf, scores);
    Ok(())
}

// The scores out of the workspace: scaled, or as they are.
fn write_scores(nodes: usize, directed: bool, normalized: bool, wf: &[f64], scores: &mut [f64])
    requires { WritePre nodes wf.now scores.old }
    ensures { scores.new ≡ over (list_of (λ v. scaled nodes directed normalized (slice_index_or wf.now v nan)) nodes) scores.old }
{
    if normalized {
        let scales = 2 < nodes;
        if scales {
            let pairs = (nodes - 1) * (nodes - 2);
            let factor = 1.0 / std::num::nearest_usize_to_f64(pairs);
            write_scaled(nodes, factor, wf, scores);
        } else {
            regions::copy_out(wf, 0, nodes, scores);
        }
    } else if directed {
        regions::copy_out(wf, 0, nodes, scores);
    } else {
        write_scaled(nodes, 0.5, wf, scores);
    }
}

// Each of the scores times the factor.
fn write_scaled(nodes: usize, factor: f64, wf: &[f64], scores: &mut [f64])
    requires { WritePre nodes wf.now scores.old }
    ensures { scores.new ≡ over (list_of (λ v. mul binary64 (slice_index_or wf.now v nan) factor) nodes) scores.old }
{
    for v in 0..nodes {
        scores[v] = wf[v] * factor;
    }
}
