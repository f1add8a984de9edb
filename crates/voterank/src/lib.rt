// VoteRank, of the Rust's other.rs: nodes elected by their neighbours. It reads the ends of the edges alone.
#![tactic(auto)]

ghost use Rattle.std.specs.Prelude.{◌≡◌, ◌≤◌, length};
ghost use Rattle.answers.specs.Answers.{said_by};
ghost use Rattle.graph.specs.Given.{lent, of_graph};
ghost use Rattle.graph.specs.Left.{left};
ghost use Rattle.voterank.specs.VoteRank.{decay_of, voterank_outcome};
ghost use Rattle.voterank.specs.Elections.{ElectPre, Held};

use answers::Refusal;
use graph::Graph;

// The elected, in order: in each election every edge gives votes, and the first highest is elected while its score is above 0.
// At most `seeds` and at most all nodes are elected. Refuses SIZE, NODE, ROOM, in this order.
pub fn voterank(
    graph: Graph<'_>,
    seeds: usize,
    elected: &mut [u32],
    w32: &mut [u32],
    w64: &mut [u64],
    wf: &mut [f64],
) -> Result<usize, Refusal>
    ensures { left (said_by result) elected.new w32.new w64.new wf.new ≡ voterank_outcome seeds (lent graph.entry elected.old w32.old w64.old wf.old) }
{
    let seats = graph.nodes.min(seeds);
    let short = elected.len() < seats;
    graph::plain_refusal(graph, false, false, short, graph::lengths(w32, w64, wf))?;
    rows::build_rows(graph, w32);
    regions::fill(wf, 0, graph.nodes, 1.0);
    let many = elect(graph, decay_of(graph), &mut elected[..seats], w32, wf);
    graph::wipe(
        graph::usual_fronts(graph.nodes, graph.from.len()),
        w32,
        w64,
        wf,
    );
    Ok(many)
}

// The reciprocal of the average degree.
fn decay_of(graph: Graph<'_>) -> f64
    requires { length graph.from.now ≤ 32768 }
    ensures { result ≡ decay_of graph.entry.nodes graph.entry.directed (length graph.entry.from.now) }
{
    let edges = graph.from.len();
    let total = if graph.directed { edges } else { 2 * edges };
    let average = std::num::nearest_u64_to_f64(total as u64)
        / std::num::nearest_u64_to_f64(graph.nodes as u64);
    1.0 / average
}

// The elections, one for each seat of `elected`, from the abilities at the front of w: how many were held.
fn elect(graph: Graph<'_>, decay: f64, elected: &mut [u32], rows: &[u32], w: &mut [f64]) -> usize
    requires { of_graph ElectPre graph (length elected.old) elected.old rows.now w.old }
    ensures { of_graph Held graph.entry decay (length elected.old) elected.old w.old result elected.new w.new }
{
    let nodes = graph.nodes;
    let seats = elected.len();
    for k in 0..seats {
        polls::tally(graph, w);
        polls::silence(nodes, &elected[..k], w);
        let v = polls::first_highest(nodes, w);
        if 0.0 < w[nodes + v] {
            elected[k] = v as u32;
            polls::weaken(nodes, decay, v, rows, w);
        } else {
            return k;
        }
    }
    seats
}
