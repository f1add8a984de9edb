// Reaching centralities, local and global, of the Rust's other.rs. Each call reads the ends of the edges alone.
#![tactic(auto)]

ghost use Rattle.std.specs.Prelude.{◌≡◌};
ghost use Rattle.answers.specs.Answers.{said_by};
ghost use Rattle.graph.specs.Given.{lent};
ghost use Rattle.graph.specs.Left.{left};
ghost use Rattle.reaching.specs.Reaching.{share_of, reaching_outcome, global_outcome};
ghost use Rattle.reaching.specs.Starts.{UndoPre, Undone, AllPre, AllPost};

use answers::Refusal;
use graph::Graph;
use hops::Places;

// The other nodes within `limit` hops, divided by n - 1; 0 for a single node.
// Refuses SIZE, NODE, ROOM, in this order.
pub fn local_reaching(
    graph: Graph<'_>,
    limit: u64,
    scores: &mut [f64],
    w32: &mut [u32],
    w64: &mut [u64],
    wf: &mut [f64],
) -> Result<(), Refusal>
    ensures { left (said_by result) scores.new w32.new w64.new wf.new ≡ reaching_outcome limit (lent graph.entry scores.old w32.old w64.old wf.old) }
{
    let nodes = graph.nodes;
    let edges = graph.from.len();
    let short = scores.len() < nodes;
    graph::plain_refusal(graph, false, false, short, graph::lengths(w32, w64, wf))?;
    rows::build_rows(graph, w32);
    let bounded = Places::of(nodes, edges, limit);
    regions::fill(w32, bounded.distances, nodes, hops::UNREACHED);
    reach_all(bounded, w32, scores);
    graph::wipe(graph::usual_fronts(nodes, edges), w32, w64, wf);
    Ok(())
}

// The same with the limit n, within which every node is that can be reached.
pub fn global_reaching(
    graph: Graph<'_>,
    scores: &mut [f64],
    w32: &mut [u32],
    w64: &mut [u64],
    wf: &mut [f64],
) -> Result<(), Refusal>
    ensures { left (said_by result) scores.new w32.new w64.new wf.new ≡ global_outcome (lent graph.entry scores.old w32.old w64.old wf.old) }
{
    local_reaching(graph, graph.nodes as u64, scores, w32, w64, wf)
}

// A search from every node, each of which takes back what it wrote.
fn reach_all(bounded: Places, w: &mut [u32], scores: &mut [f64])
    requires { AllPre bounded.nodes bounded.distances bounded.queue w.old scores.old }
    ensures { AllPost bounded.nodes bounded.limit bounded.distances bounded.queue w.old scores.old w.new scores.new }
{
    for s in 0..bounded.nodes {
        let reached = reach::reach_from(bounded, s, w);
        undo(bounded, reached, w);
        scores[s] = share(bounded.nodes, reached - 1);
    }
}

// k of the other nodes.
fn share(nodes: usize, k: usize) -> f64
    ensures { result ≡ share_of nodes k }
{
    if 1 < nodes {
        std::num::nearest_u64_to_f64(k as u64) / std::num::nearest_u64_to_f64((nodes - 1) as u64)
    } else {
        0.0
    }
}

// Takes back the distances of the nodes in the queue.
fn undo(bounded: Places, tail: usize, w: &mut [u32])
    requires { UndoPre tail bounded.distances bounded.queue w.old }
    ensures { Undone tail bounded.distances bounded.queue w.old w.new }
{
    let Places {
        distances,
        queue,
        ..
    } = bounded;
    for i in 0..tail {
        let v = w[queue + i] as usize;
        w[distances + v] = hops::UNREACHED;
    }
}
