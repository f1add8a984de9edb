// One election of VoteRank, over abilities at the front of the floats and votes behind them: the votes, the first highest, the elected's neighbours.
#![tactic(auto)]

ghost use Rattle.std.specs.Prelude.{◌≡◌, ◌+◌, ◌*◌, ◌-◌, ◌≤◌, ◌<◌, length, get_or};
ghost use Rattle.std.specs.Float.{nan};
ghost use Rattle.graph.specs.Given.{of_graph, of_edges};
ghost use Rattle.polls.specs.Votes.{first_highest};
ghost use Rattle.polls.specs.Steps.{VotePre, voted, TallyPre, CountPre, Tallied, SilencePre, Silenced, WeakenPre, weakened};

use graph::Graph;

// The votes of all edges, in list order, from the abilities at the front of w to the places behind them.
pub fn tally(graph: Graph<'_>, w: &mut [f64])
    requires { of_edges TallyPre graph w.old }
    ensures { of_graph Tallied graph.entry w.old w.new }
{
    regions::fill(w, graph.nodes, graph.nodes, 0.0);
    count_votes(graph, w);
}

// Adds up the votes of the edges, where there are none yet.
fn count_votes(graph: Graph<'_>, w: &mut [f64])
    requires { of_edges CountPre graph w.old }
    ensures { of_graph Tallied graph.entry w.old w.new }
{
    let Graph {
        nodes,
        directed,
        from,
        to,
        ..
    } = graph;
    for i in 0..from.len() {
        vote(nodes, directed, from[i] as usize, to[i] as usize, w);
    }
}

// One edge: from gains to's ability, undirected also the reverse.
fn vote(nodes: usize, directed: bool, f: usize, t: usize, w: &mut [f64])
    requires { VotePre nodes f t w.old }
    ensures { w.new ≡ voted nodes directed f t w.old }
{
    w[nodes + f] += w[t];
    if !directed {
        w[nodes + t] += w[f];
    }
}

// The elected score 0.
pub fn silence(nodes: usize, elected: &[u32], w: &mut [f64])
    requires { SilencePre nodes (length elected.now) elected.now w.old }
    ensures { Silenced nodes (length elected.now) elected.now w.old w.new }
{
    for v in elected {
        w[nodes + *v as usize] = 0.0;
    }
}

// The first node with the highest score.
pub fn first_highest(nodes: usize, w: &[f64]) -> usize
    requires { (0 < nodes) × (2 * nodes ≤ length w.now) }
    ensures { (result < nodes) × (result ≡ first_highest (λ v. get_or w.now (nodes + v) nan) (nodes - 1)) }
{
    let mut best = 0;
    for v in 1..nodes {
        if w[nodes + best] < w[nodes + v] {
            best = v;
        }
    }
    best
}

// v is elected: its ability becomes 0, and each of its neighbour entries loses the decay, not below 0.
pub fn weaken(nodes: usize, decay: f64, v: usize, rows: &[u32], w: &mut [f64])
    requires { WeakenPre nodes v rows.now w.old }
    ensures { w.new ≡ weakened nodes decay v rows.now w.old }
{
    w[v] = 0.0;
    for entry in rows::row(nodes, rows, v) {
        let u = *entry as usize;
        w[u] = roots::max(w[u] - decay, 0.0);
    }
}
