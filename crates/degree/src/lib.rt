// Degree centralities: the ends of the edges counted for each node, raw counts as doubles. No workspace; no weight is read.
// Each call refuses SIZE, NODE, ROOM, in this order.
#![tactic(auto)]

ghost use Rattle.std.specs.Prelude.{◌≡◌, false, true, [], ◌+◌, ◌≤◌, ◌<◌, ltb, length, get_or};
ghost use Rattle.answers.specs.Answers.{said_by, refused_if};
ghost use Rattle.graph.specs.Given.{lent};
ghost use Rattle.graph.specs.Left.{left};
ghost use Rattle.graph.specs.Refusals.{first_refusal, ends_tests};
ghost use Rattle.degree.specs.Degree.{ends_outcome, degree_outcome, in_degree_outcome, out_degree_outcome};
ghost use Rattle.degree.specs.Tally.{plus_one, tally, pair_tally, pairs_from, TallyPre};

use answers::{Answer, Refusal};
use graph::Graph;

// Both ends of every edge: a self-loop adds two.
pub fn degree(graph: Graph<'_>, scores: &mut [f64]) -> Result<(), Refusal>
    ensures { left (said_by result) scores.new [] [] [] ≡ degree_outcome (lent graph.entry scores.old [] [] []) }
{
    count_ends(graph, true, true, scores)
}

// The edges that enter a node; undirected, both ends.
pub fn in_degree(graph: Graph<'_>, scores: &mut [f64]) -> Result<(), Refusal>
    ensures { left (said_by result) scores.new [] [] [] ≡ in_degree_outcome (lent graph.entry scores.old [] [] []) }
{
    count_ends(graph, !graph.directed, true, scores)
}

// The edges that leave a node; undirected, both ends.
pub fn out_degree(graph: Graph<'_>, scores: &mut [f64]) -> Result<(), Refusal>
    ensures { left (said_by result) scores.new [] [] [] ≡ out_degree_outcome (lent graph.entry scores.old [] [] []) }
{
    count_ends(graph, true, !graph.directed, scores)
}

// `froms` and `tos` say which ends count. If both do, one walk adds both ends of each edge.
fn count_ends(graph: Graph<'_>, froms: bool, tos: bool, scores: &mut [f64]) -> Result<(), Refusal>
    ensures { left (said_by result) scores.new [] [] [] ≡ ends_outcome froms tos (lent graph.entry scores.old [] [] []) }
{
    refusal(graph, scores.len())?;
    regions::wipe(scores, graph.nodes);
    if froms && tos {
        add_pairs(graph.from, graph.to, scores);
    } else if froms {
        add_ends(graph.from, scores);
    } else if tos {
        add_ends(graph.to, scores);
    }
    Ok(())
}

// SIZE, NODE or ROOM, whichever comes first.
fn refusal(graph: Graph<'_>, room: usize) -> Result<(), Refusal>
    ensures { result ≡ refused_if (first_refusal (ends_tests graph.entry.nodes graph.entry.from.now graph.entry.to.now graph.entry.weight.now false false (ltb room graph.entry.nodes))) }
{
    graph::graph_refusal(graph, false, false)?;
    if room < graph.nodes {
        return Err(Refusal::from(Answer::Room));
    }
    Ok(())
}

// Adds one to the scores of both ends of each edge: four edges at a time, then the last few.
fn add_pairs(from: &[u32], to: &[u32], scores: &mut [f64])
    requires { TallyPre from.now (length from.now) scores.old × TallyPre to.now (length from.now) scores.old }
    ensures { scores.new ≡ pair_tally from.now to.now (length from.now) scores.old }
{
    let fours = from.len() / 4;
    for k in 0..fours {
        add_four(from, to, 4 * k, scores);
    }
    add_rest(from, to, 4 * fours, scores);
}

// Four edges; their ends are read before the first addition, so that they wait for none.
fn add_four(from: &[u32], to: &[u32], i: usize, scores: &mut [f64])
    requires { TallyPre from.now (i + 4) scores.old × TallyPre to.now (i + 4) scores.old }
    ensures { scores.new ≡ pairs_from from.now to.now i (i + 4) scores.old }
{
    let first_from = end_at(from, i);
    let second_from = end_at(from, i + 1);
    let third_from = end_at(from, i + 2);
    let fourth_from = end_at(from, i + 3);
    let first_to = end_at(to, i);
    let second_to = end_at(to, i + 1);
    let third_to = end_at(to, i + 2);
    let fourth_to = end_at(to, i + 3);
    add_edge(first_from, first_to, scores);
    add_edge(second_from, second_to, scores);
    add_edge(third_from, third_to, scores);
    add_edge(fourth_from, fourth_to, scores);
}

// The edges from first on, one a turn.
fn add_rest(from: &[u32], to: &[u32], first: usize, scores: &mut [f64])
    requires { (first ≤ length from.now) × TallyPre from.now (length from.now) scores.old × TallyPre to.now (length from.now) scores.old }
    ensures { scores.new ≡ pairs_from from.now to.now first (length from.now) scores.old }
{
    for i in first..from.len() {
        add_edge(end_at(from, i), end_at(to, i), scores);
    }
}

// The node at an end of edge i.
fn end_at(ends: &[u32], i: usize) -> usize
    requires { i < length ends.now }
    ensures { result ≡ get_or ends.now i 0 }
{
    ends[i] as usize
}

// Adds one to the scores of the ends of an edge from f to t.
fn add_edge(f: usize, t: usize, scores: &mut [f64])
    requires { (f < length scores.old) × (t < length scores.old) }
    ensures { scores.new ≡ plus_one (plus_one scores.old f) t }
{
    scores[f] += 1.0;
    scores[t] += 1.0;
}

// Adds one to the score of each of the ends.
fn add_ends(ends: &[u32], scores: &mut [f64])
    requires { TallyPre ends.now (length ends.now) scores.old }
    ensures { scores.new ≡ tally ends.now (length ends.now) scores.old }
{
    for end in ends {
        scores[*end as usize] += 1.0;
    }
}
