// What the iterative measures share: their refusals, the loop of rounds, what an edge adds to a vector, and how a call that has to settle ends.
// The definition of rounds and settled stands in specs/.
#![tactic(auto)]

ghost use Rattle.std.specs.Prelude.{◌≡◌, ℕ, List, Float};
ghost use Rattle.answers.specs.Answers.{said_by, refused_if};
ghost use Rattle.graph.specs.Refusals.{first_refusal};
ghost use Rattle.graph.specs.Left.{left};
ghost use Rattle.graph.specs.Given.{of_graph, of_edges};
ghost use Rattle.rounds.specs.Tests.{length_wrong, reads_wrong, own_tests};
ghost use Rattle.rounds.specs.Runs.{Reached, Ended};
ghost use Rattle.rounds.specs.Ending.{settled_by, WritePre};
ghost use Rattle.rounds.specs.Steps.{SpreadsPre, EdgesSpread};
ghost use Rattle.rounds.specs.Vectors.{current_in, next_in, spreads, Vectors, SpreadPre};

use answers::{Answer, Refusal, Rounds, Settings};
use graph::{Fronts, Graph};

// The rows of the table that an iterative measure tests itself.
#[derive(Clone, Copy)]
pub struct Own {
    pub number: bool,
    pub damping: bool,
    pub rounds: bool,
    pub lengths: bool,
    pub start: bool,
}

// The first refusal in document 01's order. `empties`: the measure answers EMPTY for no nodes; `short`: its result slice is too short;
// `lengths` are those of the workspace.
pub fn refusal(
    graph: Graph<'_>,
    empties: bool,
    own: Own,
    short: bool,
    lengths: Fronts,
) -> Result<(), Refusal>
    ensures { result ≡ refused_if (first_refusal (own_tests graph.entry.nodes graph.entry.from.now graph.entry.to.now graph.entry.weight.now empties own short lengths.narrow lengths.wide lengths.floats)) }
{
    graph::graph_refusal(graph, empties, false)?;
    if own.number {
        return Err(Refusal::from(Answer::Number));
    }
    if own.damping {
        return Err(Refusal::from(Answer::Damping));
    }
    if own.rounds {
        return Err(Refusal::from(Answer::Rounds));
    }
    if own.lengths {
        return Err(Refusal::from(Answer::Length));
    }
    if own.start {
        return Err(Refusal::from(Answer::Start));
    }
    if short || graph::work_wrong(graph::usual_fronts(graph.nodes, graph.from.len()), lengths) {
        return Err(Refusal::from(Answer::Room));
    }
    Ok(())
}

// An infinity or a NaN among the weights, the damping, the tolerance and, if it is given, the vector.
pub fn reads_wrong(weight: &[f64], settings: Settings, given: bool, vector: &[f64]) -> bool
    ensures { result ≡ reads_wrong weight.now settings.damping settings.tolerance given vector.now }
{
    graph::number_wrong(weight)
        || !graph::is_finite(settings.damping)
        || !graph::is_finite(settings.tolerance)
        || given && graph::number_wrong(vector)
}

// A vector is given, and has not as many entries as there are nodes.
pub fn length_wrong(given: bool, long: usize, nodes: usize) -> bool
    ensures { result ≡ length_wrong given long nodes }
{
    given && long != nodes
}

// Rounds until one meets a stop rule, or all are used; `before`: a stop rule is met before the first. A round says whether it met one.
pub fn run<F: Fn(&mut [f64]) -> bool>(
    settings: Settings,
    before: bool,
    round: F,
    wf: &mut [f64],
) -> Rounds
    requires { (k : ℕ) (x : List Float) → Reached (λ p met q. F.post round p met q) wf.old k x → (p : _) → p.now ≡ x → F.pre round p }
    ensures { Ended (λ p met q. F.post round p met q) settings before wf.old result wf.new }
{
    if before {
        return Rounds {
            settings,
            rounds: 0,
            settled: true,
        };
    }
    for k in 0..settings.limit {
        if round(wf) {
            return Rounds {
                settings,
                rounds: k + 1,
                settled: true,
            };
        }
    }
    Rounds {
        settings,
        rounds: settings.limit,
        settled: false,
    }
}

// The next vector's entry `row` gains factor times the current one's entry `col`; undirected, with two different ends, then the reverse.
pub fn spread(nodes: usize, directed: bool, factor: f64, row: usize, col: usize, wf: &mut [f64])
    requires { SpreadPre nodes wf.old row col }
    ensures { Vectors nodes wf.old (current_in nodes wf.old) (spreads directed factor (current_in nodes wf.old) (next_in nodes wf.old) row col) wf.new }
{
    wf[nodes + row] += factor * wf[col];
    if !directed && row != col {
        wf[nodes + col] += factor * wf[row];
    }
}

// Each edge in list order: the next vector's entry `from` gains factor(weight) times the current one's entry `to`; undirected, with two
// different ends, then the reverse.
pub fn spread_edges<F: Fn(f64) -> f64>(graph: Graph<'_>, factor: F, wf: &mut [f64])
    requires can { F.IsAlwaysCallable factor }
    requires fits { of_edges SpreadsPre graph wf.old }
    ensures { (by : Float → Float) → ((x y : Float) → F.post factor x y → y ≡ by x) → of_graph (EdgesSpread by) graph.entry wf.old wf.new }
{
    for i in 0..graph.from.len() {
        let by = factor(graph.weight[i]);
        let source = graph.from[i] as usize;
        let target = graph.to[i] as usize;
        spread(graph.nodes, graph.directed, by, source, target, wf);
    }
}

// The current vector as scores if a stop rule was met, else UNSETTLED; wipes the workspace either way.
pub fn write_settled(
    nodes: usize,
    front: Fronts,
    ended: Rounds,
    scores: &mut [f64],
    w32: &mut [u32],
    w64: &mut [u64],
    wf: &mut [f64],
) -> Result<Rounds, Refusal>
    requires { WritePre nodes front scores.old w32.old w64.old wf.old }
    ensures { left (said_by result) scores.new w32.new w64.new wf.new ≡ settled_by front ended (current_in nodes wf.old) scores.old w32.old w64.old wf.old }
{
    if !ended.settled {
        graph::wipe(front, w32, w64, wf);
        return Err(Refusal::from(Answer::Unsettled));
    }
    regions::copy_out(wf, 0, nodes, scores);
    graph::wipe(front, w32, w64, wf);
    Ok(ended)
}
