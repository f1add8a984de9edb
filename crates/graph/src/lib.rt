// The graph layer: the checks of a lent graph, of numbers and of a workspace.
#![tactic(auto)]

ghost use Rattle.std.specs.Prelude.{◌≡◌, false, length};
ghost use Rattle.std.specs.Float.Ieee.Scale.{finite};
ghost use Rattle.answers.specs.Answers.{refused_if};
ghost use Rattle.graph.specs.Edges.{edges_of};
ghost use Rattle.graph.specs.Fronts.{usual_fronts};
ghost use Rattle.graph.specs.Checks.{size_wrong, first_fault, node_wrong, number_wrong, work_wrong};
ghost use Rattle.graph.specs.Refusals.{first_refusal, ends_tests, plain_refusal};
ghost use Rattle.graph.specs.Pres.{Sized, AtMost, Limits, Roomy};
ghost use Rattle.graph.specs.Left.{Wiped};

use answers::{Answer, Refusal, Settings};

// A graph as lent: the nodes are 0 to nodes - 1, and each edge has a place in three slices of one length.
#[derive(Clone, Copy)]
pub struct Graph<'a> {
    pub nodes: usize,
    pub directed: bool,
    pub from: &'a [u32],
    pub to: &'a [u32],
    pub weight: &'a [f64],
}

// How many numbers of each slice of a workspace are used.
#[derive(Clone, Copy)]
pub struct Fronts {
    pub narrow: usize,
    pub wide: usize,
    pub floats: usize,
}

// The first end that is no node: its edge, and which end.
#[derive(Clone, Copy)]
pub enum Fault {
    From(usize),
    To(usize),
}

// SIZE, EMPTY, NODE or ROOM, whichever comes first. `empties`: the measure answers EMPTY for no nodes; `stray`: its start is no
// node; `short`: a result slice is too short; `lengths` are those of the workspace.
pub fn plain_refusal(
    graph: Graph<'_>,
    empties: bool,
    stray: bool,
    short: bool,
    lengths: Fronts,
) -> Result<(), Refusal>
    ensures { result ≡ refused_if (plain_refusal graph.entry.nodes graph.entry.from.now graph.entry.to.now graph.entry.weight.now empties stray short lengths.narrow lengths.wide lengths.floats) }
{
    graph_refusal(graph, empties, stray)?;
    if short {
        return Err(Refusal::from(Answer::Room));
    }
    if work_wrong(usual_fronts(graph.nodes, graph.from.len()), lengths) {
        return Err(Refusal::from(Answer::Room));
    }
    Ok(())
}

// SIZE, EMPTY or NODE, whichever comes first.
pub fn graph_refusal(graph: Graph<'_>, empties: bool, stray: bool) -> Result<(), Refusal>
    ensures { result ≡ refused_if (first_refusal (ends_tests graph.entry.nodes graph.entry.from.now graph.entry.to.now graph.entry.weight.now empties stray false)) }
{
    if size_wrong(graph) {
        return Err(Refusal::from(Answer::Size));
    }
    if empties && graph.nodes == 0 {
        return Err(Refusal::from(Answer::Empty));
    }
    if node_wrong(graph) || stray {
        return Err(Refusal::from(Answer::Node));
    }
    Ok(())
}

// Too many nodes or edges, or edge slices of unequal length.
fn size_wrong(graph: Graph<'_>) -> bool
    ensures { result ≡ size_wrong graph.entry.nodes graph.entry.from.now graph.entry.to.now graph.entry.weight.now }
{
    let edges = graph.from.len();
    let long = Settings::EDGES < edges;
    Settings::NODES < graph.nodes || long || graph.to.len() != edges || graph.weight.len() != edges
}

// The first edge with an end that is no node.
fn first_fault(graph: Graph<'_>) -> Option<Fault>
    requires { Sized graph.from.now graph.to.now graph.weight.now }
    ensures { result ≡ first_fault graph.entry.nodes (edges_of graph.entry.from.now graph.entry.to.now graph.entry.weight.now) }
{
    for i in 0..graph.from.len() {
        if graph.nodes <= graph.from[i] as usize {
            return Some(Fault::From(i));
        }
        if graph.nodes <= graph.to[i] as usize {
            return Some(Fault::To(i));
        }
    }
    None
}

// An end that is no node: the highest ends tell whether there is one, without a branch for each edge.
fn node_wrong(graph: Graph<'_>) -> bool
    requires { Sized graph.from.now graph.to.now graph.weight.now }
    ensures { result ≡ node_wrong graph.entry.nodes (edges_of graph.entry.from.now graph.entry.to.now graph.entry.weight.now) }
{
    let nodes = graph.nodes;
    let inside = (highest(graph.from) as usize) < nodes && (highest(graph.to) as usize) < nodes;
    !inside && first_fault(graph).is_some()
}

// The highest of the ends, and 0 if there is none.
fn highest(ends: &[u32]) -> u32
    ensures { AtMost ends.now result }
{
    let mut top = 0u32;
    for end in ends {
        top = top.max(*end);
    }
    top
}

// Neither an infinity nor a NaN.
#[tactic(auto, using(crate::proofs::Checks::finite_is))]
pub fn is_finite(x: f64) -> bool
    ensures { result ≡ finite x }
{
    x.is_finite()
}

// A number that is an infinity or a NaN.
pub fn number_wrong(numbers: &[f64]) -> bool
    ensures { result ≡ number_wrong numbers.now }
{
    numbers.iter().any(|x| !is_finite(*x))
}

// The used front of every measure but the degrees.
pub fn usual_fronts(nodes: usize, edges: usize) -> Fronts
    requires { Limits nodes edges }
    ensures { result ≡ usual_fronts nodes edges }
{
    Fronts {
        narrow: 8 * nodes + 8 * edges + 8,
        wide: 2 * nodes,
        floats: 6 * nodes + 4 * edges,
    }
}

// A workspace of these three lengths is shorter than its used front.
pub fn work_wrong(front: Fronts, lengths: Fronts) -> bool
    ensures { result ≡ work_wrong front lengths.narrow lengths.wide lengths.floats }
{
    lengths.narrow < front.narrow || lengths.wide < front.wide || lengths.floats < front.floats
}

// The lengths of a workspace.
pub fn lengths(w32: &[u32], w64: &[u64], wf: &[f64]) -> Fronts
    ensures { (result.narrow ≡ length w32.now) × (result.wide ≡ length w64.now) × (result.floats ≡ length wf.now) }
{
    Fronts {
        narrow: w32.len(),
        wide: w64.len(),
        floats: wf.len(),
    }
}

// Clears the used front of the workspace.
pub fn wipe(front: Fronts, w32: &mut [u32], w64: &mut [u64], wf: &mut [f64])
    requires { Roomy front (length w32.old) (length w64.old) (length wf.old) }
    ensures { Wiped front w32.old w64.old wf.old w32.new w64.new wf.new }
{
    regions::wipe(w32, front.narrow);
    regions::wipe(w64, front.wide);
    regions::wipe(wf, front.floats);
}
