// The survey from one node: the fewest hops to every node, and the number of hop sequences of that length.
#![tactic(auto)]

ghost use Rattle.std.specs.Prelude.{◌≡◌};
ghost use Rattle.answers.specs.Answers.{said_by};
ghost use Rattle.graph.specs.Given.{lent};
ghost use Rattle.graph.specs.Left.{left};
ghost use Rattle.survey.specs.Survey.{results, too_short, survey_outcome};
ghost use Rattle.survey.specs.Steps.{HeldRows, Surveyed, WritePre, Written};

use answers::Refusal;
use graph::Graph;
use hops::{Places, TooManyPaths};

// Distances and counts from `start`; a node that is not reached has 4,294,967,295 and 0.
// Refuses SIZE, EMPTY, NODE, ROOM and PATHS, in this order. Reads no weight.
pub fn survey(
    graph: Graph<'_>,
    start: usize,
    distances: &mut [u32],
    counts: &mut [u64],
    w32: &mut [u32],
    w64: &mut [u64],
    wf: &mut [f64],
) -> Result<(), Refusal>
    ensures { left (said_by result) (results distances.new counts.new) w32.new w64.new wf.new ≡ survey_outcome start (lent graph.entry (results distances.old counts.old) w32.old w64.old wf.old) }
{
    let nodes = graph.nodes;
    let edges = graph.from.len();
    let short = too_short(nodes, distances.len(), counts.len());
    let lengths = graph::lengths(w32, w64, wf);
    graph::plain_refusal(graph, true, nodes <= start, short, lengths)?;
    rows::build_rows(graph, w32);
    let searched = search(nodes, edges, start, w32, w64);
    let said = write(searched, nodes, edges, w32, w64, distances, counts);
    graph::wipe(graph::usual_fronts(nodes, edges), w32, w64, wf);
    said
}

// A result slice of one of these lengths has no room for n numbers.
fn too_short(nodes: usize, a: usize, b: usize) -> bool
    ensures { result ≡ too_short nodes a b }
{
    a < nodes || b < nodes
}

// The search from `start` over the rows in w, with every distance and count cleared first.
fn search(
    nodes: usize,
    edges: usize,
    start: usize,
    w: &mut [u32],
    c: &mut [u64],
) -> Result<usize, TooManyPaths>
    requires { HeldRows nodes edges start w.old c.old }
    ensures { Surveyed nodes edges start w.old c.old w.new c.new result }
{
    let places = Places::of(nodes, edges, hops::PATH_LIMIT);
    regions::fill(w, places.distances, nodes, hops::UNREACHED);
    regions::fill(c, 0, nodes, 0);
    search::search_from(places, start, w, c)
}

// The results, unless a count exceeds the limit.
fn write(
    searched: Result<usize, TooManyPaths>,
    nodes: usize,
    edges: usize,
    w: &[u32],
    c: &[u64],
    distances: &mut [u32],
    counts: &mut [u64],
) -> Result<(), Refusal>
    requires { WritePre nodes edges w.now c.now distances.old counts.old }
    ensures { Written nodes edges w.now c.now distances.old counts.old distances.new counts.new searched result }
{
    searched?;
    let places = Places::of(nodes, edges, hops::PATH_LIMIT);
    regions::copy_out(w, places.distances, nodes, distances);
    regions::copy_out(c, 0, nodes, counts);
    Ok(())
}
