// Betweenness over many starts: how a call makes its workspace ready, and each start in turn.
#![tactic(auto)]

ghost use Rattle.std.specs.Prelude.{◌≡◌};
ghost use Rattle.graph.specs.Pres.{Limits};
ghost use Rattle.graph.specs.Given.{of_graph, of_edges};
ghost use Rattle.starts.specs.Starts.{tracks_at, StartPre, StartPost, StartsPre, StartsPost, PreparePre, Prepared, IndexPre, Indexed};

use graph::Graph;
use hops::{Places, TooManyPaths};
use predecessors::Tracks;

// Where the searches of a call work, for its nodes and edges.
pub fn tracks_of(nodes: usize, edges: usize) -> Tracks
    requires { Limits nodes edges }
    ensures { result ≡ tracks_at nodes edges }
{
    Tracks {
        places: Places::of(nodes, edges, hops::PATH_LIMIT),
        first: 3 * nodes + 1 + 4 * edges,
        last: 4 * nodes + 2 + 4 * edges,
        base: 5 * nodes + 2 + 6 * edges,
    }
}

// The rows, the offsets of the predecessor entries, and every distance, count, score and delta as the first start needs them.
pub fn prepare(graph: Graph<'_>, w32: &mut [u32], w64: &mut [u64], wf: &mut [f64])
    requires { of_edges PreparePre graph w32.old w64.old wf.old }
    ensures { of_graph Prepared graph.entry w32.old w64.old wf.old w32.new w64.new wf.new }
{
    let nodes = graph.nodes;
    let tracks = tracks_of(nodes, graph.from.len());
    rows::build_rows(graph, w32);
    regions::fill(w32, tracks.places.distances, nodes, hops::UNREACHED);
    regions::fill(w64, 0, nodes, 0);
    index_entries(graph, w32);
    regions::copy_within(w32, tracks.first, tracks.last, nodes);
    regions::fill(wf, 0, 2 * nodes, 0.0);
}

// The offsets of the predecessor entries: as many places for a node as entries lead to it, which are the rows of the edges turned round.
fn index_entries(graph: Graph<'_>, w32: &mut [u32])
    requires { of_edges IndexPre graph w32.old }
    ensures { of_graph Indexed graph.entry w32.old w32.new }
{
    let first = tracks_of(graph.nodes, graph.from.len()).first;
    let turned = Graph {
        from: graph.to,
        to: graph.from,
        ..graph
    };
    rows::build_rows(turned, &mut w32[first..]);
}

// Each start in turn, unless a path count is above the limit.
pub fn add_starts(
    nodes: usize,
    edges: usize,
    w32: &mut [u32],
    w64: &mut [u64],
    wf: &mut [f64],
) -> Result<(), TooManyPaths>
    requires { StartsPre nodes edges w32.old w64.old wf.old }
    ensures { StartsPost nodes edges w32.old w64.old wf.old w32.new w64.new wf.new result }
{
    for start in 0..nodes {
        add_start(nodes, edges, start, w32, w64, wf)?;
    }
    Ok(())
}

// One start: search, accumulate, and take back what it left.
fn add_start(
    nodes: usize,
    edges: usize,
    start: usize,
    w32: &mut [u32],
    w64: &mut [u64],
    wf: &mut [f64],
) -> Result<(), TooManyPaths>
    requires { StartPre nodes edges start w32.old w64.old wf.old }
    ensures { StartPost nodes edges start w32.old w64.old wf.old w32.new w64.new wf.new result }
{
    let tracks = tracks_of(nodes, edges);
    let found = predecessors::search_from(tracks, start, w32, w64)?;
    brandes::accumulate(tracks, start, found, w32, w64, wf);
    hops::forget(tracks.places, found, w32, w64);
    brandes::release(tracks, found, w32, wf);
    Ok(())
}
