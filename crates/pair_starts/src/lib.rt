// Edge betweenness over many starts: the workspace that `starts` makes ready with each row entry's pair beside it, and each start in turn.
#![tactic(auto)]

ghost use Rattle.std.specs.Prelude.{◌≡◌};
ghost use Rattle.graph.specs.Pres.{Limits};
ghost use Rattle.starts.specs.Starts.{PreparePre};
ghost use Rattle.graph.specs.Given.{of_graph, of_edges};
ghost use Rattle.pair_starts.specs.Starts.{paired_at, CrossPre, CrossPost, CrossAllPre, CrossAllPost, PreparedPairs};

use graph::Graph;
use hops::TooManyPaths;
use pair_search::PairTracks;
use pairs::Table;

// What `starts::prepare` makes ready, each row entry's pair, and every total +0.0.
pub fn prepare_pairs(graph: Graph<'_>, w32: &mut [u32], w64: &mut [u64], wf: &mut [f64])
    requires { of_edges PreparePre graph w32.old w64.old wf.old }
    ensures { of_graph PreparedPairs graph.entry w32.old w64.old wf.old w32.new w64.new wf.new }
{
    let edges = graph.from.len();
    let table = Table::of(graph.nodes, edges);
    starts::prepare(graph, w32, w64, wf);
    pairs::number_pairs(graph.nodes, table, w32);
    regions::fill(wf, table.totals, 2 * edges, 0.0);
}

// Each start in turn, its shares added to the totals.
pub fn cross_starts(
    nodes: usize,
    edges: usize,
    w32: &mut [u32],
    w64: &mut [u64],
    wf: &mut [f64],
) -> Result<(), TooManyPaths>
    requires { CrossAllPre nodes edges w32.old w64.old wf.old }
    ensures { CrossAllPost nodes edges w32.old w64.old wf.old w32.new w64.new wf.new result }
{
    for start in 0..nodes {
        cross_start(nodes, edges, start, w32, w64, wf)?;
    }
    Ok(())
}

// One start: search with pairs, accumulate, and take back what it left.
fn cross_start(
    nodes: usize,
    edges: usize,
    start: usize,
    w32: &mut [u32],
    w64: &mut [u64],
    wf: &mut [f64],
) -> Result<(), TooManyPaths>
    requires { CrossPre nodes edges start w32.old w64.old wf.old }
    ensures { CrossPost nodes edges start w32.old w64.old wf.old w32.new w64.new wf.new result }
{
    let paired = paired_tracks(nodes, edges);
    let found = pair_search::search_from(paired, start, w32, w64)?;
    crossings::accumulate(paired, found, w32, w64, wf);
    hops::forget(paired.tracks.places, found, w32, w64);
    brandes::release(paired.tracks, found, w32, wf);
    Ok(())
}

// Where a start keeps what it finds, in the workspace of a graph of so many nodes and edges.
fn paired_tracks(nodes: usize, edges: usize) -> PairTracks
    requires { Limits nodes edges }
    ensures { result ≡ paired_at nodes edges }
{
    PairTracks {
        tracks: starts::tracks_of(nodes, edges),
        table: Table::of(nodes, edges),
        pairs: 5 * nodes + 2 + 4 * edges,
    }
}
