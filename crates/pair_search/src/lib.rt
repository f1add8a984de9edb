// Edge betweenness' search from one start: as that of `predecessors`, and beside each predecessor entry the number of its pair.
#![tactic(auto)]

ghost use Rattle.pair_search.specs.Pairs.{EnterPairPre, EnterPairPost, VisitPairsPre, VisitPairsPost, OnPairsPost, SearchPairsPre, SearchPairsPost};

use hops::{Step, TooManyPaths};
use pairs::Table;
use predecessors::Tracks;

// Where a search keeps its tracks with their pairs: the numbers of the row entries' pairs stand as the table has them, those of the predecessor
// entries' from `pairs`.
#[derive(Clone, Copy)]
pub struct PairTracks {
    pub tracks: Tracks,
    pub table: Table,
    pub pairs: usize,
}

// The search from one start, as `predecessors::search_from` makes it, with the pair of each predecessor entry. Answers how many nodes it found.
pub fn search_from(
    paired: PairTracks,
    start: usize,
    w32: &mut [u32],
    w64: &mut [u64],
) -> Result<usize, TooManyPaths>
    requires { SearchPairsPre paired start w32.old w64.old }
    ensures { SearchPairsPost paired start w32.old w64.old w32.new w64.new result }
{
    hops::begin(paired.tracks.places, start, w32, w64);
    search_on(paired, w32, w64)
}

// From the start alone in the queue to its end: each node's entries in turn.
fn search_on(paired: PairTracks, w32: &mut [u32], w64: &mut [u64]) -> Result<usize, TooManyPaths>
    requires { VisitPairsPre paired 0 1 w32.old w64.old }
    ensures { OnPairsPost paired w32.old w64.old w32.new w64.new result }
{
    let mut head = 0;
    let mut tail = 1;
    while head < tail {
        tail = visit(paired, head, tail, w32, w64)?;
        head += 1;
    }
    Ok(tail)
}

// All entries of the node at place `head` of the queue, of which `tail` places are taken. Answers how many are then.
fn visit(
    paired: PairTracks,
    head: usize,
    tail: usize,
    w32: &mut [u32],
    w64: &mut [u64],
) -> Result<usize, TooManyPaths>
    requires { VisitPairsPre paired head tail w32.old w64.old }
    ensures { VisitPairsPost paired head tail w32.old w64.old w32.new w64.new result }
{
    let places = paired.tracks.places;
    let node = w32[places.queue + head];
    let u = node as usize;
    let further = w32[places.distances + u] + 1;
    let ways = w64[u];
    let rows = places.nodes + 1;
    let mut place = places.queue + tail;
    for p in w32[u] as usize..w32[u + 1] as usize {
        let x = w32[rows + p];
        let pair = w32[paired.table.beside + p];
        let step = enter(paired, node, x, pair, further, ways, place, w32, w64)?;
        place += step.grown();
    }
    Ok(place - places.queue)
}

// The entry x of the node v: entered as `predecessors::enter` does and, where v is among the predecessors of x, with the pair's number beside it.
fn enter(
    paired: PairTracks,
    v: u32,
    x: u32,
    pair: u32,
    further: u32,
    ways: u64,
    place: usize,
    w32: &mut [u32],
    w64: &mut [u64],
) -> Result<Step, TooManyPaths>
    requires { EnterPairPre paired x further ways place w32.old w64.old }
    ensures { EnterPairPost paired v x pair further ways place w32.old w64.old w32.new w64.new result }
{
    let tracks = paired.tracks;
    let k = w32[tracks.last + x as usize];
    let step = predecessors::enter(tracks, v, x, further, ways, place, w32, w64)?;
    if predecessors::enters(step) {
        w32[paired.pairs + k as usize] = pair;
    }
    Ok(step)
}
