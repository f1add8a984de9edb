// Brandes' search from one start: breadth-first, with the entries of each node's predecessors in the order in which they come.
#![tactic(auto)]

ghost use Rattle.std.specs.Prelude.{◌≡◌};
ghost use Rattle.predecessors.specs.Tracks.{enters, pushed, PushPre, EnterPre, EnterPost, VisitPre, VisitPost, OnPost, SearchPre, SearchPost};

use hops::{Places, Step, TooManyPaths};

// Where a search keeps the predecessor entries: n + 1 offsets of them from `first`, their n ends from `last`, the entries from `base`.
#[derive(Clone, Copy)]
pub struct Tracks {
    pub places: Places,
    pub first: usize,
    pub last: usize,
    pub base: usize,
}

// Whether the node enters among the predecessors of its entry.
pub fn enters(step: Step) -> bool
    ensures { result ≡ enters step }
{
    match step {
        Step::First | Step::Again => true,
        Step::Other => false,
    }
}

// v behind the predecessor entries of x.
fn push(v: u32, x: usize, last: usize, base: usize, w: &mut [u32])
    requires { PushPre x last base w.old }
    ensures { w.new ≡ pushed v x last base w.old }
{
    let k = w[last + x];
    w[base + k as usize] = v;
    w[last + x] = k + 1;
}

// The search from one start, over rows at the front of w32, with counts in w64.
pub fn search_from(
    tracks: Tracks,
    start: usize,
    w32: &mut [u32],
    w64: &mut [u64],
) -> Result<usize, TooManyPaths>
    requires { SearchPre tracks start w32.old w64.old }
    ensures { SearchPost tracks start w32.old w64.old w32.new w64.new result }
{
    hops::begin(tracks.places, start, w32, w64);
    search_on(tracks, w32, w64)
}

// From the start alone in the queue to its end: each node's entries in turn.
fn search_on(tracks: Tracks, w32: &mut [u32], w64: &mut [u64]) -> Result<usize, TooManyPaths>
    requires { VisitPre tracks 0 1 w32.old w64.old }
    ensures { OnPost tracks w32.old w64.old w32.new w64.new result }
{
    let mut head = 0;
    let mut tail = 1;
    while head < tail {
        tail = visit(tracks, head, tail, w32, w64)?;
        head += 1;
    }
    Ok(tail)
}

// All entries of the node at place `head` of the queue, of which `tail` places are taken.
fn visit(
    tracks: Tracks,
    head: usize,
    tail: usize,
    w32: &mut [u32],
    w64: &mut [u64],
) -> Result<usize, TooManyPaths>
    requires { VisitPre tracks head tail w32.old w64.old }
    ensures { VisitPost tracks head tail w32.old w64.old w32.new w64.new result }
{
    let Places {
        nodes,
        distances,
        queue,
        ..
    } = tracks.places;
    let node = w32[queue + head];
    let u = node as usize;
    let further = w32[distances + u] + 1;
    let ways = w64[u];
    let rows = nodes + 1;
    let end = rows + w32[u + 1] as usize;
    let begin = rows + w32[u] as usize;
    let mut place = queue + tail;
    for p in begin..end {
        let x = w32[p];
        let step = enter(tracks, node, x, further, ways, place, w32, w64)?;
        place += step.grown();
    }
    Ok(place - queue)
}

// The entry x of the node v: it is touched and, where it is one hop further than v, v enters among its predecessors.
pub fn enter(
    tracks: Tracks,
    v: u32,
    x: u32,
    further: u32,
    ways: u64,
    place: usize,
    w32: &mut [u32],
    w64: &mut [u64],
) -> Result<Step, TooManyPaths>
    requires { EnterPre tracks x further ways place w32.old w64.old }
    ensures { EnterPost tracks v x further ways place w32.old w64.old w32.new w64.new result }
{
    let step = hops::touch(tracks.places, x, further, ways, place, w32, w64)?;
    if enters(step) {
        push(v, x as usize, tracks.last, tracks.base, w32);
    }
    Ok(step)
}
