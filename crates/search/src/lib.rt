// The whole search from one start: breadth first over neighbour rows, with the fewest hops and the number of ways to each node (Brandes 2001).
#![tactic(auto)]

ghost use Rattle.hops.specs.Search.{SearchPre, SearchPost, OnPost, Visiting, VisitPost};

use hops::{Places, TooManyPaths};

// The whole search from one start, over rows at the front of w; the counts stand at the front of `counts`.
pub fn search_from(
    places: Places,
    start: usize,
    w: &mut [u32],
    counts: &mut [u64],
) -> Result<usize, TooManyPaths>
    requires { SearchPre places.nodes start places.limit places.distances places.queue w.old counts.old }
    ensures { SearchPost places.nodes start places.limit places.distances places.queue w.old counts.old w.new counts.new result }
{
    hops::begin(places, start, w, counts);
    search_on(places, w, counts)
}

// From the start alone in the queue to its end: each node's entries in turn.
fn search_on(places: Places, w: &mut [u32], counts: &mut [u64]) -> Result<usize, TooManyPaths>
    requires { Visiting places.nodes places.limit places.distances places.queue 0 1 w.old counts.old }
    ensures { OnPost places.nodes places.limit places.distances places.queue w.old counts.old w.new counts.new result }
{
    let mut head = 0;
    let mut tail = 1;
    while head < tail {
        tail = visit(places, head, tail, w, counts)?;
        head += 1;
    }
    Ok(tail)
}

// All entries of the node at place `head` of the queue, of which `tail` places are taken.
fn visit(
    places: Places,
    head: usize,
    tail: usize,
    w: &mut [u32],
    counts: &mut [u64],
) -> Result<usize, TooManyPaths>
    requires { Visiting places.nodes places.limit places.distances places.queue head tail w.old counts.old }
    ensures { VisitPost places.nodes places.limit places.distances places.queue head tail w.old counts.old w.new counts.new result }
{
    let u = w[places.queue + head] as usize;
    let further = w[places.distances + u] + 1;
    let ways = counts[u];
    let rows = places.nodes + 1;
    let from = rows + w[u] as usize;
    let end = rows + w[u + 1] as usize;
    let mut place = places.queue + tail;
    for p in from..end {
        let step = hops::touch(places, w[p], further, ways, place, w, counts)?;
        place += step.grown();
    }
    Ok(place - places.queue)
}
