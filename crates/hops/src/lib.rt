// Hop sequences, and the steps of a breadth-first search that keeps the fewest hops and the number of ways to each node (Brandes 2001).
#![tactic(auto)]

ghost use Rattle.std.specs.Prelude.{◌≡◌};
ghost use Rattle.answers.specs.declared.Answer.TheVariants.{Paths};
ghost use Rattle.graph.specs.Pres.{Limits};
ghost use Rattle.hops.specs.Search.{places_at, BeginPre, Begun, TouchPre, Touched, grown, ForgetPre, Forgotten};

use answers::{Answer, Refusal};

// What stands for "not reached".
pub const UNREACHED: u32 = 4294967295;

// The most paths that are counted: 2^53.
pub const PATH_LIMIT: u64 = 9007199254740992;

// Where a search works: n distances from `distances` of the narrow slice, n places of a queue from `queue`. Its limit is one of path counts or,
// in `reach`, of hops.
#[derive(Clone, Copy)]
pub struct Places {
    pub nodes: usize,
    pub limit: u64,
    pub distances: usize,
    pub queue: usize,
}

impl Places {
    // The regions of a call's searches in the layout that all measures share, for its nodes and edges.
    pub fn of(nodes: usize, edges: usize, limit: u64) -> Places
        requires { Limits nodes edges }
        ensures { result ≡ places_at nodes edges limit }
    {
        Places {
            nodes,
            limit,
            distances: nodes + 1 + 4 * edges,
            queue: 2 * nodes + 1 + 4 * edges,
        }
    }
}

// A count of paths exceeds the limit.
#[derive(Clone, Copy, Debug, PartialEq, Eq)]
pub struct TooManyPaths;

// A call says PATHS.
impl From<TooManyPaths> for Refusal {
    ghost from_gives = { λ _ r. r.answer ≡ Paths };

    fn from(_: TooManyPaths) -> Refusal {
        Refusal::from(Answer::Paths)
    }
}

// What one entry of a row was to a search.
#[derive(Clone, Copy, Debug, PartialEq, Eq)]
pub enum Step {
    First,
    Again,
    Other,
}

impl Step {
    // By how much an entry let the queue grow.
    pub fn grown(self) -> usize
        ensures { result ≡ grown self }
    {
        match self {
            Step::First => 1,
            Step::Again | Step::Other => 0,
        }
    }
}

// The start alone is reached: no hops, one way, first in the queue.
pub fn begin(places: Places, start: usize, w: &mut [u32], counts: &mut [u64])
    requires { BeginPre start places.distances places.queue w.old counts.old }
    ensures { Begun start places.distances places.queue w.old counts.old w.new counts.new }
{
    w[places.distances + start] = 0;
    w[places.queue] = start as u32;
    counts[start] = 1;
}

// The entry x of a node that has `ways` ways; x would be `further` hops away. A node found first is given its distance, its place in the queue and
// the node's ways; one found again at that distance is given more ways, unless these exceed the limit.
pub fn touch(
    places: Places,
    x: u32,
    further: u32,
    ways: u64,
    place: usize,
    w: &mut [u32],
    counts: &mut [u64],
) -> Result<Step, TooManyPaths>
    requires { TouchPre x ways places.limit places.distances place w.old counts.old }
    ensures { Touched x further ways places.limit places.distances place w.old counts.old w.new counts.new result }
{
    let Places {
        limit,
        distances,
        ..
    } = places;
    let v = x as usize;
    let old = w[distances + v];
    // most entries lead back or aside: one test lets them go
    if old < further {
        return Ok(Step::Other);
    }
    if old == UNREACHED {
        w[distances + v] = further;
        w[place] = x;
        counts[v] = ways;
        return Ok(Step::First);
    }
    if old != further {
        return Ok(Step::Other);
    }
    let before = counts[v];
    if limit - ways < before {
        return Err(TooManyPaths);
    }
    counts[v] = before + ways;
    Ok(Step::Again)
}

// Takes back what a search found: the nodes at the first `tail` places of the queue have no distance and no count.
pub fn forget(places: Places, tail: usize, w: &mut [u32], counts: &mut [u64])
    requires { ForgetPre tail places.distances places.queue w.old counts.old }
    ensures { Forgotten tail places.distances places.queue w.old counts.old w.new counts.new }
{
    for i in 0..tail {
        let v = w[places.queue + i] as usize;
        w[places.distances + v] = UNREACHED;
        counts[v] = 0;
    }
}
