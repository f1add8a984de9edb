// The nodes within a hop limit of one node, counted: a search over the rows, without counts of ways.
#![tactic(auto)]

ghost use Rattle.reach.specs.Search.{MeetPre, Met, SpreadPre, SpreadPost, WithinPre, WithinPost, FromPre, FromPost};

use hops::Places;

// How many nodes are within the limit of `start`, itself counted: they stand in the queue.
pub fn reach_from(bounded: Places, start: usize, w: &mut [u32]) -> usize
    requires { FromPre bounded.nodes start bounded.distances bounded.queue w.old }
    ensures { FromPost bounded.nodes bounded.limit start bounded.distances bounded.queue w.old w.new result }
{
    w[bounded.distances + start] = 0;
    w[bounded.queue] = start as u32;
    reach_within(bounded, w)
}

// Node by node of the queue, until one is as far as the limit or nothing new is reached.
fn reach_within(bounded: Places, w: &mut [u32]) -> usize
    requires { WithinPre bounded.nodes bounded.limit bounded.distances bounded.queue w.old }
    ensures { WithinPost bounded.nodes bounded.limit bounded.distances bounded.queue w.old w.new result }
{
    let Places {
        limit,
        distances,
        queue,
        ..
    } = bounded;
    let mut head = 0;
    let mut tail = 1;
    while head < tail {
        let u = w[queue + head] as usize;
        let far = w[distances + u];
        if limit <= far as u64 {
            return tail;
        }
        tail = spread(bounded, u, far + 1, tail, w);
        head += 1;
    }
    tail
}

// The entries of u: those without a distance are `further` hops away, and join the queue.
fn spread(bounded: Places, u: usize, further: u32, tail: usize, w: &mut [u32]) -> usize
    requires { SpreadPre bounded.nodes u further bounded.distances bounded.queue tail w.old }
    ensures { SpreadPost bounded.nodes u further bounded.distances bounded.queue tail w.old w.new result }
{
    let Places {
        nodes,
        distances,
        queue,
        ..
    } = bounded;
    let rows = nodes + 1;
    let mut place = queue + tail;
    for p in rows + w[u] as usize..rows + w[u + 1] as usize {
        place += meet(w[p], further, distances, place, w);
    }
    place - queue
}

// One entry: by how many the queue grows.
fn meet(x: u32, further: u32, distances: usize, place: usize, w: &mut [u32]) -> usize
    requires { MeetPre x distances place w.old }
    ensures { Met x further distances place w.old w.new result }
{
    let v = x as usize;
    if w[distances + v] == hops::UNREACHED {
        w[distances + v] = further;
        w[place] = x;
        return 1;
    }
    0
}
