// Brandes' accumulation from one start: over the nodes of a search in reverse order, each passes its share back to its predecessors.
#![tactic(auto)]

ghost use Rattle.std.specs.Prelude.{◌≡◌, ◌≢◌};
ghost use mathlib.Core.List.{foldr};
ghost use Rattle.regions.specs.Region.{part};
ghost use Rattle.brandes.specs.Steps.{passed_back, PassPre, held_predecessors, left_by, LeavePre, AccumulatePre, ReleasePre, Released};

use predecessors::Tracks;

// The predecessor entries of a node with this many ways: each takes its share.
fn pass_back(nodes: usize, entries: &[u32], ways: f64, grown: f64, w64: &[u64], wf: &mut [f64])
    requires { PassPre nodes entries.now w64.now wf.old }
    ensures { wf.new ≡ passed_back nodes w64.now ways grown wf.old entries.now }
{
    for entry in entries {
        let v = *entry as usize;
        wf[nodes + v] += (std::num::nearest_u64_to_f64(w64[v]) / ways) * grown;
    }
}

// w leaves: its predecessor entries take their shares and, unless it is the start, its score grows by its delta.
fn leave(tracks: Tracks, start: usize, w: usize, w32: &[u32], w64: &[u64], wf: &mut [f64])
    requires { LeavePre tracks w w32.now w64.now wf.old }
    ensures { wf.new ≡ left_by tracks.places.nodes w64.now (held_predecessors tracks w32.now) start w wf.old }
{
    let nodes = tracks.places.nodes;
    let delta = wf[nodes + w];
    let ways = std::num::nearest_u64_to_f64(w64[w]);
    let a = tracks.base + w32[tracks.first + w] as usize;
    let e = tracks.base + w32[tracks.last + w] as usize;
    pass_back(nodes, &w32[a..e], ways, 1.0 + delta, w64, wf);
    if w != start {
        wf[w] += delta;
    }
}

// The nodes of the queue leave, from its end to its front.
pub fn accumulate(
    tracks: Tracks,
    start: usize,
    found: usize,
    w32: &[u32],
    w64: &[u64],
    wf: &mut [f64],
)
    requires { AccumulatePre tracks found w32.now w64.now wf.old }
    ensures { wf.new ≡ foldr (left_by tracks.places.nodes w64.now (held_predecessors tracks w32.now) start) wf.old (part w32.now tracks.places.queue found) }
{
    for i in (0..found).rev() {
        let w = w32[tracks.places.queue + i] as usize;
        leave(tracks, start, w, w32, w64, wf);
    }
}

// Takes back what a start left: the nodes at the first `found` places of the queue have no predecessor entry, and delta +0.0.
pub fn release(tracks: Tracks, found: usize, w32: &mut [u32], wf: &mut [f64])
    requires { ReleasePre tracks found w32.old wf.old }
    ensures { Released tracks found w32.old wf.old w32.new wf.new }
{
    for i in 0..found {
        let v = w32[tracks.places.queue + i] as usize;
        w32[tracks.last + v] = w32[tracks.first + v];
        wf[tracks.places.nodes + v] = 0.0;
    }
}
