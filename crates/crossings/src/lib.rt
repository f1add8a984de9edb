// Edge betweenness' accumulation from one start: over the nodes of a search in reverse order, each share also goes to the total of its pair.
#![tactic(auto)]

ghost use Rattle.std.specs.Prelude.{◌≡◌};
ghost use mathlib.Core.List.{foldr};
ghost use Rattle.regions.specs.Region.{part};
ghost use Rattle.brandes.specs.Steps.{held_predecessors};
ghost use Rattle.crossings.specs.Crossings.{crossed_all, held_pairs, left_across, PassAcrossPre, LeaveAcrossPre, AcrossPre};

use pair_search::PairTracks;

// The predecessor entries of a node with this many ways: each takes its share, and the total of its pair, beside it, the same.
fn pass_back(
    nodes: usize,
    totals: usize,
    entries: &[u32],
    pairs: &[u32],
    ways: f64,
    grown: f64,
    w64: &[u64],
    wf: &mut [f64],
)
    requires { PassAcrossPre nodes totals entries.now pairs.now w64.now wf.old }
    ensures { wf.new ≡ crossed_all nodes totals w64.now ways grown wf.old entries.now pairs.now }
{
    for (k, entry) in entries.iter().enumerate() {
        let v = *entry as usize;
        let share = (std::num::nearest_u64_to_f64(w64[v]) / ways) * grown;
        wf[nodes + v] += share;
        wf[totals + pairs[k] as usize] += share;
    }
}

// w leaves: its predecessor entries take their shares, and the totals of their pairs the same.
fn leave(paired: PairTracks, w: usize, w32: &[u32], w64: &[u64], wf: &mut [f64])
    requires { LeaveAcrossPre paired w w32.now w64.now wf.old }
    ensures { wf.new ≡ left_across paired.tracks.places.nodes paired.table.totals w64.now (held_predecessors paired.tracks w32.now) (held_pairs paired w32.now) w wf.old }
{
    let tracks = paired.tracks;
    let nodes = tracks.places.nodes;
    let grown = 1.0 + wf[nodes + w];
    let ways = std::num::nearest_u64_to_f64(w64[w]);
    let a = w32[tracks.first + w] as usize;
    let e = w32[tracks.last + w] as usize;
    let entries = &w32[tracks.base + a..tracks.base + e];
    let pairs = &w32[paired.pairs + a..paired.pairs + e];
    pass_back(
        nodes,
        paired.table.totals,
        entries,
        pairs,
        ways,
        grown,
        w64,
        wf,
    );
}

// The nodes of the queue leave, from its end to its front.
pub fn accumulate(paired: PairTracks, found: usize, w32: &[u32], w64: &[u64], wf: &mut [f64])
    requires { AcrossPre paired found w32.now w64.now wf.old }
    ensures { wf.new ≡ foldr (left_across paired.tracks.places.nodes paired.table.totals w64.now (held_predecessors paired.tracks w32.now) (held_pairs paired w32.now)) wf.old (part w32.now paired.tracks.places.queue found) }
{
    let queue = paired.tracks.places.queue;
    for i in (0..found).rev() {
        let w = w32[queue + i] as usize;
        leave(paired, w, w32, w64, wf);
    }
}
