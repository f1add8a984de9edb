// The calls of a record that count shortest paths: betweenness of nodes and of edges. Each is lent slices of exactly the lengths
// that the record gives.
#![tactic(auto)]

ghost use Rattle.std.specs.Prelude.{◌≡◌};
ghost use Rattle.lent.specs.Said.{NoRounds, NoElection};

use betweenness::betweenness;
use edge_betweenness::edge_betweenness;
use graph::Graph;
use lent::{Left, Lent, Said, Slots};
use words::{Call, Record};

// What the call of a record leaves.
pub fn make(call: Call, asked: Record<'_>, graph: Graph<'_>) -> Left
    ensures { NoRounds result × NoElection result }
{
    let mut slots = Slots::old();
    let said = say(call, asked, graph, slots.lend(asked));
    Left { said, slots }
}

// What the call says. The first of its own numbers says whether it is normalized.
fn say(call: Call, asked: Record<'_>, graph: Graph<'_>, lent: Lent<'_>) -> Said
    ensures { (result.settled ≡ 0) × (result.rounds ≡ 0) × (result.elected ≡ 0) }
{
    let Lent {
        floats,
        back,
        w32,
        w64,
        wf,
        ..
    } = lent;
    let normalized = asked.own(0) != 0;
    match call {
        Call::Betweenness => Said::from(betweenness(graph, normalized, floats, w32, w64, wf)),
        _ => Said::from(edge_betweenness(graph, normalized, floats, back, w32, w64, wf)),
    }
}
