// The calls of a record that go by rounds: PageRank, personalized PageRank, eigenvector and Katz. Each is lent slices of exactly
// the lengths that the record gives.
#![tactic(auto)]

ghost use Rattle.std.specs.Prelude.{◌≡◌};
ghost use Rattle.lent.specs.Said.{NoElection};

use answers::Settings;
use graph::Graph;
use lent::{Left, Lent, Said, Slots};
use words::{Call, Record};

// What the call of a record leaves, by the vector beside the record.
pub fn make(call: Call, asked: Record<'_>, graph: Graph<'_>, vector: &[f64]) -> Left
    ensures { NoElection result }
{
    let mut slots = Slots::old();
    let said = say(call, asked, graph, vector, slots.lend(asked));
    Left { said, slots }
}

// What the call says. Its settings are among its own numbers, and whether the vector is given.
fn say(call: Call, asked: Record<'_>, graph: Graph<'_>, vector: &[f64], lent: Lent<'_>) -> Said
    ensures { result.elected ≡ 0 }
{
    let Lent {
        floats,
        w32,
        w64,
        wf,
        ..
    } = lent;
    let settings = settings(asked);
    let given = asked.own(4) != 0;
    Said::from(match call {
        Call::Pagerank => {
            pagerank::pagerank(graph, settings, given, vector, floats, w32, w64, wf)
        }
        Call::PersonalizedPagerank => personalized_pagerank::personalized_pagerank(
            graph, settings, given, vector, floats, w32, w64, wf,
        ),
        Call::Eigenvector => { eigenvector::eigenvector(graph, settings, floats, w32, w64, wf) }
        _ => katz::katz(graph, settings, given, vector, floats, w32, w64, wf),
    })
}

// The settings of the call.
fn settings(asked: Record<'_>) -> Settings {
    Settings {
        damping: text::float_of(asked.own(1)),
        tolerance: text::float_of(asked.own(2)),
        limit: asked.own(3),
    }
}
