// The calls of a record that are no betweenness and have no rounds: degrees, survey, reaching, VoteRank, Laplacian. Each is lent
// slices of exactly the lengths that the record gives.
#![tactic(auto)]

ghost use Rattle.std.specs.Prelude.{◌≡◌};
ghost use Rattle.lent.specs.Said.{NoRounds};

use graph::Graph;
use lent::{Left, Lent, Said, Slots};
use words::{Call, Record};

// What the call of a record leaves.
pub fn make(call: Call, asked: Record<'_>, graph: Graph<'_>) -> Left
    ensures { NoRounds result }
{
    let mut slots = Slots::old();
    let said = say(call, asked, graph, slots.lend(asked));
    Left { said, slots }
}

// What the call says. Its option is the first of its own numbers.
fn say(call: Call, asked: Record<'_>, graph: Graph<'_>, lent: Lent<'_>) -> Said
    ensures { (result.settled ≡ 0) × (result.rounds ≡ 0) }
{
    let Lent {
        narrow,
        wide,
        floats,
        w32,
        w64,
        wf,
        ..
    } = lent;
    let option = asked.own(0);
    match call {
        Call::Degree => Said::from(degree::degree(graph, floats)),
        Call::InDegree => Said::from(degree::in_degree(graph, floats)),
        Call::OutDegree => Said::from(degree::out_degree(graph, floats)),
        Call::Survey => {
            let start = option as usize;
            Said::from(survey::survey(graph, start, narrow, wide, w32, w64, wf))
        }
        Call::LocalReaching => {
            Said::from(reaching::local_reaching(graph, option, floats, w32, w64, wf))
        }
        Call::GlobalReaching => Said::from(reaching::global_reaching(graph, floats, w32, w64, wf)),
        Call::Voterank => {
            let seeds = option as usize;
            Said::from(voterank::voterank(graph, seeds, narrow, w32, w64, wf))
        }
        _ => Said::from(laplacian::laplacian(graph, floats, w32, w64, wf)),
    }
}
