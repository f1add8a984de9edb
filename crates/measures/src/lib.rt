// A job's measure without rounds, on slices: the call that it asks for, and what the call says written to the output.
#![tactic(auto)]

ghost use Rattle.std.specs.Prelude.{[], length};
ghost use Rattle.text.specs.Written.{Written};
ghost use Rattle.outcomes.specs.Lent.{lent_with};
ghost use Rattle.outcomes.specs.Pres.{Room, Fits, Few};
ghost use Rattle.measures.specs.Scored.{betweenness_text, reaching_text, voterank_text, laplacian_text, degree_text};

use lines::Measure;
use outcomes::Task;

// Writes the answer of betweenness, normalized if the option is 1.
pub fn score_betweenness(
    task: Task<'_>,
    scores: &mut [f64],
    w32: &mut [u32],
    w64: &mut [u64],
    wf: &mut [f64],
    output: &mut [u8],
) -> usize
    requires { Room output.old × Fits task.top.nodes (length scores.old) }
    ensures { Written (betweenness_text task.entry.top (lent_with task.entry scores.old [] w32.old w64.old wf.old)) output.old 0 output.new result }
{
    let graph = task.graph();
    let normalized = task.top.option == 1;
    let said = betweenness::betweenness(graph, normalized, scores, w32, w64, wf);
    outcomes::put_plain(output, Measure::Betweenness, graph.nodes, said, scores)
}

// Writes the answer of local reaching centrality, within as many hops as the option says.
pub fn score_reaching(
    task: Task<'_>,
    scores: &mut [f64],
    w32: &mut [u32],
    w64: &mut [u64],
    wf: &mut [f64],
    output: &mut [u8],
) -> usize
    requires { Room output.old × Fits task.top.nodes (length scores.old) }
    ensures { Written (reaching_text task.entry.top (lent_with task.entry scores.old [] w32.old w64.old wf.old)) output.old 0 output.new result }
{
    let graph = task.graph();
    let said = reaching::local_reaching(graph, task.top.option, scores, w32, w64, wf);
    outcomes::put_plain(output, Measure::Reaching, graph.nodes, said, scores)
}

// Writes the answer of VoteRank, with as many seeds as the option says.
pub fn score_voterank(
    task: Task<'_>,
    elected: &mut [u32],
    w32: &mut [u32],
    w64: &mut [u64],
    wf: &mut [f64],
    output: &mut [u8],
) -> usize
    requires { Room output.old × Few (length elected.old) }
    ensures { Written (voterank_text task.entry.top (lent_with task.entry [] elected.old w32.old w64.old wf.old)) output.old 0 output.new result }
{
    let graph = task.graph();
    let seeds = task.top.option as usize;
    let said = voterank::voterank(graph, seeds, elected, w32, w64, wf);
    outcomes::put_elected(output, graph.nodes, said, elected)
}

// Writes the answer of Laplacian centrality.
pub fn score_laplacian(
    task: Task<'_>,
    scores: &mut [f64],
    w32: &mut [u32],
    w64: &mut [u64],
    wf: &mut [f64],
    output: &mut [u8],
) -> usize
    requires { Room output.old × Fits task.top.nodes (length scores.old) }
    ensures { Written (laplacian_text task.entry.top (lent_with task.entry scores.old [] w32.old w64.old wf.old)) output.old 0 output.new result }
{
    let graph = task.graph();
    let said = laplacian::laplacian(graph, scores, w32, w64, wf);
    outcomes::put_plain(output, Measure::Laplacian, graph.nodes, said, scores)
}

// Writes the answer of degree centrality; it takes no workspace.
pub fn score_degree(task: Task<'_>, scores: &mut [f64], output: &mut [u8]) -> usize
    requires { Room output.old × Fits task.top.nodes (length scores.old) }
    ensures { Written (degree_text task.entry.top (lent_with task.entry scores.old [] [] [] [])) output.old 0 output.new result }
{
    let graph = task.graph();
    let said = degree::degree(graph, scores);
    outcomes::put_plain(output, Measure::Degree, graph.nodes, said, scores)
}
