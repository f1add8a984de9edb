// A job's iterative measure, on slices: the call that it asks for, with the settings of the job, and what the call says written to the output.
#![tactic(auto)]

ghost use Rattle.std.specs.Prelude.{[], length};
ghost use Rattle.text.specs.Written.{Written};
ghost use Rattle.outcomes.specs.Lent.{lent_with};
ghost use Rattle.outcomes.specs.Pres.{Room, Fits};
ghost use Rattle.iterative.specs.Scored.{pagerank_text, personalized_text, eigenvector_text, katz_text};

use lines::Measure;
use outcomes::Task;

// Writes the answer of PageRank, with no start vector given.
pub fn score_pagerank(
    task: Task<'_>,
    scores: &mut [f64],
    w32: &mut [u32],
    w64: &mut [u64],
    wf: &mut [f64],
    output: &mut [u8],
) -> usize
    requires { Room output.old × Fits task.top.nodes (length scores.old) }
    ensures { Written (pagerank_text task.entry.top (lent_with task.entry scores.old [] w32.old w64.old wf.old)) output.old 0 output.new result }
{
    let graph = task.graph();
    let settings = outcomes::settings_of(task.top);
    let said = pagerank::pagerank(graph, settings, false, &[], scores, w32, w64, wf);
    outcomes::put_ended(output, Measure::Pagerank, graph.nodes, said, scores)
}

// Writes the answer of personalized PageRank, with no vector given.
pub fn score_personalized(
    task: Task<'_>,
    scores: &mut [f64],
    w32: &mut [u32],
    w64: &mut [u64],
    wf: &mut [f64],
    output: &mut [u8],
) -> usize
    requires { Room output.old × Fits task.top.nodes (length scores.old) }
    ensures { Written (personalized_text task.entry.top (lent_with task.entry scores.old [] w32.old w64.old wf.old)) output.old 0 output.new result }
{
    let graph = task.graph();
    let settings = outcomes::settings_of(task.top);
    let said = personalized_pagerank::personalized_pagerank(
        graph,
        settings,
        false,
        &[],
        scores,
        w32,
        w64,
        wf,
    );
    outcomes::put_ended(output, Measure::Personalized, graph.nodes, said, scores)
}

// Writes the answer of eigenvector centrality.
pub fn score_eigenvector(
    task: Task<'_>,
    scores: &mut [f64],
    w32: &mut [u32],
    w64: &mut [u64],
    wf: &mut [f64],
    output: &mut [u8],
) -> usize
    requires { Room output.old × Fits task.top.nodes (length scores.old) }
    ensures { Written (eigenvector_text task.entry.top (lent_with task.entry scores.old [] w32.old w64.old wf.old)) output.old 0 output.new result }
{
    let graph = task.graph();
    let settings = outcomes::settings_of(task.top);
    let said = eigenvector::eigenvector(graph, settings, scores, w32, w64, wf);
    outcomes::put_ended(output, Measure::Eigenvector, graph.nodes, said, scores)
}

// Writes the answer of Katz centrality, with no beta vector given.
pub fn score_katz(
    task: Task<'_>,
    scores: &mut [f64],
    w32: &mut [u32],
    w64: &mut [u64],
    wf: &mut [f64],
    output: &mut [u8],
) -> usize
    requires { Room output.old × Fits task.top.nodes (length scores.old) }
    ensures { Written (katz_text task.entry.top (lent_with task.entry scores.old [] w32.old w64.old wf.old)) output.old 0 output.new result }
{
    let graph = task.graph();
    let settings = outcomes::settings_of(task.top);
    let said = katz::katz(graph, settings, false, &[], scores, w32, w64, wf);
    outcomes::put_ended(output, Measure::Katz, graph.nodes, said, scores)
}
