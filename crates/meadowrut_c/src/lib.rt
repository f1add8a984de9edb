// The exports of the C interface: each call of `meadowrut` under its own name, with the same clauses. include/meadowrut.h
// declares them, and tests/calls/gate holds them to `meadowrut`'s text.
#![tactic(auto)]

ghost use Rattle.std.specs.Prelude.{◌≡◌, []};
ghost use Rattle.roots.specs.Root.{sqrt_of, SquareRoot};
ghost use Rattle.roots.specs.Absolute.{abs_of};
ghost use Rattle.roots.specs.Maximum.{max_of};
ghost use Rattle.answers.specs.Settings.{usual_settings};
ghost use Rattle.graph.specs.Given.{given};
ghost use Rattle.graph.specs.Given.{given as lent};
ghost use Rattle.graph.specs.Left.{left, in_numbers};
ghost use Rattle.degree.specs.Degree.{degree_outcome, in_degree_outcome, out_degree_outcome};
ghost use Rattle.survey.specs.Survey.{results, survey_outcome};
ghost use Rattle.betweenness.specs.Betweenness.{betweenness_outcome};
ghost use Rattle.edge_betweenness.specs.Edges.{edge_scores, edge_betweenness_outcome};
ghost use Rattle.reaching.specs.Reaching.{reaching_outcome, global_outcome};
ghost use Rattle.laplacian.specs.Laplacian.{laplacian_outcome};
ghost use Rattle.voterank.specs.VoteRank.{voterank_outcome};
ghost use Rattle.pagerank.specs.PageRank.{pagerank_outcome};
ghost use Rattle.personalized_pagerank.specs.Personalized.{personalized_outcome};
ghost use Rattle.eigenvector.specs.Eigenvector.{eigen_outcome};
ghost use Rattle.katz.specs.Katz.{katz_outcome};
ghost use Rattle.job.specs.Run.{run_outcome};
ghost use Rattle.boundary.specs.Boundary.{raised, asked, returned, reported, counted, voiced};
ghost use Rattle.meadowrut.specs.Voiced.{run_voiced};

use boundary::{Election, Report, Settings, Text};

#[unsafe(no_mangle)]
pub extern "C" fn meadowrut_sqrt(x: f64) -> f64
    ensures { (result ≡ sqrt_of x) × SquareRoot x result }
{
    meadowrut::meadowrut_sqrt(x)
}

#[unsafe(no_mangle)]
pub extern "C" fn meadowrut_abs(x: f64) -> f64
    ensures { result ≡ abs_of x }
{
    meadowrut::meadowrut_abs(x)
}

#[unsafe(no_mangle)]
pub extern "C" fn meadowrut_max(x: f64, y: f64) -> f64
    ensures { result ≡ max_of x y }
{
    meadowrut::meadowrut_max(x, y)
}

#[unsafe(no_mangle)]
pub extern "C" fn meadowrut_usual() -> Settings
    ensures { result ≡ returned usual_settings }
{
    meadowrut::meadowrut_usual()
}

#[unsafe(no_mangle)]
pub extern "C" fn meadowrut_degree(
    nodes: usize,
    directed: u32,
    from: &[u32],
    to: &[u32],
    weight: &[f64],
    scores: &mut [f64],
) -> u32
    ensures { left result scores.new [] [] [] ≡ in_numbers (degree_outcome (given nodes (raised directed) from.now to.now weight.now scores.old [] [] [])) }
{
    meadowrut::meadowrut_degree(nodes, directed, from, to, weight, scores)
}

#[unsafe(no_mangle)]
pub extern "C" fn meadowrut_in_degree(
    nodes: usize,
    directed: u32,
    from: &[u32],
    to: &[u32],
    weight: &[f64],
    scores: &mut [f64],
) -> u32
    ensures { left result scores.new [] [] [] ≡ in_numbers (in_degree_outcome (given nodes (raised directed) from.now to.now weight.now scores.old [] [] [])) }
{
    meadowrut::meadowrut_in_degree(nodes, directed, from, to, weight, scores)
}

#[unsafe(no_mangle)]
pub extern "C" fn meadowrut_out_degree(
    nodes: usize,
    directed: u32,
    from: &[u32],
    to: &[u32],
    weight: &[f64],
    scores: &mut [f64],
) -> u32
    ensures { left result scores.new [] [] [] ≡ in_numbers (out_degree_outcome (given nodes (raised directed) from.now to.now weight.now scores.old [] [] [])) }
{
    meadowrut::meadowrut_out_degree(nodes, directed, from, to, weight, scores)
}

#[unsafe(no_mangle)]
pub extern "C" fn meadowrut_survey(
    nodes: usize,
    directed: u32,
    from: &[u32],
    to: &[u32],
    weight: &[f64],
    start: usize,
    distances: &mut [u32],
    counts: &mut [u64],
    w32: &mut [u32],
    w64: &mut [u64],
    wf: &mut [f64],
) -> u32
    ensures { left result (results distances.new counts.new) w32.new w64.new wf.new ≡ in_numbers (survey_outcome start (given nodes (raised directed) from.now to.now weight.now (results distances.old counts.old) w32.old w64.old wf.old)) }
{
    meadowrut::meadowrut_survey(
        nodes, directed, from, to, weight, start, distances, counts, w32, w64, wf,
    )
}

#[unsafe(no_mangle)]
pub extern "C" fn meadowrut_betweenness(
    nodes: usize,
    directed: u32,
    from: &[u32],
    to: &[u32],
    weight: &[f64],
    normalized: u32,
    scores: &mut [f64],
    w32: &mut [u32],
    w64: &mut [u64],
    wf: &mut [f64],
) -> u32
    ensures { left result scores.new w32.new w64.new wf.new ≡ in_numbers (betweenness_outcome (raised normalized) (given nodes (raised directed) from.now to.now weight.now scores.old w32.old w64.old wf.old)) }
{
    meadowrut::meadowrut_betweenness(
        nodes, directed, from, to, weight, normalized, scores, w32, w64, wf,
    )
}

#[unsafe(no_mangle)]
pub extern "C" fn meadowrut_edge_betweenness(
    nodes: usize,
    directed: u32,
    from: &[u32],
    to: &[u32],
    weight: &[f64],
    normalized: u32,
    forward: &mut [f64],
    back: &mut [f64],
    w32: &mut [u32],
    w64: &mut [u64],
    wf: &mut [f64],
) -> u32
    ensures { left result (edge_scores forward.new back.new) w32.new w64.new wf.new ≡ in_numbers (edge_betweenness_outcome (raised normalized) (given nodes (raised directed) from.now to.now weight.now (edge_scores forward.old back.old) w32.old w64.old wf.old)) }
{
    meadowrut::meadowrut_edge_betweenness(
        nodes, directed, from, to, weight, normalized, forward, back, w32, w64, wf,
    )
}

#[unsafe(no_mangle)]
pub extern "C" fn meadowrut_local_reaching(
    nodes: usize,
    directed: u32,
    from: &[u32],
    to: &[u32],
    weight: &[f64],
    hops: u64,
    scores: &mut [f64],
    w32: &mut [u32],
    w64: &mut [u64],
    wf: &mut [f64],
) -> u32
    ensures { left result scores.new w32.new w64.new wf.new ≡ in_numbers (reaching_outcome hops (given nodes (raised directed) from.now to.now weight.now scores.old w32.old w64.old wf.old)) }
{
    meadowrut::meadowrut_local_reaching(
        nodes, directed, from, to, weight, hops, scores, w32, w64, wf,
    )
}

#[unsafe(no_mangle)]
pub extern "C" fn meadowrut_global_reaching(
    nodes: usize,
    directed: u32,
    from: &[u32],
    to: &[u32],
    weight: &[f64],
    scores: &mut [f64],
    w32: &mut [u32],
    w64: &mut [u64],
    wf: &mut [f64],
) -> u32
    ensures { left result scores.new w32.new w64.new wf.new ≡ in_numbers (global_outcome (given nodes (raised directed) from.now to.now weight.now scores.old w32.old w64.old wf.old)) }
{
    meadowrut::meadowrut_global_reaching(nodes, directed, from, to, weight, scores, w32, w64, wf)
}

#[unsafe(no_mangle)]
pub extern "C" fn meadowrut_laplacian(
    nodes: usize,
    directed: u32,
    from: &[u32],
    to: &[u32],
    weight: &[f64],
    scores: &mut [f64],
    w32: &mut [u32],
    w64: &mut [u64],
    wf: &mut [f64],
) -> u32
    ensures { left result scores.new w32.new w64.new wf.new ≡ in_numbers (laplacian_outcome (given nodes (raised directed) from.now to.now weight.now scores.old w32.old w64.old wf.old)) }
{
    meadowrut::meadowrut_laplacian(nodes, directed, from, to, weight, scores, w32, w64, wf)
}

#[unsafe(no_mangle)]
pub extern "C" fn meadowrut_voterank(
    nodes: usize,
    directed: u32,
    from: &[u32],
    to: &[u32],
    weight: &[f64],
    seeds: usize,
    elected: &mut [u32],
    w32: &mut [u32],
    w64: &mut [u64],
    wf: &mut [f64],
) -> Election
    ensures { left result elected.new w32.new w64.new wf.new ≡ voiced counted (voterank_outcome seeds (given nodes (raised directed) from.now to.now weight.now elected.old w32.old w64.old wf.old)) }
{
    meadowrut::meadowrut_voterank(
        nodes, directed, from, to, weight, seeds, elected, w32, w64, wf,
    )
}

#[unsafe(no_mangle)]
pub extern "C" fn meadowrut_pagerank(
    nodes: usize,
    directed: u32,
    from: &[u32],
    to: &[u32],
    weight: &[f64],
    settings: Settings,
    given: u32,
    start: &[f64],
    scores: &mut [f64],
    w32: &mut [u32],
    w64: &mut [u64],
    wf: &mut [f64],
) -> Report
    ensures { left result scores.new w32.new w64.new wf.new ≡ voiced reported (pagerank_outcome (asked settings) (raised given) start.now (lent nodes (raised directed) from.now to.now weight.now scores.old w32.old w64.old wf.old)) }
{
    meadowrut::meadowrut_pagerank(
        nodes, directed, from, to, weight, settings, given, start, scores, w32, w64, wf,
    )
}

#[unsafe(no_mangle)]
pub extern "C" fn meadowrut_personalized_pagerank(
    nodes: usize,
    directed: u32,
    from: &[u32],
    to: &[u32],
    weight: &[f64],
    settings: Settings,
    given: u32,
    personalization: &[f64],
    scores: &mut [f64],
    w32: &mut [u32],
    w64: &mut [u64],
    wf: &mut [f64],
) -> Report
    ensures { left result scores.new w32.new w64.new wf.new ≡ voiced reported (personalized_outcome (asked settings) (raised given) personalization.now (lent nodes (raised directed) from.now to.now weight.now scores.old w32.old w64.old wf.old)) }
{
    meadowrut::meadowrut_personalized_pagerank(
        nodes,
        directed,
        from,
        to,
        weight,
        settings,
        given,
        personalization,
        scores,
        w32,
        w64,
        wf,
    )
}

#[unsafe(no_mangle)]
pub extern "C" fn meadowrut_eigenvector(
    nodes: usize,
    directed: u32,
    from: &[u32],
    to: &[u32],
    weight: &[f64],
    settings: Settings,
    scores: &mut [f64],
    w32: &mut [u32],
    w64: &mut [u64],
    wf: &mut [f64],
) -> Report
    ensures { left result scores.new w32.new w64.new wf.new ≡ voiced reported (eigen_outcome (asked settings) (lent nodes (raised directed) from.now to.now weight.now scores.old w32.old w64.old wf.old)) }
{
    meadowrut::meadowrut_eigenvector(
        nodes, directed, from, to, weight, settings, scores, w32, w64, wf,
    )
}

#[unsafe(no_mangle)]
pub extern "C" fn meadowrut_katz(
    nodes: usize,
    directed: u32,
    from: &[u32],
    to: &[u32],
    weight: &[f64],
    settings: Settings,
    given: u32,
    beta: &[f64],
    scores: &mut [f64],
    w32: &mut [u32],
    w64: &mut [u64],
    wf: &mut [f64],
) -> Report
    ensures { left result scores.new w32.new w64.new wf.new ≡ voiced reported (katz_outcome (asked settings) (raised given) beta.now (lent nodes (raised directed) from.now to.now weight.now scores.old w32.old w64.old wf.old)) }
{
    meadowrut::meadowrut_katz(
        nodes, directed, from, to, weight, settings, given, beta, scores, w32, w64, wf,
    )
}

#[unsafe(no_mangle)]
pub extern "C" fn meadowrut_run(input: &[u8], output: &mut [u8]) -> Text
    ensures { left result output.new [] [] [] ≡ run_voiced (run_outcome input.now output.old) }
{
    meadowrut::meadowrut_run(input, output)
}
