// The grammar of lines: a line is known by the place where it begins, and ends in a newline. It has the measures by name,
// the lines of a number, of an edge, of a measure, and the six lines `kind` to `tolerance`. Which settings a measure uses
// is not said here.
#![tactic(auto)]

ghost use Rattle.std.specs.Prelude.{◌≡◌, List, ℕ, Some, None, MatchOption};
ghost use Rattle.lines.specs.Names.{measures, name_of, measure_of, kind_of};
ghost use Rattle.lines.specs.Lines.{value_of, decimal_line, bits_line, measure_line, kind_line, at_most, cut_of, edge_of, edge_line};
ghost use Rattle.lines.specs.Top.{top_of};

#[derive(Clone, Copy)]
pub enum Measure {
    Betweenness,
    Pagerank,
    Personalized,
    Eigenvector,
    Katz,
    Reaching,
    Voterank,
    Laplacian,
    Degree,
}

// Every measure.
const MEASURES: [Measure; 9] = [
    Measure::Betweenness,
    Measure::Pagerank,
    Measure::Personalized,
    Measure::Eigenvector,
    Measure::Katz,
    Measure::Reaching,
    Measure::Voterank,
    Measure::Laplacian,
    Measure::Degree,
];

// From, to and the weight's bits.
#[derive(Clone, Copy)]
pub struct Edge {
    pub from: u64,
    pub to: u64,
    pub weight: u64,
}

// The lines `kind` to `tolerance`. Factor and tolerance are the bits of floats.
#[derive(Clone, Copy)]
pub struct Top {
    pub directed: bool,
    pub nodes: u64,
    pub option: u64,
    pub rounds: u64,
    pub factor: u64,
    pub tolerance: u64,
}

// The largest value that each setting may have.
#[derive(Clone, Copy)]
pub struct Most {
    pub option: u64,
    pub rounds: u64,
    pub factor: u64,
    pub tolerance: u64,
}

// Which line is faulty, counted as the function that returns it says.
#[derive(Clone, Copy)]
pub struct FaultyLine {
    pub number: u64,
}

// The name of a measure.
pub fn name(measure: Measure) -> &'static [u8]
    ensures { result.now ≡ name_of measure }
{
    match measure {
        Measure::Betweenness => b"betweenness",
        Measure::Pagerank => b"pagerank",
        Measure::Personalized => b"personalized",
        Measure::Eigenvector => b"eigenvector",
        Measure::Katz => b"katz",
        Measure::Reaching => b"reaching",
        Measure::Voterank => b"voterank",
        Measure::Laplacian => b"laplacian",
        Measure::Degree => b"degree",
    }
}

// The measure that a word names.
fn measure_named(s: &[u8]) -> Option<Measure>
    ensures { result ≡ measure_of s.now }
{
    MEASURES
        .iter()
        .copied()
        .find(|measure| text::is_word(name(*measure), s))
}

// Whether a graph's kind is directed.
#[tactic(auto, unfolding(crate::specs::Names::kind_of))]
fn kind_named(s: &[u8]) -> Option<bool>
    ensures { result ≡ kind_of s.now }
{
    if text::is_word(b"directed", s) {
        Some(true)
    } else if text::is_word(b"undirected", s) {
        Some(false)
    } else {
        None
    }
}

// The value of the line at `at` that begins with the key, and where the next line begins.
#[tactic(auto, using(text::proofs::Words::places, crate::proofs::Values::faults))]
fn value_of<'a>(key: &[u8], s: &'a [u8], at: usize) -> Option<(&'a [u8], usize)>
    ensures { MatchOption result (value_of key.now s.now at ≡ None) (λ x. value_of key.now s.now at ≡ Some (x.0.now, x.1)) }
{
    let rest = s.get(at..)?;
    let end = text::place(b'\n', rest)?;
    let value = rest[..end].strip_prefix(key)?;
    Some((value, at + end + 1))
}

// The line KEY DECIMAL at `at`: its number, and where the next line begins.
pub fn decimal_line(key: &[u8], s: &[u8], at: usize) -> Option<(u64, usize)>
    ensures { result ≡ decimal_line key.now s.now at }
{
    let (value, next) = value_of(key, s, at)?;
    Some((text::decimal(value)?, next))
}

// The line KEY BITS at `at`, likewise.
fn bits_line(key: &[u8], s: &[u8], at: usize) -> Option<(u64, usize)>
    ensures { result ≡ bits_line key.now s.now at }
{
    let (value, next) = value_of(key, s, at)?;
    Some((text::bits(value)?, next))
}

// The line KEY MEASURE at `at`, likewise.
pub fn measure_line(key: &[u8], s: &[u8], at: usize) -> Option<(Measure, usize)>
    ensures { result ≡ measure_line key.now s.now at }
{
    let (value, next) = value_of(key, s, at)?;
    Some((measure_named(value)?, next))
}

// The line of the graph's kind at `at`, likewise.
fn kind_line(s: &[u8], at: usize) -> Option<(bool, usize)>
    ensures { result ≡ kind_line s.now at }
{
    let (value, next) = value_of(b"kind=", s, at)?;
    Some((kind_named(value)?, next))
}

// A number above the largest that is allowed is a fault of its line.
fn at_most(most: u64, line: Option<(u64, usize)>) -> Option<(u64, usize)>
    ensures { result ≡ at_most most line }
{
    line.filter(|(v, _)| *v <= most)
}

// The six lines `kind` to `tolerance` from `at` on, and where the next line begins; the first faulty one decides, by its
// number from 0.
#[tactic(auto, unfolding(crate::specs::Top::top_of))]
pub fn read_top(most: Most, s: &[u8], at: usize) -> Result<(Top, usize), FaultyLine>
    ensures { result ≡ top_of most s.now at }
{
    let fault = |number| FaultyLine { number };
    let (directed, a) = kind_line(s, at).ok_or(fault(0))?;
    let (nodes, b) = decimal_line(b"nodes=", s, a).ok_or(fault(1))?;
    let (option, c) = at_most(most.option, decimal_line(b"option=", s, b)).ok_or(fault(2))?;
    let (rounds, d) = at_most(most.rounds, decimal_line(b"rounds=", s, c)).ok_or(fault(3))?;
    let (factor, e) = at_most(most.factor, bits_line(b"factor=", s, d)).ok_or(fault(4))?;
    let (tolerance, f) = at_most(most.tolerance, bits_line(b"tolerance=", s, e)).ok_or(fault(5))?;
    Ok((
        Top {
            directed,
            nodes,
            option,
            rounds,
            factor,
            tolerance,
        },
        f,
    ))
}

// What stands before the first comma and after it.
#[tactic(auto, unfolding(crate::specs::Lines::cut_of), using(text::proofs::Words::places))]
fn cut(s: &[u8]) -> Option<(&[u8], &[u8])>
    ensures { MatchOption result (cut_of s.now ≡ None) (λ x. cut_of s.now ≡ Some (x.0.now, x.1.now)) }
{
    let comma = text::place(b',', s)?;
    Some((&s[..comma], &s[comma + 1..]))
}

// The edge FROM,TO,WEIGHT.
#[tactic(auto, unfolding(crate::specs::Lines::edge_of))]
fn read_edge(s: &[u8]) -> Option<Edge>
    ensures { result ≡ edge_of s.now }
{
    let (from, rest) = cut(s)?;
    let (to, weight) = cut(rest)?;
    Some(Edge {
        from: text::decimal(from)?,
        to: text::decimal(to)?,
        weight: text::bits(weight)?,
    })
}

// The edge line at `at`: its edge, and where the next line begins.
#[tactic(auto, unfolding(crate::specs::Lines::edge_line))]
pub fn edge_line(s: &[u8], at: usize) -> Option<(Edge, usize)>
    ensures { result ≡ edge_line s.now at }
{
    let (value, next) = value_of(b"edge=", s, at)?;
    Some((read_edge(value)?, next))
}
