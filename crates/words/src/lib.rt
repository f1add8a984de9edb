// The words of a record of a call, and where its parts stand among them. tests/differential/driver/list.rs describes the format.
#![tactic(auto)]

ghost use Rattle.std.specs.Prelude.{◌≡◌, ◌≤◌, max, not, length, take, ◌==◌};
ghost use Rattle.words.specs.Calls.{Named};
ghost use Rattle.words.specs.Words.{sum_of, word_at, past_at, places_of, results_at};

use std::fmt;

// A record of 4,096 bytes has 2,048 words at most.
pub const WORDS: usize = 2048;

// How many calls a list can name.
pub const CALLS: usize = 14;

// The calls, in the order of their numbers in a list.
#[derive(Clone, Copy, Debug, PartialEq, Eq)]
pub enum Call {
    Degree,
    InDegree,
    OutDegree,
    Survey,
    Betweenness,
    EdgeBetweenness,
    LocalReaching,
    GlobalReaching,
    Voterank,
    Laplacian,
    Pagerank,
    PersonalizedPagerank,
    Eigenvector,
    Katz,
}

// A number that no call has.
#[derive(Clone, Copy, Debug, PartialEq, Eq)]
pub struct NoCall;

impl Call {
    // All of them.
    pub const ALL: [Call; CALLS] = [
        Call::Degree,
        Call::InDegree,
        Call::OutDegree,
        Call::Survey,
        Call::Betweenness,
        Call::EdgeBetweenness,
        Call::LocalReaching,
        Call::GlobalReaching,
        Call::Voterank,
        Call::Laplacian,
        Call::Pagerank,
        Call::PersonalizedPagerank,
        Call::Eigenvector,
        Call::Katz,
    ];
}

// The call that a list's number names.
impl TryFrom<u64> for Call {
    type Error = NoCall;

    ghost try_from_gives = { Named };

    fn try_from(n: u64) -> Result<Call, NoCall> {
        Call::ALL.get(n as usize).copied().ok_or(NoCall)
    }
}

impl fmt::Display for Call {
    fn fmt<W: fmt::Write>(&self, f: &mut fmt::Formatter<W>) -> fmt::Result {
        f.write_str(match self {
            Call::Degree => "degree",
            Call::InDegree => "in_degree",
            Call::OutDegree => "out_degree",
            Call::Survey => "survey",
            Call::Betweenness => "betweenness",
            Call::EdgeBetweenness => "edge_betweenness",
            Call::LocalReaching => "local_reaching",
            Call::GlobalReaching => "global_reaching",
            Call::Voterank => "voterank",
            Call::Laplacian => "laplacian",
            Call::Pagerank => "pagerank",
            Call::PersonalizedPagerank => "personalized_pagerank",
            Call::Eigenvector => "eigenvector",
            Call::Katz => "katz",
        })
    }
}

// Where each part of a record begins. A part of results begins with their count.
#[derive(Clone, Copy)]
pub struct Places {
    // option, damping, tolerance, limit, given or not, the vector's length
    pub own: usize,
    pub vector: usize,
    // lengths of the four result slices and of the three of the workspace
    pub lengths: usize,
    // answer, settled, rounds, elected
    pub said: usize,
    pub narrow: usize,
    pub wide: usize,
    pub floats: usize,
    pub back: usize,
    pub end: usize,
}

// A record: its words, and where its parts stand among them.
#[derive(Clone, Copy)]
pub struct Record<'a> {
    pub words: &'a [u64],
    pub parts: Places,
}

impl Record<'_> {
    // The word so far into the call's own numbers.
    pub fn own(self, further: usize) -> u64
        ensures { result ≡ word_at self.entry.words.now self.entry.parts.own further }
    {
        word(self.words, self.parts.own, further)
    }
}

// Puts the words that a line spells in hexadecimal digits, each with one byte after it; those that there is room for.
pub fn spell<'a>(line: &[u8], words: &'a mut [u64]) -> &'a [u64]
    ensures { length result.now ≤ length words.old }
{
    let mut value = 0;
    let mut n = 0;
    for b in line {
        if let Some(d) = text::digit(*b) {
            value = (value << 4) | d;
        } else {
            n = push(words, n, value);
            value = 0;
        }
    }
    &words[..n]
}

// Puts a further word after the first n; past the last is one that there is no room for.
fn push(words: &mut [u64], n: usize, value: u64) -> usize
    ensures { result ≤ max n (length words.old) }
{
    match words.get_mut(n) {
        Some(slot) => {
            *slot = value;
            n + 1
        }
        None => n,
    }
}

// The word so far behind a place; 0 past the last.
pub fn word(words: &[u64], place: usize, further: usize) -> u64
    ensures { result ≡ word_at words.now place further }
{
    words.get(sum(place, further)).copied().unwrap_or(0)
}

// A word that is a length, or a number of nodes.
pub fn size(words: &[u64], place: usize, further: usize) -> usize
    ensures { result ≡ word_at words.now place further }
{
    word(words, place, further) as usize
}

// A word that is a flag.
pub fn is_set(words: &[u64], place: usize, further: usize) -> bool
    ensures { result ≡ not (word_at words.now place further == 0) }
{
    word(words, place, further) != 0
}

// The parts follow each other: an edge has three words, a vector's entry and a result one.
pub fn find_parts(words: &[u64]) -> Places
    ensures { result ≡ places_of words.now }
{
    let k = size(words, 6, 0);
    let own = sum(7, sum(k, sum(k, k)));
    let vector = sum(own, 6);
    let lengths = sum(vector, size(words, own, 5));
    let said = sum(lengths, 7);
    let narrow = sum(said, 4);
    let wide = past(words, narrow);
    let floats = past(words, wide);
    let back = past(words, floats);
    Places {
        own,
        vector,
        lengths,
        said,
        narrow,
        wide,
        floats,
        back,
        end: past(words, back),
    }
}

// So many of the slots; all where there are not so many.
pub fn front<T>(slots: &[T], n: usize) -> &[T]
    ensures { result.now ≡ take n slots.now }
{
    &slots[..n.min(slots.len())]
}

// The results of a part; none where the words end before them.
#[tactic(auto, unfolding(crate::specs::Words::results_at))]
pub fn results(words: &[u64], place: usize) -> &[u64]
    ensures { result.now ≡ results_at words.now place }
{
    let n = size(words, place, 0);
    words
        .get(place..)
        .and_then(|part| part.get(1..))
        .and_then(|rest| rest.get(..n))
        .unwrap_or(&[])
}

// Past a count and its results.
fn past(words: &[u64], place: usize) -> usize
    ensures { result ≡ past_at words.now place }
{
    sum(place, sum(1, size(words, place, 0)))
}

// A record with lengths beyond its end has places that mean nothing; who lends by it refuses it.
fn sum(a: usize, b: usize) -> usize
    ensures { result ≡ sum_of a b }
{
    a.wrapping_add(b)
}
