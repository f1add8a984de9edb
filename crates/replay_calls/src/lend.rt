// A record's call, made with slices of exactly the lengths that the record gives.
ghost use Rattle.std.specs.Prelude.{◌≡◌, ◌≤◌, min, length};
ghost use Rattle.words.specs.Words.{word_at};
ghost use Rattle.replay_calls.specs.Record.{is_longer, fits_in, has_rounds, counts_paths, Reports, Compares, Replays};

use graph::Graph;
use lent::{FLOATS, Left, NARROW, RESULTS, WIDE};
use words::{Call, Record};

// The longest slices that a record lends; few lend more than FEW edges.
const EDGES: usize = 32769;

const FEW: usize = 160;

const VECTOR: usize = 8;

// Whether something that a record's call says or leaves is not what the record has.
pub fn differs(call: Call, words: &[u64]) -> bool
    ensures { Replays result words.now }
{
    let asked = Record {
        words,
        parts: words::find_parts(words),
    };
    if !fits(asked) {
        return true;
    }
    if longer(words, 3, &[FEW, FEW, FEW]) {
        return among::<EDGES>(call, asked);
    }
    among::<FEW>(call, asked)
}

// Puts the edges of the record into N slots each, and its vector, and lends the fronts of the lengths that the record gives.
fn among<const N: usize>(call: Call, asked: Record<'_>) -> bool
    requires { N ≤ 32769 }
    ensures { Compares result asked.entry.words.now asked.entry.parts (min (word_at asked.entry.words.now 3 0) N) }
{
    let words = asked.words;
    let mut from = [0u32; N];
    let mut to = [0u32; N];
    let mut weight = [0.0; N];
    put_ends(words, 7, &mut from);
    put_ends(words, 8, &mut to);
    put_weights(words, &mut weight);
    let graph = Graph {
        nodes: words::size(words, 1, 0),
        directed: words::is_set(words, 2, 0),
        from: words::front(&from, words::size(words, 3, 0)),
        to: words::front(&to, words::size(words, 3, 1)),
        weight: words::front(&weight, words::size(words, 3, 2)),
    };
    let vector = find_vector(asked);
    leaves_other(
        call,
        asked,
        graph,
        words::front(&vector, words::size(words, asked.parts.own, 5)),
    )
}

// Makes the call, and compares what it says and leaves.
fn leaves_other(call: Call, asked: Record<'_>, graph: Graph<'_>, vector: &[f64]) -> bool
    ensures { Compares result asked.entry.words.now asked.entry.parts (length graph.entry.from.now) }
{
    let left = make(call, asked, graph, vector);
    compared::finds_other(asked, graph.from.len(), &left)
}

// The crate that makes a call goes by the call's number.
fn make(call: Call, asked: Record<'_>, graph: Graph<'_>, vector: &[f64]) -> Left
    ensures { Reports (word_at asked.entry.words.now 0 0) result }
{
    let number = words::word(asked.words, 0, 0);
    if has_rounds(number) {
        return calls_iterated::make(call, asked, graph, vector);
    }
    if counts_paths(number) {
        return calls_between::make(call, asked, graph);
    }
    calls_walked::make(call, asked, graph)
}

#[tactic(auto, unfolding(crate::specs::Record::has_rounds))]
fn has_rounds(call: u64) -> bool
    ensures { result ≡ has_rounds call }
{
    (10..14).contains(&call)
}

#[tactic(auto, unfolding(crate::specs::Record::counts_paths))]
fn counts_paths(call: u64) -> bool
    ensures { result ≡ counts_paths call }
{
    (4..6).contains(&call)
}

// Whether the words end where the record does, and no slice is longer than what is lent here.
#[tactic(auto, unfolding(crate::specs::Record::fits_in))]
fn fits(asked: Record<'_>) -> bool
    ensures { result ≡ fits_in asked.entry.words.now asked.entry.parts }
{
    let Record { words, parts } = asked;
    parts.end == words.len()
        && !longer(words, 3, &[EDGES, EDGES, EDGES])
        && words::size(words, parts.own, 5) <= VECTOR
        && !longer(
            words,
            parts.lengths,
            &[RESULTS, RESULTS, RESULTS, RESULTS, NARROW, WIDE, FLOATS],
        )
}

// Whether one of the lengths behind a place is more than the most that is lent for it.
#[tactic(auto, using(crate::proofs::Record::limits))]
fn longer(words: &[u64], place: usize, most: &[usize]) -> bool
    ensures { result ≡ is_longer words.now place most.now }
{
    for (i, limit) in most.iter().enumerate() {
        if *limit < words::size(words, place, i) {
            return true;
        }
    }
    false
}

// The ends of the record's edges: every third word from a place on.
fn put_ends(words: &[u64], place: usize, ends: &mut [u32]) {
    for (i, end) in ends.iter_mut().take(words::size(words, 6, 0)).enumerate() {
        *end = (words::word(words, place, i.wrapping_mul(3)) % 0x1_0000_0000) as u32;
    }
}

fn put_weights(words: &[u64], weight: &mut [f64]) {
    for (i, x) in weight.iter_mut().take(words::size(words, 6, 0)).enumerate() {
        *x = text::float_of(words::word(words, 9, i.wrapping_mul(3)));
    }
}

// The entries of a vector.
fn find_vector(asked: Record<'_>) -> [f64; VECTOR] {
    let mut vector = [0.0; VECTOR];
    for (i, x) in vector.iter_mut().enumerate() {
        *x = text::float_of(words::word(asked.words, asked.parts.vector, i));
    }
    vector
}
