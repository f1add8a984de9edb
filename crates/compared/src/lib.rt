// What a call says and leaves, held to its record.
#![tactic(auto)]

ghost use Rattle.std.specs.Prelude.{◌≡◌, ℕ, get_or};
ghost use Rattle.std.specs.Float.{binary64};
ghost use Rattle.std.specs.Float.Ieee.{to_bits};
ghost use Rattle.graph.specs.Fronts.{no_fronts};
ghost use Rattle.lent.specs.Slots.{old32, old64, old_f};
ghost use Rattle.compared.specs.Other.{is_other, other_counts, other_scores, other_work, uses_none, used_front, record_front, leaves_other, says_other, finds_other};

use answers::Settings;
use graph::Fronts;
use lent::{Left, NARROW, OLD32, OLD64, OLDF, Slots};
use words::Record;

// What can stand in a slot.
trait Slot: Copy {
    // the word that a value stands for
    ghost read: { Self → ℕ };

    // the word of what stood in each slot before a call
    ghost before: { ℕ };

    fn word(self) -> u64
        ensures { result ≡ read self };

    fn word_before() -> u64
        ensures { result ≡ before };
}

impl Slot for u32 {
    ghost read = { λ x. x };

    ghost before = { old32 };

    fn word(self) -> u64 {
        u64::from(self)
    }

    fn word_before() -> u64 {
        u64::from(OLD32)
    }
}

impl Slot for u64 {
    ghost read = { λ x. x };

    ghost before = { old64 };

    fn word(self) -> u64 {
        self
    }

    fn word_before() -> u64 {
        OLD64
    }
}

// By their bits; one NaN is as good as another.
impl Slot for f64 {
    ghost read = { to_bits binary64 };

    ghost before = { to_bits binary64 old_f };

    fn word(self) -> u64 {
        text::bits_of(self)
    }

    fn word_before() -> u64 {
        text::bits_of(OLDF)
    }
}

// Whether something said or left is not what the record has.
#[tactic(auto, unfolding(crate::specs::Other::finds_other))]
pub fn finds_other(asked: Record<'_>, edges: usize, left: &Left) -> bool
    ensures { result ≡ finds_other asked.entry.words.now asked.entry.parts edges left.now }
{
    leaves_other(asked, edges, left) || says_other(asked, left)
}

// Whether a result or the workspace is another.
#[tactic(auto, unfolding(crate::specs::Other::leaves_other))]
fn leaves_other(asked: Record<'_>, edges: usize, left: &Left) -> bool
    ensures { result ≡ leaves_other asked.entry.words.now asked.entry.parts edges left.now }
{
    let Slots {
        narrow,
        wide,
        floats,
        back,
        w32,
        w64,
        wf,
    } = &left.slots;
    other_counts(asked, narrow, wide)
        || other_scores(asked, floats, back)
        || other_work(used_by(asked, edges), w32, w64, wf)
}

// Whether the answer or a report is another.
#[tactic(auto, unfolding(crate::specs::Other::says_other))]
fn says_other(asked: Record<'_>, left: &Left) -> bool
    ensures { result ≡ says_other asked.entry.words.now asked.entry.parts left.now }
{
    let Record { words, parts } = asked;
    left.said.answer != words::word(words, parts.said, 0)
        || left.said.settled != words::word(words, parts.said, 1)
        || left.said.rounds != words::word(words, parts.said, 2)
        || left.said.elected != words::word(words, parts.said, 3)
}

// Whether a slice of nodes, distances or counts is not the record's results and then what it was.
#[tactic(auto, unfolding(crate::specs::Other::other_counts))]
fn other_counts(asked: Record<'_>, narrow: &[u32], wide: &[u64]) -> bool
    ensures { result ≡ other_counts asked.entry.words.now asked.entry.parts narrow.now wide.now }
{
    let Record { words, parts } = asked;
    is_other(narrow, words::results(words, parts.narrow))
        || is_other(wide, words::results(words, parts.wide))
}

// The same of a slice of scores.
#[tactic(auto, unfolding(crate::specs::Other::other_scores))]
fn other_scores(asked: Record<'_>, floats: &[f64], back: &[f64]) -> bool
    ensures { result ≡ other_scores asked.entry.words.now asked.entry.parts floats.now back.now }
{
    let Record { words, parts } = asked;
    is_other(floats, words::results(words, parts.floats))
        || is_other(back, words::results(words, parts.back))
}

// Whether the workspace is not zero in its used front and then what it was.
#[tactic(auto, unfolding(crate::specs::Other::other_work))]
fn other_work(front: Fronts, w32: &[u32], w64: &[u64], wf: &[f64]) -> bool
    ensures { result ≡ other_work front w32.now w64.now wf.now }
{
    let zeros = [0u64; NARROW];
    is_other(w32, words::front(&zeros, front.narrow))
        || is_other(w64, words::front(&zeros, front.wide))
        || is_other(wf, words::front(&zeros, front.floats))
}

// The front that the record's call uses.
fn used_by(asked: Record<'_>, edges: usize) -> Fronts
    ensures { result ≡ record_front asked.entry.words.now asked.entry.parts edges }
{
    let Record { words, parts } = asked;
    used(
        words::word(words, 0, 0),
        words::word(words, parts.said, 0),
        words::size(words, 1, 0),
        edges,
    )
}

// The front that a call with this answer uses.
#[tactic(auto, unfolding(crate::specs::Other::used_front))]
fn used(call: u64, answer: u64, nodes: usize, edges: usize) -> Fronts
    ensures { result ≡ used_front call answer nodes edges }
{
    if uses_none(call, answer) || Settings::NODES < nodes || Settings::EDGES < edges {
        none()
    } else {
        graph::usual_fronts(nodes, edges)
    }
}

// The degrees use no workspace, and the refusals 1 to 9 come before it is used.
#[tactic(auto, unfolding(crate::specs::Other::uses_none))]
fn uses_none(call: u64, answer: u64) -> bool
    ensures { result ≡ uses_none call answer }
{
    call < 3 || (answer != 0 && answer < 10)
}

fn none() -> Fronts
    ensures { result ≡ no_fronts }
{
    Fronts {
        narrow: 0,
        wide: 0,
        floats: 0,
    }
}

// Whether slots do not begin with these numbers, or were changed after them.
fn is_other<T: Slot>(slots: &[T], first: &[u64]) -> bool
    ensures { result ≡ is_other T.read T.before slots.now first.now }
{
    if slots.len() < first.len() {
        return true;
    }
    for (i, x) in slots.iter().enumerate() {
        let found = x.word();
        if found != wanted(first, i, T::word_before()) {
            return true;
        }
    }
    false
}

// The number that belongs into a slot.
fn wanted(first: &[u64], i: usize, old: u64) -> u64
    ensures { result ≡ get_or first.now i old }
{
    first.get(i).copied().unwrap_or(old)
}
