// What a replayed call is lent and what it leaves: slices of exactly the lengths that its record gives, and what it says.
#![tactic(auto)]

ghost use Rattle.std.specs.Prelude.{◌≡◌};
ghost use Rattle.answers.specs.Answers.{number_said, said_by};
ghost use Rattle.lent.specs.Slots.{old_slots, lent_front};

use answers::{Refusal, Rounds};
use words::Record;

// The longest slices that a record lends: results, and the three of the workspace.
pub const RESULTS: usize = 160;

pub const NARROW: usize = 2200;

pub const WIDE: usize = 220;

pub const FLOATS: usize = 1300;

// What stands in the slices before a call.
pub const OLD32: u32 = 0xa5a5_a5a5;

pub const OLD64: u64 = 0xa5a5_a5a5_a5a5_a5a5;

pub const OLDF: f64 = -123456.789;

// What a call says, in a record's words: 0 for what it does not report.
#[derive(Clone, Copy)]
pub struct Said {
    pub answer: u64,
    pub settled: u64,
    pub rounds: u64,
    pub elected: u64,
}

// The four result slices and the workspace, with all that stands behind what is lent.
#[derive(Clone, Copy)]
pub struct Slots {
    pub narrow: [u32; RESULTS],
    pub wide: [u64; RESULTS],
    pub floats: [f64; RESULTS],
    pub back: [f64; RESULTS],
    pub w32: [u32; NARROW],
    pub w64: [u64; WIDE],
    pub wf: [f64; FLOATS],
}

// What a call says, and all the slots after it.
#[derive(Clone, Copy)]
pub struct Left {
    pub said: Said,
    pub slots: Slots,
}

// What a call is lent of the slots.
#[derive(Drop)]
pub struct Lent<'a> {
    pub narrow: &'a mut [u32],
    pub wide: &'a mut [u64],
    pub floats: &'a mut [f64],
    pub back: &'a mut [f64],
    pub w32: &'a mut [u32],
    pub w64: &'a mut [u64],
    pub wf: &'a mut [f64],
}

impl Slots {
    // As they stand before a call.
    pub fn old() -> Slots
        ensures { result ≡ old_slots }
    {
        Slots {
            narrow: [OLD32; RESULTS],
            wide: [OLD64; RESULTS],
            floats: [OLDF; RESULTS],
            back: [OLDF; RESULTS],
            w32: [OLD32; NARROW],
            w64: [OLD64; WIDE],
            wf: [OLDF; FLOATS],
        }
    }

    // The front of each, as long as the record says.
    pub fn lend<'a>(&'a mut self, asked: Record<'_>) -> Lent<'a>
        ensures narrow { result.narrow.now ≡ lent_front asked.entry 0 self.old.narrow }
        ensures wide { result.wide.now ≡ lent_front asked.entry 1 self.old.wide }
        ensures floats { result.floats.now ≡ lent_front asked.entry 2 self.old.floats }
        ensures back { result.back.now ≡ lent_front asked.entry 3 self.old.back }
        ensures w32 { result.w32.now ≡ lent_front asked.entry 4 self.old.w32 }
        ensures w64 { result.w64.now ≡ lent_front asked.entry 5 self.old.w64 }
        ensures wf { result.wf.now ≡ lent_front asked.entry 6 self.old.wf }
    {
        let Slots {
            narrow,
            wide,
            floats,
            back,
            w32,
            w64,
            wf,
        } = self;
        Lent {
            narrow: lend(asked, 0, narrow),
            wide: lend(asked, 1, wide),
            floats: lend(asked, 2, floats),
            back: lend(asked, 3, back),
            w32: lend(asked, 4, w32),
            w64: lend(asked, 5, w64),
            wf: lend(asked, 6, wf),
        }
    }
}

// The front of slots that is as long as the record's word says; all where there are not so many.
pub fn lend<'a, T>(asked: Record<'_>, which: usize, slots: &'a mut [T]) -> &'a mut [T]
    ensures { result.now ≡ lent_front asked.entry which slots.old }
{
    let n = words::size(asked.words, asked.parts.lengths, which).min(slots.len());
    &mut slots[..n]
}

// What a call with no values of its own says.
impl From<Result<(), Refusal>> for Said {
    ghost from_gives = { λ said s. (s.answer ≡ number_said (said_by said)) × (s.settled ≡ 0) × (s.rounds ≡ 0) × (s.elected ≡ 0) };

    fn from(said: Result<(), Refusal>) -> Said {
        Said {
            answer: u64::from(answers::number_said(said)),
            settled: 0,
            rounds: 0,
            elected: 0,
        }
    }
}

// What an iterative call says: whether it settled, and its rounds.
impl From<Result<Rounds, Refusal>> for Said {
    ghost from_gives = { λ _ s. s.elected ≡ 0 };

    fn from(said: Result<Rounds, Refusal>) -> Said {
        match said {
            Ok(r) => Said {
                answer: 0,
                settled: u64::from(r.settled),
                rounds: r.rounds,
                elected: 0,
            },
            Err(refusal) => {
                let refused: Result<(), Refusal> = Err(refusal);
                Said::from(refused)
            }
        }
    }
}

// What an election says: how many were elected.
impl From<Result<usize, Refusal>> for Said {
    ghost from_gives = { λ _ s. (s.settled ≡ 0) × (s.rounds ≡ 0) };

    fn from(said: Result<usize, Refusal>) -> Said {
        match said {
            Ok(n) => Said {
                answer: 0,
                settled: 0,
                rounds: 0,
                elected: n as u64,
            },
            Err(refusal) => {
                let refused: Result<(), Refusal> = Err(refusal);
                Said::from(refused)
            }
        }
    }
}
