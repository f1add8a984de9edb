// What passes between C and the calls: the structs of include/meadowrut.h, the graph that C lends, and what a call said in numbers.
#![tactic(auto)]

ghost use Rattle.std.specs.Prelude.{◌≡◌};
ghost use Rattle.answers.specs.Answers.{done, refused_with, said_by};
ghost use Rattle.boundary.specs.Boundary.{asked, returned, reported, counted, written};

use answers::{Refusal, Rounds};

// What the iterative calls are asked.
#[repr(C)]
#[derive(Clone, Copy)]
pub struct Settings {
    pub damping: f64,
    pub tolerance: f64,
    pub limit: u64,
}

// What an iterative call says.
#[repr(C)]
#[derive(Clone, Copy)]
pub struct Report {
    pub answer: u32,
    pub settled: u32,
    pub rounds: u64,
    pub settings: Settings,
}

// What an election says.
#[repr(C)]
#[derive(Clone, Copy)]
pub struct Election {
    pub answer: u32,
    pub elected: usize,
}

// What an answered job text says: how many bytes were written.
#[repr(C)]
#[derive(Clone, Copy)]
pub struct Text {
    pub answer: u32,
    pub length: usize,
}

// The settings of C as the calls take them.
impl From<Settings> for answers::Settings {
    ghost from_gives = { λ s r. r ≡ asked s };

    fn from(s: Settings) -> answers::Settings {
        answers::Settings {
            damping: s.damping,
            tolerance: s.tolerance,
            limit: s.limit,
        }
    }
}

// The settings of a call as C has them.
impl From<answers::Settings> for Settings {
    ghost from_gives = { λ s r. r ≡ returned s };

    fn from(settings: answers::Settings) -> Settings {
        Settings {
            damping: settings.damping,
            tolerance: settings.tolerance,
            limit: settings.limit,
        }
    }
}

// The numbers of an iterative call that is done.
impl From<Rounds> for Report {
    ghost from_gives = { λ r report. report ≡ reported (done r) };

    fn from(r: Rounds) -> Report {
        Report {
            answer: 0,
            settled: u32::from(r.settled),
            rounds: r.rounds,
            settings: Settings::from(r.settings),
        }
    }
}

// The numbers of an iterative call that was refused: all but the answer's are 0.
impl From<Refusal> for Report {
    ghost from_gives = { λ r report. report ≡ reported (refused_with r.answer) };

    fn from(refusal: Refusal) -> Report {
        Report {
            answer: u32::from(refusal.answer),
            settled: 0,
            rounds: 0,
            settings: Settings {
                damping: 0.0,
                tolerance: 0.0,
                limit: 0,
            },
        }
    }
}

// What an iterative call returned, in numbers.
impl From<Result<Rounds, Refusal>> for Report {
    ghost from_gives = { λ said report. report ≡ reported (said_by said) };

    fn from(said: Result<Rounds, Refusal>) -> Report {
        match said {
            Ok(rounds) => Report::from(rounds),
            Err(refusal) => Report::from(refusal),
        }
    }
}

// What an election returned, in numbers.
impl From<Result<usize, Refusal>> for Election {
    ghost from_gives = { λ said election. election ≡ counted (said_by said) };

    fn from(said: Result<usize, Refusal>) -> Election {
        match said {
            Ok(elected) => Election { answer: 0, elected },
            Err(refusal) => Election {
                answer: u32::from(refusal.answer),
                elected: 0,
            },
        }
    }
}

// What `run` returned, in numbers.
impl From<Result<usize, Refusal>> for Text {
    ghost from_gives = { λ said text. text ≡ written (said_by said) };

    fn from(said: Result<usize, Refusal>) -> Text {
        match said {
            Ok(length) => Text { answer: 0, length },
            Err(refusal) => Text {
                answer: u32::from(refusal.answer),
                length: 0,
            },
        }
    }
}
