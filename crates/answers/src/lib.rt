// The numbered answers, what calls return, and the settings of the iterative measures.
#![tactic(auto)]

ghost use Rattle.std.specs.Prelude.{◌≡◌};
ghost use Rattle.answers.specs.Answers.{number_of, number_said, said_by};
ghost use Rattle.answers.specs.Settings.{usual_settings};

// Document 01's answers, in the order of their numbers.
#[derive(Clone, Copy, Debug, PartialEq, Eq)]
pub enum Answer {
    Done,
    Empty,
    Size,
    Node,
    Number,
    Room,
    Damping,
    Rounds,
    Start,
    Length,
    Paths,
    Unsettled,
    Text,
}

// Why a call did not answer DONE.
#[derive(Clone, Copy, Debug, PartialEq, Eq)]
pub struct Refusal {
    pub answer: Answer,
}

// What the four iterative measures are asked: for Katz the damping is alpha.
#[derive(Clone, Copy)]
pub struct Settings {
    pub damping: f64,
    pub tolerance: f64,
    pub limit: u64,
}

// Where the rounds of an iterative measure ended.
#[derive(Clone, Copy)]
pub struct Rounds {
    pub settings: Settings,
    pub rounds: u64,
    pub settled: bool,
}

impl Settings {
    // The limits of a graph, and those of a job of the program.
    pub const NODES: usize = 4096;

    pub const EDGES: usize = 32768;

    pub const JOB_NODES: usize = 512;

    pub const JOB_EDGES: usize = 1024;

    // Damping 0.85, tolerance 1e-6, 100 rounds.
    pub fn usual() -> Settings
        ensures { result ≡ usual_settings }
    {
        Settings {
            damping: 0.85,
            tolerance: 0.000001,
            limit: 100,
        }
    }
}

// The answer's number.
impl From<Answer> for u32 {
    ghost from_gives = { λ a k. k ≡ number_of a };

    fn from(a: Answer) -> u32 {
        match a {
            Answer::Done => 0,
            Answer::Empty => 1,
            Answer::Size => 2,
            Answer::Node => 3,
            Answer::Number => 4,
            Answer::Room => 5,
            Answer::Damping => 6,
            Answer::Rounds => 7,
            Answer::Start => 8,
            Answer::Length => 9,
            Answer::Paths => 10,
            Answer::Unsettled => 11,
            Answer::Text => 12,
        }
    }
}

// The refusal with an answer.
impl From<Answer> for Refusal {
    ghost from_gives = { λ a r. r.answer ≡ a };

    fn from(answer: Answer) -> Refusal {
        Refusal { answer }
    }
}

// The number of what a call returned.
pub fn number_said<T: Drop>(said: Result<T, Refusal>) -> u32
    ensures { result ≡ number_said (said_by said) }
{
    match said {
        Ok(_) => 0,
        Err(refusal) => u32::from(refusal.answer),
    }
}
