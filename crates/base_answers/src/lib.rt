// The answers of all entry points, with their numbers and places: done, one of the refusals 1 to 10, 16 and 17, or one of the verdicts 11 to 15.
#![tactic(auto)]

ghost use Rattle.std.specs.Prelude.{◌≡◌};
ghost use Rattle.base_answers.specs.Answers.{said};
ghost use Rattle.base_answers.specs.Numbers.{refusal_number, refusal_place, verdict_number, verdict_place, number_of, place_of, refusing};

// Why an entry point refuses. It leaves all buffers as they were then.
#[derive(Clone, Copy)]
pub enum Refusal {
    Words,
    Corners,
    Buffer(usize),
    Unnamed(usize),
    Twice(usize),
    Repeated(usize),
    NotFinite(usize),
    TooFar(usize),
    States(usize),
    Line(usize),
    Misfit,
    NoPitch,
}

impl Refusal {
    // The number of the refusal.
    pub fn number(self) -> u32
        ensures { result ≡ refusal_number self }
    {
        match self {
            Refusal::Words => 1,
            Refusal::Corners => 2,
            Refusal::Buffer(_) => 3,
            Refusal::Unnamed(_) => 4,
            Refusal::Twice(_) => 5,
            Refusal::Repeated(_) => 6,
            Refusal::NotFinite(_) => 7,
            Refusal::TooFar(_) => 8,
            Refusal::States(_) => 9,
            Refusal::Line(_) => 10,
            Refusal::Misfit => 16,
            Refusal::NoPitch => 17,
        }
    }

    // The place of the refusal.
    pub fn place(self) -> usize
        ensures { result ≡ refusal_place self }
    {
        match self {
            Refusal::Buffer(place)
            | Refusal::Unnamed(place)
            | Refusal::Twice(place)
            | Refusal::Repeated(place)
            | Refusal::NotFinite(place)
            | Refusal::TooFar(place)
            | Refusal::States(place)
            | Refusal::Line(place) => place,
            Refusal::Words | Refusal::Corners | Refusal::Misfit | Refusal::NoPitch => 0,
        }
    }
}

// Why a patch set does not pass: a fault of a loop, or corners left over.
#[derive(Clone, Copy)]
pub enum Verdict {
    Misdeclared(usize),
    Uncovered(usize),
    Barred(usize),
    Heavy(usize),
    LeftOver(usize),
}

impl Verdict {
    // The number of the verdict.
    pub fn number(self) -> u32
        ensures { result ≡ verdict_number self }
    {
        match self {
            Verdict::Misdeclared(_) => 11,
            Verdict::Uncovered(_) => 12,
            Verdict::Barred(_) => 13,
            Verdict::Heavy(_) => 14,
            Verdict::LeftOver(_) => 15,
        }
    }

    // The place of the verdict.
    pub fn place(self) -> usize
        ensures { result ≡ verdict_place self }
    {
        match self {
            Verdict::Misdeclared(place)
            | Verdict::Uncovered(place)
            | Verdict::Barred(place)
            | Verdict::Heavy(place)
            | Verdict::LeftOver(place) => place,
        }
    }
}

// What an entry point says: done or passed, a refusal, or a verdict.
#[derive(Clone, Copy)]
pub enum Answer {
    Done,
    Refused(Refusal),
    Failed(Verdict),
}

impl Answer {
    // The number of the answer.
    pub fn number(self) -> u32
        ensures { result ≡ number_of self }
    {
        match self {
            Answer::Done => 0,
            Answer::Refused(refusal) => refusal.number(),
            Answer::Failed(verdict) => verdict.number(),
        }
    }

    // Whether it is a refusal, which leaves all buffers as they were and has zero in every count.
    pub fn refuses(self) -> bool
        ensures { result ≡ refusing self }
    {
        matches!(self, Answer::Refused(_))
    }

    // The place of the answer.
    pub fn place(self) -> usize
        ensures { result ≡ place_of self }
    {
        match self {
            Answer::Done => 0,
            Answer::Refused(refusal) => refusal.place(),
            Answer::Failed(verdict) => verdict.place(),
        }
    }
}

// What a call says that is done or refuses.
impl<T: Drop> From<Result<T, Refusal>> for Answer {
    ghost from_gives = { λ outcome answer. answer ≡ said outcome };

    fn from(outcome: Result<T, Refusal>) -> Answer {
        match outcome {
            Ok(_) => Answer::Done,
            Err(refusal) => Answer::Refused(refusal),
        }
    }
}
