// What is turned away, and where (document 01, 'What is turned away'): each case is a row of its table.
ghost use Rattle.std.specs.Prelude.{◌≡◌};
ghost use Rattle.job.specs.Faults.{number_of, refusal_at, refusal_of};

use std::fmt;

#[derive(Clone, Copy, PartialEq, Eq, Debug)]
pub enum Fault {
    // The text and its lines.
    TextSize = 1,
    LineLong = 2,
    LineByte = 3,
    LineOpen = 4,
    FirstLine = 5,
    NoLemmas = 6,
    ManySteps = 7,
    // The fields of a step line, from left to right.
    NameLong = 10,
    NameIll = 11,
    NameUsed = 12,
    NoSpace = 13,
    TextAfter = 14,
    NoGoto = 16,
    ToIll = 17,
    NoEquals = 18,
    // If step ends badly: no line does, since M takes all that follows it.
    IfEnd = 19,
    VariableLong = 20,
    VariableIll = 21,
    Value = 22,
    NoElse = 23,
    OtherIll = 24,
    // L and M.
    LabelUnknown = 30,
    LabelOther = 32,
    // A lemma.
    ManyLemmas = 41,
    LemmaEmpty = 42,
    NameUnknown = 43,
    ManyNames = 44,
    // What a call is handed.
    TableUnfit = 45,
    ClauseNumber = 50,
    BufferShort = 51,
    TooLarge = 52,
    BothCritical = 55,
    // A reply.
    ReplyLong = 60,
    ReplyForm = 61,
    NumberPast = 62,
    NumberTwice = 63,
    NumberMissing = 64,
    ClauseFalse = 65,
    Unsatisfiable = 66,
    // Values that do not read off, and groups that are no run.
    NoReading = 67,
    NoRun = 69,
    // Where the processes start.
    NoStepOfB = 98,
    NoStepOfA = 99,
}

// A fault and its place.
#[derive(Clone, Copy, PartialEq, Eq, Debug)]
pub struct Refusal {
    pub fault: Fault,
    pub place: usize,
}

impl Fault {
    // 01's number.
    pub fn number(self) -> u8
        ensures { result ≡ number_of self }
    {
        self as u8
    }

    pub fn at(self, place: usize) -> Refusal
        ensures { result ≡ refusal_at self place }
    {
        Refusal { fault: self, place }
    }
}

// 'The place is 0 unless given.'
impl From<Fault> for Refusal {
    ghost from_gives = { λ fault refusal. refusal ≡ refusal_of fault };

    fn from(fault: Fault) -> Refusal {
        fault.at(0)
    }
}

// What the programs say of a refusal.
impl fmt::Display for Refusal {
    ghost use Rattle.std.specs.Prelude.{Some};
    ghost use Rattle.job.specs.Faults.{refusal_text};

    ghost output = { λ refusal. Some (refusal_text refusal) };

    fn fmt<W: fmt::Write>(&self, f: &mut fmt::Formatter<W>) -> fmt::Result {
        write!(f, "refused {} at {}", self.fault.number(), self.place)
    }
}
