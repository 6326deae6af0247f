// Answers as numbers, for C and for comparing: a kind for each case, document 01's number of a refusal, and the values of the case.
#![tactic(auto)]

ghost use Rattle.std.specs.Prelude.{◌≡◌};
ghost use Rattle.rules.specs.declared.Flat.{Flat};
ghost use Rattle.rules.specs.Encodings.{told_verdict, flat, tell, tell_refused, told_answer, told, told_run, told_wait, told_bound};

use rules::{Answer, Bound, Flat, NoBound, Refusal, Run, RunRefusal, WaitEnd, WaitRefusal};

// What numbers tell: for each impl below, those of specs/Encodings.
pub trait Tell {
    ghost numbers: { Self → Flat };

    fn tell(self) -> Flat
        ensures { result ≡ numbers self };
}

// Kind 0, as an empty run has it for its last answer.
const NOTHING: Flat = Flat {
    kind: 0,
    refusal: 0,
    steps: 0,
    first: 0,
    second: 0,
    third: 0,
};

// A kind with its values.
fn values(kind: u64, first: u64, second: u64, third: u64) -> Flat
    ensures { result ≡ tell kind first second third }
{
    Flat {
        kind,
        first,
        second,
        third,
        ..NOTHING
    }
}

// A kind that names a step by its index.
fn at_step(kind: u64, index: usize) -> Flat
    ensures { result ≡ flat kind 0 index 0 0 0 }
{
    Flat {
        kind,
        steps: index as u64,
        ..NOTHING
    }
}

// A refusal.
fn refused(kind: u64, r: Refusal) -> Flat
    ensures { result ≡ tell_refused kind r }
{
    Flat {
        kind,
        refusal: r as u64,
        ..NOTHING
    }
}

// The number of what is refused, 0 where it is accepted.
pub fn verdict_number(v: Result<(), Refusal>) -> u64
    ensures { result ≡ told_verdict v }
{
    match v {
        Ok(()) => 0,
        Err(r) => r as u64,
    }
}

impl Tell for Answer {
    ghost numbers = { told_answer };

    fn tell(self) -> Flat {
        match self {
            Answer::Byte(b) => values(1, b as u64, 0, 0),
            Answer::Written(l) => values(2, l.eipr as u64, 0, 0),
            Answer::Triggered(maskable, top) => values(3, maskable as u64, top as u64, 0),
            Answer::Nothing => values(4, 0, 0, 0),
            Answer::TopLevel => values(5, 0, 0, 0x04),
            Answer::Interrupt {
                source,
                level,
                vector,
            } => values(6, source as u64, level as u64, vector as u64),
            Answer::Transferred { source, ended } => values(7, source as u64, ended as u64, 0),
            Answer::Returned => values(8, 0, 0, 0),
            Answer::Reset => values(9, 0, 0, 0),
        }
    }
}

// Of a step.
impl Tell for Result<Answer, Refusal> {
    ghost numbers = { told };

    fn tell(self) -> Flat {
        match self {
            Ok(answer) => answer.tell(),
            Err(r) => refused(10, r),
        }
    }
}

// Of a run: the last answer with the steps done.
impl Tell for Result<Run, RunRefusal> {
    ghost numbers = { told_run };

    fn tell(self) -> Flat {
        match self {
            Ok(done) => Flat {
                steps: done.steps as u64,
                ..done.last.map_or(NOTHING, Answer::tell)
            },
            Err(RunRefusal::Before(r)) => refused(11, r),
            Err(RunRefusal::At { refusal, index }) => Flat {
                steps: index as u64,
                ..refused(12, refusal)
            },
        }
    }
}

// Of a wait report.
impl Tell for Result<WaitEnd, WaitRefusal> {
    ghost numbers = { told_wait };

    fn tell(self) -> Flat {
        match self {
            Ok(WaitEnd::Ended { arbitrations }) => values(13, arbitrations as u64, 0, 0),
            Ok(WaitEnd::Acknowledged { arbitrations }) => values(14, arbitrations as u64, 0, 0),
            Err(WaitRefusal::Before(r)) => refused(11, r),
            Err(
                WaitRefusal::At {
                    refusal,
                    index,
                    arbitrations,
                },
            ) => Flat {
                steps: index as u64,
                first: arbitrations as u64,
                ..refused(12, refusal)
            },
        }
    }
}

// Of a bound.
impl Tell for Result<Bound, NoBound> {
    ghost numbers = { told_bound };

    fn tell(self) -> Flat {
        match self {
            Ok(b) => values(24, b.outranking as u64, b.triggers as u64, b.bound as u64),
            Err(NoBound::Refused(r)) => refused(11, r),
            Err(NoBound::Nested) => values(15, 0, 0, 0),
            Err(NoBound::DmaEnabled) => values(16, 0, 0, 0),
            Err(NoBound::TopLevelEnabled) => values(17, 0, 0, 0),
            Err(NoBound::TopLevelInService) => values(18, 0, 0, 0),
            Err(NoBound::NotPending) => values(19, 0, 0, 0),
            Err(NoBound::Masked) => values(20, 0, 0, 0),
            Err(NoBound::LevelNotAbove) => values(21, 0, 0, 0),
            Err(NoBound::OtherStep { index }) => at_step(22, index),
            Err(NoBound::InterruptsDisabled { index }) => at_step(23, index),
            Err(NoBound::Changed { basis, index }) => Flat {
                first: basis as u64,
                ..at_step(25, index)
            },
        }
    }
}
