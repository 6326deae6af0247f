// Runs C01 to C13 of document 01 and prints which pass, then how many. An example passes if every answer and every whole image is the paper's.
#![tactic(auto)]

mod compare;
mod images;

ghost use Rattle.std.specs.Prelude.{◌≡◌, [], ◌∷◌, ◌≤◌, IfOk};
ghost use Rattle.rules.specs.Channels.{list_of};
ghost use Rattle.rules.specs.Registers.{losses};
ghost use Rattle.rules.specs.Runs.{one_if};
ghost use Rattle.rules.specs.Examples.{channel, c01, c02, c03, c04, c05, c06, c07, c08, c09, c10, c11, c12, c13};
ghost use Rattle.marked.specs.Passes.{holds, scenarios_hold};

use compare::as_said;
use images::{interrupts, none, one, with, with_transfer, zeros};
use rules::{
    Answer, CICR, Channels, EIPLR, EIPR, EIVR, Effect, IMAGE_LENGTH, Losses, MARK, MODER, Refusal,
    Step, Trigger,
};
use std::io::{self, Write};

// ---- one step each: the answer and the whole image after it are these

fn arbitrates(
    before: [u8; IMAGE_LENGTH],
    all: Channels,
    answer: Result<Answer, Refusal>,
    after: [u8; IMAGE_LENGTH],
) -> bool
    ensures { result ≡ holds (list_of all) before Step.Arbitrate answer after }
{
    let mut image = before;
    let mut none: [u8; 0] = [];
    let a = machine::arbitrate(&mut image, all, &mut none);
    as_said(a, answer, image, after)
}

fn returns(before: [u8; IMAGE_LENGTH], after: [u8; IMAGE_LENGTH]) -> bool
    ensures { result ≡ holds [] before Step.Return (Ok Answer.Returned) after }
{
    let mut image = before;
    let a = machine::return_from_interrupt(&mut image, none());
    as_said(a, Ok(Answer::Returned), image, after)
}

fn resets(before: [u8; IMAGE_LENGTH], after: [u8; IMAGE_LENGTH]) -> bool
    ensures { result ≡ holds [] before Step.Reset (Ok Answer.Reset) after }
{
    let mut image = before;
    let a = machine::reset(&mut image, none());
    as_said(a, Ok(Answer::Reset), image, after)
}

fn triggers(
    before: [u8; IMAGE_LENGTH],
    all: Channels,
    event: Trigger,
    effect: Effect,
    after: [u8; IMAGE_LENGTH],
) -> bool
    ensures { result ≡ holds (list_of all) before (Step.Trigger event) (Ok (Answer.Triggered effect Effect.NotSelected)) after }
{
    let mut image = before;
    let a = machine::trigger(&mut image, all, event);
    let answer = Ok(Answer::Triggered(effect, Effect::NotSelected));
    as_said(a, answer, image, after)
}

fn writes(
    before: [u8; IMAGE_LENGTH],
    register: u32,
    value: u8,
    lost: u8,
    after: [u8; IMAGE_LENGTH],
) -> bool
    ensures { result ≡ holds [] before (Step.Write register value) (Ok (Answer.Written (losses lost))) after }
{
    let mut image = before;
    let a = machine::write(&mut image, none(), register, value);
    as_said(a, Ok(Answer::Written(Losses { eipr: lost })), image, after)
}

// An arbitration with no record that answers an interrupt.
fn acknowledges(
    before: [u8; IMAGE_LENGTH],
    source: u8,
    level: u8,
    vector: u8,
    after: [u8; IMAGE_LENGTH],
) -> bool
    ensures { result ≡ holds [] before Step.Arbitrate (Ok (Answer.Interrupt source level vector)) after }
{
    let answer = Answer::Interrupt {
        source,
        level,
        vector,
    };
    arbitrates(before, none(), Ok(answer), after)
}

// An arbitration with the one record that answers its transfer.
fn serves(before: [u8; IMAGE_LENGTH], ended: bool, after: [u8; IMAGE_LENGTH]) -> bool
    ensures { result ≡ holds (channel ∷ []) before Step.Arbitrate (Ok (Answer.Transferred 8 ended)) after }
{
    let answer = Answer::Transferred { source: 8, ended };
    arbitrates(before, one(), Ok(answer), after)
}

// ---- the examples

fn c01() -> bool
    ensures { result ≡ scenarios_hold c01 }
{
    let m = zeros();
    let n = with(with(m, CICR, 0x87), MODER, 0xE0);
    resets(m, with(with(n, EIPLR, 0xFF), EIVR, 0x06))
}

fn c02() -> bool
    ensures { result ≡ scenarios_hold c02 }
{
    let m = interrupts(0x00, 0x00, 0x00, 0x00, 0x00);
    let n = with(m, EIPR, 0x02);
    let all = none();
    let falling = Trigger::Pin {
        pin: 1,
        direction: 0,
    };
    triggers(m, all, falling, Effect::Raised, n) & triggers(n, all, falling, Effect::Merged, n)
}

fn c03() -> bool
    ensures { result ≡ scenarios_hold c03 }
{
    let m = interrupts(0x97, 0x00, 0x03, 0x03, 0xFC);
    let n = interrupts(0x87, 0x00, 0x02, 0x03, 0xFC);
    acknowledges(m, 0, 0, 0x40, n)
}

// It continues from the image that C03 leaves.
fn c04() -> bool
    ensures { result ≡ scenarios_hold c04 }
{
    let m = interrupts(0x87, 0x00, 0x02, 0x03, 0xFC);
    let n = interrupts(0x97, 0x00, 0x02, 0x03, 0xFC);
    let last = interrupts(0x87, 0x00, 0x00, 0x03, 0xFC);
    returns(m, n) & acknowledges(n, 1, 1, 0x42, last)
}

fn c05() -> bool
    ensures { result ≡ scenarios_hold c05 }
{
    let m = interrupts(0x9C, 0x00, 0x01, 0x01, 0xFC);
    let n = interrupts(0x88, 0x10, 0x00, 0x01, 0xFC);
    let nested = acknowledges(m, 0, 0, 0x40, n);
    let unnested = returns(n, interrupts(0x9C, 0x00, 0x00, 0x01, 0xFC));
    nested & unnested
}

fn c06() -> bool
    ensures { result ≡ scenarios_hold c06 }
{
    let m = interrupts(0x97, 0x00, 0x80, 0xFF, 0xFF);
    let n = interrupts(0x97, 0x00, 0x40, 0xFF, 0xFF);
    let last = interrupts(0x87, 0x00, 0x00, 0xFF, 0xFF);
    arbitrates(m, none(), Ok(Answer::Nothing), m) & acknowledges(n, 6, 6, 0x4C, last)
}

fn c07() -> bool
    ensures { result ≡ scenarios_hold c07 }
{
    let m = interrupts(0x92, 0x00, 0x01, 0x01, 0xFD);
    let n = interrupts(0x93, 0x00, 0x01, 0x01, 0xFD);
    let last = interrupts(0x83, 0x00, 0x00, 0x01, 0xFD);
    arbitrates(m, none(), Ok(Answer::Nothing), m) & acknowledges(n, 0, 2, 0x40, last)
}

fn c08() -> bool
    ensures { result ≡ scenarios_hold c08 }
{
    let m = interrupts(0xC7, 0x80, 0x00, 0x00, 0x00);
    let n = interrupts(0x87, 0x80, 0x00, 0x00, 0x00);
    let in_service = with(n, MARK, 1);
    let all = none();
    arbitrates(m, all, Ok(Answer::TopLevel), in_service)
        & arbitrates(in_service, all, Ok(Answer::Nothing), in_service)
        & returns(in_service, n)
}

fn c09() -> bool
    ensures { result ≡ scenarios_hold c09 }
{
    let m = interrupts(0x87, 0x00, 0x00, 0x00, 0x00);
    let after = with(with_transfer(m, 0x2A, 21, 0), 20, 0x5A);
    serves(with_transfer(m, 0x3A, 20, 1), true, after)
}

fn c10() -> bool
    ensures { result ≡ scenarios_hold c10 }
{
    let m = interrupts(0x87, 0x00, 0x00, 0x00, 0x00);
    let after = with(with_transfer(m, 0x12, 224, 255), 223, 0x5A);
    let requested = with(with_transfer(m, 0x32, 224, 255), 223, 0x5A);
    let all = one();
    let request = Trigger::Request { record: 0 };
    serves(with_transfer(m, 0x32, 223, 0), false, after)
        & triggers(after, all, request, Effect::Raised, requested)
        & arbitrates(requested, all, Err(Refusal::Pointer), requested)
}

fn c11() -> bool
    ensures { result ≡ scenarios_hold c11 }
{
    let m = interrupts(0x97, 0x00, 0x01, 0x01, 0xFD);
    let after = with(with_transfer(m, 0x2A, 21, 0), 20, 0x5A);
    serves(with_transfer(m, 0x3A, 20, 1), true, after)
}

// EIPR is R243 of page 0.
fn c12() -> bool
    ensures { result ≡ scenarios_hold c12 }
{
    let m = interrupts(0x00, 0x00, 0x03, 0x00, 0x00);
    writes(m, 243, 0x01, 0x02, interrupts(0x00, 0x00, 0x01, 0x00, 0x00))
}

// NICR is R247 of page 0.
fn c13() -> bool
    ensures { result ≡ scenarios_hold c13 }
{
    let m = interrupts(0x00, 0x80, 0x00, 0x00, 0x00);
    writes(m, 247, 0x00, 0x00, m)
}

// ---- the marks. An error is the stream's: what was printed stands, and the program ends with it.

fn text(rt: HostRuntime, t: &[u8]) -> io::Result<()> {
    rt.stdout().write_all(t)
}

// Answers 1 for a pass, else 0.
fn mark(rt: HostRuntime, name: &[u8], passed: bool) -> io::Result<u64>
    ensures { IfOk result (λ n. (n ≤ 1) × (n ≡ one_if passed)) }
{
    text(rt, name)?;
    if passed {
        text(rt, b" pass\n")?;
        return Ok(1);
    }
    text(rt, b" fail\n")?;
    Ok(0)
}

// C01 to C06.
fn first_marks(rt: HostRuntime) -> io::Result<u64>
    ensures { IfOk result (λ n. n ≤ 6) }
{
    Ok(
        mark(rt, b"C01", c01())?
            + mark(rt, b"C02", c02())?
            + mark(rt, b"C03", c03())?
            + mark(rt, b"C04", c04())?
            + mark(rt, b"C05", c05())?
            + mark(rt, b"C06", c06())?,
    )
}

// C07 to C13.
fn last_marks(rt: HostRuntime) -> io::Result<u64>
    ensures { IfOk result (λ n. n ≤ 7) }
{
    Ok(
        mark(rt, b"C07", c07())?
            + mark(rt, b"C08", c08())?
            + mark(rt, b"C09", c09())?
            + mark(rt, b"C10", c10())?
            + mark(rt, b"C11", c11())?
            + mark(rt, b"C12", c12())?
            + mark(rt, b"C13", c13())?,
    )
}

fn main(rt: HostRuntime) -> io::Result<()> {
    let first = first_marks(rt)?;
    let last = last_marks(rt)?;
    println!(rt; "{}/13", first + last)
}
