// The public library. Each function takes the image, the channel list and the memory as they are lent, whatever they are, and answers for them: a bad one is refused with
// document 01's number and every byte stays. The same for C, over bytes and in numbers, is in `exports`; crate `st9_c` exports it.
#![tactic(auto)]

pub mod exports;

ghost use Rattle.rules.specs.Outcomes.{state};
ghost use Rattle.rules.specs.Promises.{Reads, Writes, Triggers, Arbitrates, Returns, Resets, DoesWord, RunClaims, WaitClaims, BoundClaims, HandlerBoundClaims, Views, ViewRefuses};

use lent::copied;
use rules::{
    Answer, Bound, Channel, NoBound, Refusal, Run, RunRefusal, Trigger, WaitEnd, WaitRefusal,
};

// Reads a register of the selected page or of the register file.
pub fn read(image: &[u8], cs: &[Channel], register: u32) -> Result<Answer, Refusal>
    ensures { Reads image.now cs.now register result }
{
    let all = copied(cs);
    machine::read(image, all, register)
}

// Writes a register, and answers the pending bits that the write erased.
pub fn write(image: &mut [u8], cs: &[Channel], register: u32, value: u8) -> Result<Answer, Refusal>
    ensures { Writes image.old cs.now register value result image.new }
{
    let all = copied(cs);
    machine::write(image, all, register, value)
}

// A pin edge, the watchdog's end of count, an NMI edge or a channel request.
pub fn trigger(image: &mut [u8], cs: &[Channel], event: Trigger) -> Result<Answer, Refusal>
    ensures { Triggers image.old cs.now event result image.new }
{
    let all = copied(cs);
    machine::trigger(image, all, event)
}

// An arbitration.
pub fn arbitrate(image: &mut [u8], cs: &[Channel], memory: &mut [u8]) -> Result<Answer, Refusal>
    ensures { Arbitrates (state image.old memory.old) cs.now result (state image.new memory.new) }
{
    let all = copied(cs);
    machine::arbitrate(image, all, memory)
}

// The return from an interrupt.
pub fn return_from_interrupt(image: &mut [u8], cs: &[Channel]) -> Result<Answer, Refusal>
    ensures { Returns image.old cs.now result image.new }
{
    let all = copied(cs);
    machine::return_from_interrupt(image, all)
}

// A reset.
pub fn reset(image: &mut [u8], cs: &[Channel]) -> Result<Answer, Refusal>
    ensures { Resets image.old cs.now result image.new }
{
    let all = copied(cs);
    machine::reset(image, all)
}

// The step that a word stands for.
pub fn perform(
    image: &mut [u8],
    cs: &[Channel],
    memory: &mut [u8],
    word: u64,
) -> Result<Answer, Refusal>
    ensures { DoesWord (state image.old memory.old) cs.now word result (state image.new memory.new) }
{
    let all = copied(cs);
    machine::perform(image, all, memory, word)
}

// A run of steps given as words; and what demand 3 and the handlers' claim say of it.
pub fn run(
    image: &mut [u8],
    cs: &[Channel],
    memory: &mut [u8],
    words: &[u64],
) -> Result<Run, RunRefusal>
    ensures { RunClaims (state image.old memory.old) cs.now words.now result (state image.new memory.new) }
{
    let all = copied(cs);
    machine::run(image, all, memory, words)
}

// The wait report for a source over steps given as words; and what demand 3 and the handlers' claim say of it.
pub fn wait(
    image: &mut [u8],
    cs: &[Channel],
    memory: &mut [u8],
    source: u32,
    words: &[u64],
) -> Result<WaitEnd, WaitRefusal>
    ensures { WaitClaims (state image.old memory.old) cs.now source words.now result (state image.new memory.new) }
{
    let all = copied(cs);
    machine::wait(image, all, memory, source, words)
}

// Demand 3's bound for a source over steps given as words: H, E and H + E + 1 where its premises hold, else the first that fails; and that a bound is answered exactly where they hold.
pub fn bound(image: &[u8], cs: &[Channel], source: u32, words: &[u64]) -> Result<Bound, NoBound>
    ensures { BoundClaims image.now cs.now source words.now result }
{
    let all = copied(cs);
    machine::bound(image, all, source, words)
}

// The handlers' claim's: the same over lists with reads and writes, up to the acknowledgement. E counts the pending bits that writes raise too; else the first
// step that breaks a premise, and of a write what it changed. A bound is answered exactly where the premises hold.
pub fn handler_bound(
    image: &[u8],
    cs: &[Channel],
    source: u32,
    words: &[u64],
) -> Result<Bound, NoBound>
    ensures { HandlerBoundClaims image.now cs.now source words.now result }
{
    let all = copied(cs);
    machine::handler_bound(image, all, source, words)
}

// The sixteen bytes of a page, as stored: a part of the image, empty where the view is refused.
pub fn view(image: &[u8], page: u32) -> &[u8]
    ensures { Views image.now page result.now }
{
    registers::view(image, page)
}

// Whether a view is accepted, or the number that it is refused with.
pub fn view_verdict(image: &[u8], page: u32) -> Result<(), Refusal>
    ensures { ViewRefuses image.now page result }
{
    registers::view_verdict(image, page)
}
