// The functions for C, which crate `st9_c` exports (include/st9.h): the channel list is lent as bytes, seven a record, and the answer is told in numbers.
ghost use Rattle.std.specs.Prelude.{◌≡◌};
ghost use Rattle.rules.specs.Outcomes.{state};
ghost use Rattle.rules.specs.Registers.{view_verdict};
ghost use Rattle.rules.specs.Encodings.{told_verdict};
ghost use Rattle.rules.specs.Promises.{TellsStep, TellsRun, TellsWait, TellsBound, TellsHandlerBound};

use answers::{Tell, verdict_number};
use lent::unpacked;
use rules::Flat;

// One step, given as a word.
pub fn st9_step(image: &mut [u8], channels: &[u8], memory: &mut [u8], word: u64) -> Flat
    ensures { TellsStep (state image.old memory.old) channels.now word result (state image.new memory.new) }
{
    let all = unpacked(channels);
    machine::perform(image, all, memory, word).tell()
}

// A run of steps given as words; and what demand 3 and the handlers' claim say of it.
pub fn st9_run(image: &mut [u8], channels: &[u8], memory: &mut [u8], words: &[u64]) -> Flat
    ensures { TellsRun (state image.old memory.old) channels.now words.now result (state image.new memory.new) }
{
    let all = unpacked(channels);
    machine::run(image, all, memory, words).tell()
}

// The wait report for a source over steps given as words; and what demand 3 and the handlers' claim say of it.
pub fn st9_wait(
    image: &mut [u8],
    channels: &[u8],
    memory: &mut [u8],
    source: u32,
    words: &[u64],
) -> Flat
    ensures { TellsWait (state image.old memory.old) channels.now source words.now result (state image.new memory.new) }
{
    let all = unpacked(channels);
    machine::wait(image, all, memory, source, words).tell()
}

// Demand 3's bound for a source over steps given as words; and what it says.
pub fn st9_bound(image: &[u8], channels: &[u8], source: u32, words: &[u64]) -> Flat
    ensures { TellsBound image.now channels.now source words.now result }
{
    let all = unpacked(channels);
    machine::bound(image, all, source, words).tell()
}

// The same over lists with reads and writes.
pub fn st9_handler_bound(image: &[u8], channels: &[u8], source: u32, words: &[u64]) -> Flat
    ensures { TellsHandlerBound image.now channels.now source words.now result }
{
    let all = unpacked(channels);
    machine::handler_bound(image, all, source, words).tell()
}

// The number that the view of a page is refused with, 0 where it is accepted.
pub fn st9_view_number(image: &[u8], page: u32) -> u64
    ensures { result ≡ told_verdict (view_verdict image.now page) }
{
    verdict_number(registers::view_verdict(image, page))
}
