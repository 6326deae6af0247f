// The functions for C (include/st9.h): `st9::exports` under their C names, with the same promises.
#![tactic(auto)]

ghost use Rattle.std.specs.Prelude.{◌≡◌};
ghost use Rattle.rules.specs.Outcomes.{state};
ghost use Rattle.rules.specs.Registers.{view_verdict};
ghost use Rattle.rules.specs.Encodings.{told_verdict};
ghost use Rattle.rules.specs.Promises.{TellsStep, TellsRun, TellsWait, TellsBound, TellsHandlerBound};

use rules::Flat;
use st9::exports;

// One step, given as a word.
#[unsafe(no_mangle)]
pub extern "C" fn st9_step(image: &mut [u8], channels: &[u8], memory: &mut [u8], word: u64) -> Flat
    ensures { TellsStep (state image.old memory.old) channels.now word result (state image.new memory.new) }
{
    exports::st9_step(image, channels, memory, word)
}

// A run of steps given as words; and what demand 3 and the handlers' claim say of it.
#[unsafe(no_mangle)]
pub extern "C" fn st9_run(
    image: &mut [u8],
    channels: &[u8],
    memory: &mut [u8],
    words: &[u64],
) -> Flat
    ensures { TellsRun (state image.old memory.old) channels.now words.now result (state image.new memory.new) }
{
    exports::st9_run(image, channels, memory, words)
}

// The wait report for a source over steps given as words; and what demand 3 and the handlers' claim say of it.
#[unsafe(no_mangle)]
pub extern "C" fn st9_wait(
    image: &mut [u8],
    channels: &[u8],
    memory: &mut [u8],
    source: u32,
    words: &[u64],
) -> Flat
    ensures { TellsWait (state image.old memory.old) channels.now source words.now result (state image.new memory.new) }
{
    exports::st9_wait(image, channels, memory, source, words)
}

// Demand 3's bound for a source over steps given as words; and what it says.
#[unsafe(no_mangle)]
pub extern "C" fn st9_bound(image: &[u8], channels: &[u8], source: u32, words: &[u64]) -> Flat
    ensures { TellsBound image.now channels.now source words.now result }
{
    exports::st9_bound(image, channels, source, words)
}

// The same over lists with reads and writes.
#[unsafe(no_mangle)]
pub extern "C" fn st9_handler_bound(
    image: &[u8],
    channels: &[u8],
    source: u32,
    words: &[u64],
) -> Flat
    ensures { TellsHandlerBound image.now channels.now source words.now result }
{
    exports::st9_handler_bound(image, channels, source, words)
}

// The number that the view of a page is refused with, 0 where it is accepted.
#[unsafe(no_mangle)]
pub extern "C" fn st9_view_number(image: &[u8], page: u32) -> u64
    ensures { result ≡ told_verdict (view_verdict image.now page) }
{
    exports::st9_view_number(image, page)
}
