// The model with the channel list by value: the refusals of what is lent, the six steps, a step given as a word, runs, the wait report and the two bounds.
// Any image, any list, any memory and any step gets an answer.
#![tactic(auto)]

ghost use Rattle.std.specs.Prelude.{◌≡◌, leb, ltb, length};
ghost use Rattle.rules.specs.Channels.{list_of};
ghost use Rattle.rules.specs.Image.{most_memory};
ghost use Rattle.rules.specs.Outcomes.{state, alone, accepted, refused_unless};
ghost use Rattle.rules.specs.Sources.{sources};
ghost use Rattle.rules.specs.Promises.{Does, Reads, Writes, Triggers, Arbitrates, Returns, Resets, DoesWord, Runs, Waits, Bounds, HandlerBounds};

use bounds::bound_accepted;
use channels::{Laid, Places};
use dispatch::act;
use handlers::handler_bound_accepted;
use rules::{
    Answer, Bound, Channels, MOST_MEMORY, NoBound, Refusal, Run, RunRefusal, Step, Trigger,
    WaitEnd, WaitRefusal,
};
use runs::{run_accepted, wait_accepted};
use sources::source_count;

// An image of another length is refused with 1.
const OTHER_LENGTH: Refusal = Refusal::Length;

// A memory is refused with 8 where it is over 65,536 bytes.
fn memory_verdict(memory: &[u8]) -> Result<(), Refusal>
    ensures { result ≡ refused_unless (leb (length memory.now) most_memory) Refusal.Memory accepted }
{
    if MOST_MEMORY < memory.len() {
        return Err(Refusal::Memory);
    }
    Ok(())
}

// A source that is not there is refused with 4.
fn source_verdict(places: &Places, source: u32) -> Result<(), Refusal>
    ensures { result ≡ refused_unless (ltb source (sources places.now.all.now)) Refusal.Number accepted }
{
    if (source as usize) < source_count(places) {
        return Ok(());
    }
    Err(Refusal::Number)
}

// One step: refusals 1, 2 and 8, then the step's own.
fn one_step(
    image: &mut [u8],
    all: Channels,
    memory: &mut [u8],
    step: Step,
) -> Result<Answer, Refusal>
    ensures { Does (state image.old memory.old) (list_of all) step result (state image.new memory.new) }
{
    let image = image.as_mut_array().ok_or(OTHER_LENGTH)?;
    let mut laid = Laid::empty();
    laid.lay(&all)?;
    memory_verdict(memory)?;
    act(image, memory, &laid, step)
}

// A step without a memory.
fn step_alone(image: &mut [u8], all: Channels, step: Step) -> Result<Answer, Refusal>
    ensures { Does (alone image.old) (list_of all) step result (alone image.new) }
{
    let mut none: [u8; 0] = [];
    one_step(image, all, &mut none, step)
}

// Reads a register.
pub fn read(image: &[u8], all: Channels, register: u32) -> Result<Answer, Refusal>
    ensures { Reads image.now (list_of all) register result }
{
    let image = image.as_array().ok_or(OTHER_LENGTH)?;
    let mut laid = Laid::empty();
    laid.lay(&all)?;
    registers::read(image, &laid.masks, register)
}

// Writes a register.
pub fn write(image: &mut [u8], all: Channels, register: u32, value: u8) -> Result<Answer, Refusal>
    ensures { Writes image.old (list_of all) register value result image.new }
{
    step_alone(image, all, Step::Write(register, value))
}

// A trigger.
pub fn trigger(image: &mut [u8], all: Channels, event: Trigger) -> Result<Answer, Refusal>
    ensures { Triggers image.old (list_of all) event result image.new }
{
    step_alone(image, all, Step::Trigger(event))
}

// An arbitration.
pub fn arbitrate(image: &mut [u8], all: Channels, memory: &mut [u8]) -> Result<Answer, Refusal>
    ensures { Arbitrates (state image.old memory.old) (list_of all) result (state image.new memory.new) }
{
    one_step(image, all, memory, Step::Arbitrate)
}

// The return.
pub fn return_from_interrupt(image: &mut [u8], all: Channels) -> Result<Answer, Refusal>
    ensures { Returns image.old (list_of all) result image.new }
{
    step_alone(image, all, Step::Return)
}

// A reset.
pub fn reset(image: &mut [u8], all: Channels) -> Result<Answer, Refusal>
    ensures { Resets image.old (list_of all) result image.new }
{
    step_alone(image, all, Step::Reset)
}

// The step that a word stands for: a run of it alone, so that the archive has the steps' code once, in the loop of runs.
pub fn perform(
    image: &mut [u8],
    all: Channels,
    memory: &mut [u8],
    word: u64,
) -> Result<Answer, Refusal>
    ensures { DoesWord (state image.old memory.old) (list_of all) word result (state image.new memory.new) }
{
    let image = image.as_mut_array().ok_or(OTHER_LENGTH)?;
    let mut laid = Laid::empty();
    laid.lay(&all)?;
    memory_verdict(memory)?;
    runs::perform(image, memory, &laid, word)
}

// A run: what is lent is checked once, then the steps are done one after another up to the first refused.
pub fn run(
    image: &mut [u8],
    all: Channels,
    memory: &mut [u8],
    words: &[u64],
) -> Result<Run, RunRefusal>
    ensures { Runs (state image.old memory.old) (list_of all) words.now result (state image.new memory.new) }
{
    let image = image.as_mut_array().ok_or(OTHER_LENGTH)?;
    let mut laid = Laid::empty();
    laid.lay(&all)?;
    memory_verdict(memory)?;
    run_accepted(image, memory, &laid, words)
}

// The wait report: a run up to the acknowledgement of a source, with its arbitrations counted.
pub fn wait(
    image: &mut [u8],
    all: Channels,
    memory: &mut [u8],
    source: u32,
    words: &[u64],
) -> Result<WaitEnd, WaitRefusal>
    ensures { Waits (state image.old memory.old) (list_of all) source words.now result (state image.new memory.new) }
{
    let image = image.as_mut_array().ok_or(OTHER_LENGTH)?;
    let mut laid = Laid::empty();
    laid.lay(&all)?;
    memory_verdict(memory)?;
    source_verdict(&laid.places, source)?;
    wait_accepted(image, memory, &laid, source, words)
}

// Demand 3's bound for a source over a list of steps: H, E and H + E + 1 where the premises hold, else the first that fails. The image and the steps are only read.
pub fn bound(image: &[u8], all: Channels, source: u32, words: &[u64]) -> Result<Bound, NoBound>
    ensures { Bounds image.now (list_of all) source words.now result }
{
    let image = image.as_array().ok_or(OTHER_LENGTH)?;
    let mut laid = Laid::empty();
    laid.lay(&all)?;
    source_verdict(&laid.places, source)?;
    bound_accepted(image, &laid, source, words)
}

// The bound over lists with reads and writes, likewise; of a write that changed what the bound rests on, what it changed.
pub fn handler_bound(
    image: &[u8],
    all: Channels,
    source: u32,
    words: &[u64],
) -> Result<Bound, NoBound>
    ensures { HandlerBounds image.now (list_of all) source words.now result }
{
    let image = image.as_array().ok_or(OTHER_LENGTH)?;
    let mut laid = Laid::empty();
    laid.lay(&all)?;
    source_verdict(&laid.places, source)?;
    handler_bound_accepted(image, &laid, source, words)
}
