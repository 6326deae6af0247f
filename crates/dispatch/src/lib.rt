// One step on an image and a list that are accepted, with any memory: a word decoded, the step done, and what is asked of a step and of its answer by those who do many.
#![tactic(auto)]

mod words;

ghost use Rattle.std.specs.Prelude.{◌≡◌};
ghost use Rattle.rules.specs.Outcomes.{state, outcome, kind_of, answered_kind, acknowledges};
ghost use Rattle.rules.specs.Steps.{act_of};
ghost use Rattle.rules.specs.Runs.{is_arbitration, one_if};

use channels::Laid;
use rules::{Answer, AnswerKind, IMAGE_LENGTH, Refusal, Step};
pub use words::decode;

// One step.
#[tactic(auto, unfolding(rules::specs::Steps::act_of))]
pub fn act(
    image: &mut [u8; IMAGE_LENGTH],
    memory: &mut [u8],
    laid: &Laid,
    step: Step,
) -> Result<Answer, Refusal>
    ensures { outcome result (state image.new memory.new) ≡ act_of (state image.old memory.old) laid.now.places.all.now step }
{
    match step {
        Step::Read(register) => registers::read(image, &laid.masks, register),
        Step::Write(register, value) => registers::write(image, &laid.masks, register, value),
        Step::Trigger(event) => arbiter::trigger(image, &laid.places, event),
        Step::Arbitrate => arbiter::arbitrate(image, memory, &laid.places),
        Step::Return => Ok(arbiter::return_from_interrupt(image)),
        Step::Reset => Ok(registers::reset(image)),
        Step::Unknown => Err(Refusal::Kind),
    }
}

// What is asked of an answer, by one look at all of them.
fn kind(a: Answer) -> AnswerKind
    ensures { result ≡ kind_of a }
{
    match a {
        Answer::Triggered(maskable, _) => AnswerKind::Triggered(maskable),
        Answer::Interrupt { source, .. } => AnswerKind::Acknowledged(source),
        _ => AnswerKind::Plain,
    }
}

// The same of what a step answers: a refusal is its own.
#[tactic(auto, unfolding(rules::specs::Outcomes::answered_kind))]
pub fn kind_of(a: Result<Answer, Refusal>) -> Result<AnswerKind, Refusal>
    ensures { result ≡ answered_kind a }
{
    a.map(kind)
}

// Whether a step is an arbitration.
pub fn is_arbitration(step: Step) -> bool
    ensures { result ≡ is_arbitration step }
{
    matches!(step, Step::Arbitrate)
}

// 1 for an arbitration, else 0.
pub fn arbitrations(step: Step) -> usize
    ensures { result ≡ one_if (is_arbitration step) }
{
    usize::from(is_arbitration(step))
}

// Whether an answer acknowledges a source: as an interrupt, not by DMA.
pub fn acknowledged(a: Result<Answer, Refusal>, source: u32) -> bool
    ensures { result ≡ acknowledges source a }
{
    match kind_of(a) {
        Ok(AnswerKind::Acknowledged(k)) => u32::from(k) == source,
        _ => false,
    }
}
