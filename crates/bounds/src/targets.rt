// What a bound asks of a step and of its answer: whether it is one of demand 3's calls, and which source it triggered.
ghost use Rattle.std.specs.Prelude.{◌≡◌};
ghost use Rattle.rules.specs.Demand3.{is_call};
ghost use Rattle.bounds.specs.Followed.{selected, selected_in, target_by, target_of};

use dispatch::kind_of;
use rules::{Answer, AnswerKind, EXTERNALS, Effect, Refusal, Step, Trigger};

// Whether a step is a trigger, an arbitration or a return.
pub(crate) fn is_call(step: Step) -> bool
    ensures { result ≡ is_call step }
{
    matches!(step, Step::Trigger(_) | Step::Arbitrate | Step::Return)
}

// Raised or merged.
fn is_selected(effect: Effect) -> bool
    ensures { result ≡ selected effect }
{
    matches!(effect, Effect::Raised | Effect::Merged)
}

// Whether an answer is that of a trigger that selected a source's bit, raised or merged.
pub(crate) fn selected_in(a: Result<Answer, Refusal>) -> bool
    ensures { result ≡ selected_in a }
{
    match kind_of(a) {
        Ok(AnswerKind::Triggered(maskable)) => is_selected(maskable),
        _ => false,
    }
}

// The one source that a trigger can select, if any.
fn trigger_target(event: Trigger) -> Option<usize>
    ensures { result ≡ target_by event }
{
    match event {
        Trigger::Pin { pin: k, .. } => Some(k as usize),
        Trigger::Watchdog => Some(0),
        Trigger::Nmi { .. } => None,
        Trigger::Request { record: k } => Some(EXTERNALS + (k as usize)),
        Trigger::Unknown => None,
    }
}

// The one source that a step can trigger, if any.
pub(crate) fn target_of(step: Step) -> Option<usize>
    ensures { result ≡ target_of step }
{
    match step {
        Step::Trigger(event) => trigger_target(event),
        _ => None,
    }
}
