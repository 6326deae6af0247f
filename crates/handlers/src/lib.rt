// The bound over lists with reads and writes, on an image and a list that are accepted, for a source that is there: the premises on the start, as
// demand 3 has them, then the steps until ours is acknowledged, followed on a copy of the image, without a memory.
#![tactic(auto)]

mod changes;

ghost use Rattle.std.specs.Prelude.{◌≡◌, true, ◌<◌};
ghost use Rattle.rules.specs.Sources.{sources};
ghost use Rattle.rules.specs.Handlers.{is_write};
ghost use Rattle.rules.specs.Encodings.{decode_of};
ghost use Rattle.handlers.specs.Handled.{may_stand, file_write, broken_call, steps_bound, words_bound, Follows};

use bits::has_bit;
use bounds::{is_rival_trigger, start_premises, within};
use changes::{first_changed, raised_rivals};
use channels::Laid;
use dispatch::{acknowledged, decode, is_arbitration};
use rules::{Answer, Bound, CICR, IEN, IMAGE_LENGTH, NoBound, Refusal, Step};
use runs::perform_alone;

// What a step that was followed answered, whether the premises hold of it, and how many unmasked sources outranking ours it triggered or made pending
// by a write.
#[derive(Clone, Copy)]
pub struct Seen {
    pub answer: Result<Answer, Refusal>,
    pub broken: Result<(), NoBound>,
    pub more: usize,
}

// A step that is followed, as its word and its index in the list; and our source.
#[derive(Clone, Copy)]
struct StepAt {
    ours: usize,
    word: u64,
    index: usize,
}

// Whether a step of this kind may stand in the list, a write where it leaves what the bound rests on: a reset may not.
fn may_stand(step: Step) -> bool
    ensures { result ≡ may_stand step }
{
    !matches!(step, Step::Reset | Step::Unknown)
}

// Whether a step is a write.
fn is_write(step: Step) -> bool
    ensures { result ≡ is_write step }
{
    matches!(step, Step::Write(..))
}

// Whether a step is a write of R0 to R239 but CICR: nothing that the bound rests on stands there, so nothing is compared.
fn is_file_write(step: Step) -> bool
    ensures { result ≡ file_write step }
{
    match step {
        Step::Write(register, _) => (register < 240) & ((register as usize) != CICR),
        _ => false,
    }
}

// What a step that is no write breaks, by its answer and whether it is an arbitration with interrupts disabled.
fn broken_call(
    step: Step,
    a: Result<Answer, Refusal>,
    disabled: bool,
    index: usize,
) -> Result<(), NoBound>
    ensures { result ≡ broken_call step a disabled index }
{
    if disabled {
        return Err(NoBound::InterruptsDisabled { index });
    }
    if a.is_ok() & !may_stand(step) {
        return Err(NoBound::OtherStep { index });
    }
    Ok(())
}

// A write: done on the copy, and held against what was there before.
fn follow_write(
    start: &[u8; IMAGE_LENGTH],
    copy: &mut [u8; IMAGE_LENGTH],
    laid: &Laid,
    at: StepAt,
) -> Seen
    requires { (at.ours < sources laid.now.places.all.now) × (is_write (decode_of at.word) ≡ true) }
    ensures { Follows start.now copy.old laid.now.places.all.now at.ours (decode_of at.word) at.index result copy.new }
{
    let before = *copy;
    let answer = perform_alone(copy, laid, at.word);
    if answer.is_err() {
        return Seen {
            answer,
            broken: Ok(()),
            more: 0,
        };
    }
    Seen {
        answer,
        broken: first_changed(&before, copy, &laid.places, at.ours, at.index),
        more: raised_rivals(start, &before, copy, &laid.places, at.ours),
    }
}

// A step: done on the copy, with what it breaks and triggers.
fn follow(
    start: &[u8; IMAGE_LENGTH],
    copy: &mut [u8; IMAGE_LENGTH],
    laid: &Laid,
    at: StepAt,
) -> Seen
    requires { at.ours < sources laid.now.places.all.now }
    ensures { Follows start.now copy.old laid.now.places.all.now at.ours (decode_of at.word) at.index result copy.new }
{
    let step = decode(at.word);
    if is_file_write(step) {
        let answer = perform_alone(copy, laid, at.word);
        return Seen {
            answer,
            broken: Ok(()),
            more: 0,
        };
    }
    if is_write(step) {
        return follow_write(start, copy, laid, at);
    }
    let disabled = is_arbitration(step) & !has_bit(copy[CICR], IEN);
    let answer = perform_alone(copy, laid, at.word);
    let broken = broken_call(step, answer, disabled, at.index);
    let more = usize::from(is_rival_trigger(start, &laid.places, at.ours, step, answer));
    Seen {
        answer,
        broken,
        more,
    }
}

// The premises on the steps until ours is acknowledged, and the bound where they hold.
#[tactic(auto, using(crate::proofs::FollowLaws::follows_few))]
fn followed(
    image: &[u8; IMAGE_LENGTH],
    laid: &Laid,
    source: u32,
    words: &[u64],
) -> Result<Bound, NoBound>
    requires { source < sources laid.now.places.all.now }
    ensures { result ≡ steps_bound image.now laid.now.places.all.now source words.now }
{
    let ours = source as usize;
    let mut copy = *image;
    let mut triggers: usize = 0;
    for (index, &word) in words.iter().enumerate() {
        let at = StepAt { ours, word, index };
        let seen = follow(image, &mut copy, laid, at);
        seen.broken?;
        triggers += seen.more;
        if acknowledged(seen.answer, source) {
            return Ok(within(image, &laid.places, ours, triggers));
        }
    }
    Ok(within(image, &laid.places, ours, triggers))
}

// The premises on the start, then those on the steps.
pub fn handler_bound_accepted(
    image: &[u8; IMAGE_LENGTH],
    laid: &Laid,
    source: u32,
    words: &[u64],
) -> Result<Bound, NoBound>
    requires { source < sources laid.now.places.all.now }
    ensures { result ≡ words_bound image.now laid.now.places.all.now source words.now }
{
    start_premises(image, &laid.places, source)?;
    followed(image, laid, source, words)
}
