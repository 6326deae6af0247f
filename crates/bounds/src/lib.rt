// Demand 3's bound on an image and a list that are accepted, for a source that is there: the premises on the start, then the steps, followed on a
// copy of the image, without a memory.
#![tactic(auto)]

mod targets;

ghost use Rattle.std.specs.Prelude.{◌≡◌, not, ◌&&◌, ◌<◌, ◌≤◌};
ghost use Rattle.rules.specs.Outcomes.{is_refused};
ghost use Rattle.rules.specs.Sources.{sources};
ghost use Rattle.rules.specs.Demand3.{is_call, rival, H};
ghost use Rattle.rules.specs.Bounds.{source_premises, start_premises, bounding};
ghost use Rattle.bounds.specs.Followed.{target_of, target_among, rival_triggered, first_disabled, steps_bound, words_bound, Decides};

use arbiter::in_service;
use bits::has_bit;
use channels::{Laid, Places};
use dispatch::{decode, is_arbitration};
use rules::{Answer, Bound, CICR, IAM, IEN, IMAGE_LENGTH, NICR, NoBound, Refusal, Step, TLI, TLNM};
use runs::perform_alone;
use sources::{any_dma, is_pending, is_rival, is_unmasked, level_of, pending_rivals, source_count};
use targets::{is_call, selected_in, target_of};

// Whether a step was done that is no trigger, arbitration or return; a refused one is none.
fn other_step(step: Step, a: Result<Answer, Refusal>) -> bool
    ensures { result ≡ (not (is_refused a) && not (is_call step)) }
{
    a.is_ok() & !is_call(step)
}

// The index of the first arbitration with interrupts disabled, if any, once step i is looked at too.
fn first_disabled(first: Option<usize>, i: usize, step: Step, enabled: bool) -> Option<usize>
    ensures { result ≡ first_disabled first i step enabled }
{
    if first.is_none() & is_arbitration(step) & !enabled {
        return Some(i);
    }
    first
}

// Whether the source that a step triggers, if any, is an unmasked one outranking ours on this image. A source that was triggered is there; that it is, is
// tested all the same, since `is_rival` asks it and this function does not know whether the step was done.
fn is_rival_target(image: &[u8; IMAGE_LENGTH], places: &Places, ours: usize, step: Step) -> bool
    requires { ours < sources places.now.all.now }
    ensures { result ≡ target_among places.now.all.now (rival image.now places.now.all.now ours) (target_of step) }
{
    let Some(k) = target_of(step) else {
        return false;
    };
    k < source_count(places) && is_rival(image, places, ours, k)
}

// Whether a step, by its answer, was a trigger of an unmasked source outranking ours on this image. Most steps are none, and their answers tell so at once,
// in the caller's loop.
#[inline(always)]
pub fn is_rival_trigger(
    image: &[u8; IMAGE_LENGTH],
    places: &Places,
    ours: usize,
    step: Step,
    a: Result<Answer, Refusal>,
) -> bool
    requires { ours < sources places.now.all.now }
    ensures { result ≡ rival_triggered image.now places.now.all.now ours step a }
{
    selected_in(a) && is_rival_target(image, places, ours, step)
}

// H, E and the bound. A step counts twelve at most in E, and a lent slice of words has fewer than 2^60, so that the sum fits.
pub fn within(image: &[u8; IMAGE_LENGTH], places: &Places, ours: usize, triggers: usize) -> Bound
    requires { (ours < sources places.now.all.now) × (triggers ≤ 0xc000000000000000) }
    ensures { Ok result ≡ bounding (H image.now places.now.all.now ours) triggers }
{
    let outranking = pending_rivals(image, places, ours);
    Bound {
        outranking,
        triggers,
        bound: outranking + triggers + 1,
    }
}

// The premises on the steps, and the bound where they hold.
#[tactic(auto, using(rules::proofs::Counting::byte_one, rules::proofs::Counting::one_le))]
fn followed(
    image: &[u8; IMAGE_LENGTH],
    laid: &Laid,
    ours: usize,
    words: &[u64],
) -> Result<Bound, NoBound>
    requires { ours < sources laid.now.places.all.now }
    ensures { result ≡ steps_bound image.now laid.now.places.all.now ours words.now }
{
    let mut copy = *image;
    let mut disabled = None;
    let mut triggers: usize = 0;
    for (index, &word) in words.iter().enumerate() {
        let step = decode(word);
        let enabled = has_bit(copy[CICR], IEN);
        let a = perform_alone(&mut copy, laid, word);
        if other_step(step, a) {
            return Err(NoBound::OtherStep { index });
        }
        disabled = first_disabled(disabled, index, step, enabled);
        triggers += usize::from(is_rival_trigger(image, &laid.places, ours, step, a));
    }
    if let Some(index) = disabled {
        return Err(NoBound::InterruptsDisabled { index });
    }
    Ok(within(image, &laid.places, ours, triggers))
}

// The premises on the source, or the first of them that fails.
#[tactic(auto, unfolding(rules::specs::Bounds::source_premises))]
fn source_premises(image: &[u8; IMAGE_LENGTH], places: &Places, ours: usize) -> Result<(), NoBound>
    requires { ours < sources places.now.all.now }
    ensures { Decides (source_premises image.now places.now.all.now ours) result }
{
    if !is_pending(image, places, ours) {
        return Err(NoBound::NotPending);
    }
    if !is_unmasked(image, places, ours) {
        return Err(NoBound::Masked);
    }
    if level_of(image, places, ours) < image[CICR] % 8 {
        return Ok(());
    }
    Err(NoBound::LevelNotAbove)
}

// The premises on the start: on the image and the list, then on the source.
#[tactic(auto, unfolding(rules::specs::Bounds::start_premises, rules::specs::Bounds::calm_premises))]
pub fn start_premises(
    image: &[u8; IMAGE_LENGTH],
    places: &Places,
    source: u32,
) -> Result<(), NoBound>
    requires { source < sources places.now.all.now }
    ensures { Decides (start_premises image.now places.now.all.now source) result }
{
    let cicr = image[CICR];
    if has_bit(cicr, IAM) {
        return Err(NoBound::Nested);
    }
    if any_dma(image, places) {
        return Err(NoBound::DmaEnabled);
    }
    if has_bit(image[NICR], TLNM) | has_bit(cicr, TLI) {
        return Err(NoBound::TopLevelEnabled);
    }
    if in_service(image) {
        return Err(NoBound::TopLevelInService);
    }
    source_premises(image, places, source as usize)
}

// The premises on the start, then those on the steps.
pub fn bound_accepted(
    image: &[u8; IMAGE_LENGTH],
    laid: &Laid,
    source: u32,
    words: &[u64],
) -> Result<Bound, NoBound>
    requires { source < sources laid.now.places.all.now }
    ensures { result ≡ words_bound image.now laid.now.places.all.now source words.now }
{
    start_premises(image, &laid.places, source)?;
    followed(image, laid, source as usize, words)
}
