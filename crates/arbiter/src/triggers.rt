// What each kind of trigger selects, sets and answers.
#![tactic(auto, unfolding(rules::specs::Triggers::trigger_of, rules::specs::Triggers::trigger_verdict, rules::specs::Triggers::fired, rules::specs::Triggers::selects, rules::specs::Triggers::selects_top, rules::specs::Triggers::source_effect, rules::specs::Triggers::raise_source, rules::specs::Triggers::top_effect, rules::specs::Triggers::raise_top, rules::specs::Sources::pending, rules::specs::Sources::pending_bit), using(crate::proofs::RaisingLaws::top_stays))]

ghost use Rattle.std.specs.Prelude.{◌≡◌, ◌<◌};
ghost use Rattle.rules.specs.Image.{image_length, bit_of};
ghost use Rattle.rules.specs.Triggers.{edge};
ghost use Rattle.arbiter.specs.Raised.{Raises, Fires, FiresIn};

use bits::has_bit;
use channels::Places;
use fields::put_at;
use rules::{
    Answer, CICR, EIPR, EITR, EIVR, Effect, IAOS, IMAGE_LENGTH, IP, Refusal, TLIP, TLIS, TLTEV,
    Trigger,
};

// Sets bit k of a byte where it is selected, and answers what that did.
fn raise(image: &mut [u8; IMAGE_LENGTH], at: usize, k: u8, selected: bool) -> Effect
    requires { (at < image_length) × (k < 8) }
    ensures { Raises image.old (bit_of at k) selected result image.new }
{
    if !selected {
        return Effect::NotSelected;
    }
    let already = has_bit(image[at], k);
    put_at(image, at, k, true);
    if already {
        return Effect::Merged;
    }
    Effect::Raised
}

// Whether a direction (0 falling, 1 rising) is the one that a bit selects (1 rising).
fn edge_matches(direction: u8, rising: bool) -> bool
    ensures { result ≡ edge direction rising }
{
    if rising {
        return direction == 1;
    }
    direction == 0
}

// A pin edge. Pin 0 counts only with IAOS = 1.
pub(crate) fn pin_edge(
    image: &mut [u8; IMAGE_LENGTH],
    pin: u32,
    direction: u8,
) -> Result<Answer, Refusal>
    ensures { Fires image.old (Trigger.Pin pin direction) result image.new }
{
    if (7 < pin) | (1 < direction) {
        return Err(Refusal::Number);
    }
    let k = pin as u8;
    let matches = edge_matches(direction, has_bit(image[EITR], k));
    let selected = matches & ((k != 0) | has_bit(image[EIVR], IAOS));
    let effect = raise(image, EIPR, k, selected);
    Ok(Answer::Triggered(effect, Effect::NotSelected))
}

// The watchdog's end of count: EIPR bit 0 with IAOS = 0, and TLIP with TLIS = 0.
pub(crate) fn watchdog(image: &mut [u8; IMAGE_LENGTH]) -> Answer
    ensures { Fires image.old Trigger.Watchdog (Ok result) image.new }
{
    let eivr = image[EIVR];
    let maskable = raise(image, EIPR, 0, !has_bit(eivr, IAOS));
    let top = raise(image, CICR, TLIP, !has_bit(eivr, TLIS));
    Answer::Triggered(maskable, top)
}

// An NMI edge: TLIP with TLIS = 1, where the direction matches TLTEV.
pub(crate) fn nmi_edge(image: &mut [u8; IMAGE_LENGTH], direction: u8) -> Result<Answer, Refusal>
    ensures { Fires image.old (Trigger.Nmi direction) result image.new }
{
    if 1 < direction {
        return Err(Refusal::Number);
    }
    let eivr = image[EIVR];
    let selected = has_bit(eivr, TLIS) & edge_matches(direction, has_bit(eivr, TLTEV));
    let effect = raise(image, CICR, TLIP, selected);
    Ok(Answer::Triggered(Effect::NotSelected, effect))
}

// A channel request: IP of the record.
pub(crate) fn channel_request(
    image: &mut [u8; IMAGE_LENGTH],
    places: &Places,
    number: u32,
) -> Result<Answer, Refusal>
    ensures { FiresIn image.old places.now.all.now (Trigger.Request number) result image.new }
{
    let k = number as usize;
    if places.count() <= k {
        return Err(Refusal::Number);
    }
    let effect = raise(image, places.idcr(k), IP, true);
    Ok(Answer::Triggered(effect, Effect::NotSelected))
}
