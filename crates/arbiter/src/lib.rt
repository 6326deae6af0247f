// Triggers, arbitration and the return.
#![tactic(auto)]

mod acknowledgement;
mod nesting;
mod triggers;

ghost use Rattle.std.specs.Prelude.{◌≡◌};
ghost use Rattle.rules.specs.Image.{in_service};
ghost use Rattle.rules.specs.Outcomes.{state, outcome};
ghost use Rattle.rules.specs.Triggers.{trigger_of};
ghost use Rattle.rules.specs.Arbitration.{top_level, entered_top, arbitrate_of};
ghost use Rattle.rules.specs.Return.{return_of};

use acknowledgement::acknowledge;
use bits::has_bit;
use channels::Places;
use fields::put_at;
use nesting::unnest;
use requests::winner_of;
use rules::{
    Answer, CICR, IEN, IMAGE_LENGTH, MARK, NICR, Refusal, TLI, TLIP, TLNM, Trigger, Winner,
};
use transfers::transfer;
use triggers::{channel_request, nmi_edge, pin_edge, watchdog};

// A trigger: refused with 4 or 7, or answered for the maskable bit and for TLIP.
#[tactic(auto, unfolding(rules::specs::Triggers::trigger_of, rules::specs::Triggers::fired, rules::specs::Triggers::trigger_verdict))]
pub fn trigger(
    image: &mut [u8; IMAGE_LENGTH],
    places: &Places,
    event: Trigger,
) -> Result<Answer, Refusal>
    ensures { outcome result image.new ≡ trigger_of image.old places.now.all.now event }
{
    match event {
        Trigger::Pin { pin, direction } => pin_edge(image, pin, direction),
        Trigger::Watchdog => Ok(watchdog(image)),
        Trigger::Nmi { direction } => nmi_edge(image, direction),
        Trigger::Request { record } => channel_request(image, places, record),
        Trigger::Unknown => Err(Refusal::Kind),
    }
}

// Whether the top level is in service: any mark but 0.
pub fn in_service(image: &[u8; IMAGE_LENGTH]) -> bool
    ensures { result ≡ in_service image.now }
{
    image[MARK] != 0
}

// Whether the top level is served: TLIP set and (TLNM, or TLI and IEN).
#[tactic(auto, unfolding(rules::specs::Arbitration::top_level))]
fn top_level(image: &[u8; IMAGE_LENGTH]) -> bool
    ensures { result ≡ top_level image.now }
{
    let cicr = image[CICR];
    if !has_bit(cicr, TLIP) {
        return false;
    }
    has_bit(image[NICR], TLNM) | (has_bit(cicr, TLI) & has_bit(cicr, IEN))
}

// Clears TLIP and sets the mark; IEN, CPL and NICR stay.
#[tactic(auto, unfolding(rules::specs::Arbitration::entered_top))]
fn enter_top(image: &mut [u8; IMAGE_LENGTH])
    ensures { image.new ≡ entered_top image.old }
{
    put_at(image, CICR, TLIP, false);
    image[MARK] = 1;
}

// An arbitration: nothing while the mark is set; the top level; then what the winner gets.
#[tactic(auto, unfolding(rules::specs::Arbitration::arbitrate_of, rules::specs::Arbitration::granted))]
pub fn arbitrate(
    image: &mut [u8; IMAGE_LENGTH],
    memory: &mut [u8],
    places: &Places,
) -> Result<Answer, Refusal>
    ensures { outcome result (state image.new memory.new) ≡ arbitrate_of (state image.old memory.old) places.now.all.now }
{
    if in_service(image) {
        return Ok(Answer::Nothing);
    }
    if top_level(image) {
        enter_top(image);
        return Ok(Answer::TopLevel);
    }
    match winner_of(image, places) {
        None => Ok(Answer::Nothing),
        Some(Winner::Dma { source }) => transfer(image, memory, places, source),
        Some(Winner::Interrupt { source, level }) => {
            Ok(acknowledge(image, places, source, level))
        }
    }
}

// The return: clears the mark where it is set; else sets IEN and, in nested mode, restores the level.
#[tactic(auto, unfolding(rules::specs::Return::return_of, rules::specs::Return::returned))]
pub fn return_from_interrupt(image: &mut [u8; IMAGE_LENGTH]) -> Answer
    ensures { outcome (Ok result) image.new ≡ return_of image.old }
{
    if in_service(image) {
        image[MARK] = 0;
        return Answer::Returned;
    }
    unnest(image);
    put_at(image, CICR, IEN, true);
    Answer::Returned
}
