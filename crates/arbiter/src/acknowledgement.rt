// What an interrupt that has won gets.
ghost use Rattle.std.specs.Prelude.{◌≡◌, ◌<◌};
ghost use Rattle.rules.specs.Sources.{sources};
ghost use Rattle.rules.specs.Arbitration.{vector_of, cleared};
ghost use Rattle.arbiter.specs.Raised.{Acknowledges};

use crate::nesting::nest;
use channels::Places;
use fields::put_at;
use rules::{Answer, CICR, EIPR, EIVR, EXTERNALS, IEN, IMAGE_LENGTH, IP};

// EIVR's upper half plus 2k, or IVR with bit 0 cleared.
#[tactic(auto, unfolding(rules::specs::Arbitration::vector_of, rules::specs::Sources::sources))]
fn vector_of(image: &[u8; IMAGE_LENGTH], places: &Places, source: u8) -> u8
    requires { source < sources places.now.all.now }
    ensures { result ≡ vector_of image.now places.now.all.now source }
{
    let s = usize::from(source);
    if s < EXTERNALS {
        return image[EIVR] / 16 * 16 + 2 * source;
    }
    let record = places.record(s - EXTERNALS);
    image[usize::from(record.ivr)] / 2 * 2
}

// Clears the source's EIPR or IP bit.
#[tactic(auto, unfolding(rules::specs::Arbitration::cleared, rules::specs::Sources::pending_bit, rules::specs::Sources::sources))]
fn clear_pending(image: &mut [u8; IMAGE_LENGTH], places: &Places, source: u8)
    requires { source < sources places.now.all.now }
    ensures { image.new ≡ cleared image.old places.now.all.now source }
{
    let s = usize::from(source);
    if s < EXTERNALS {
        put_at(image, EIPR, source, false);
        return;
    }
    put_at(image, places.idcr(s - EXTERNALS), IP, false);
}

// An acknowledgement: in nested mode the levels first; then the source's bit and IEN are cleared.
#[tactic(auto, unfolding(rules::specs::Arbitration::granted, rules::specs::Arbitration::acknowledged))]
pub(crate) fn acknowledge(
    image: &mut [u8; IMAGE_LENGTH],
    places: &Places,
    source: u8,
    level: u8,
) -> Answer
    requires { (source < sources places.now.all.now) × (level < 8) }
    ensures { Acknowledges image.old places.now.all.now source level result image.new }
{
    let vector = vector_of(image, places, source);
    nest(image, level);
    clear_pending(image, places, source);
    put_at(image, CICR, IEN, false);
    Answer::Interrupt {
        source,
        level,
        vector,
    }
}
