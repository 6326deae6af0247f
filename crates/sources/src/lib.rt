// What a source has, on an image and an accepted list: whether it is pending and unmasked, and its level; which sources outrank it, and how many of
// these wait.
#![tactic(auto)]

ghost use Rattle.std.specs.Prelude.{◌≡◌, ◌<◌, length};
ghost use Rattle.rules.specs.Image.{image_length, at};
ghost use Rattle.rules.specs.Channels.{record_at, idcr_byte};
ghost use Rattle.rules.specs.Sources.{sources, pending, unmasked, dma_enabled, level};
ghost use Rattle.rules.specs.Demand3.{outranks, rival};
ghost use Rattle.rules.specs.Bounds.{any_dma};
ghost use Rattle.sources.specs.Flags.{source_bit, pending_rival, pending_rivals};

use bits::has_bit;
use channels::Places;
use requests::external_level;
use rules::{DM, EIMR, EIPLR, EIPR, EXTERNALS, IM, IMAGE_LENGTH, IP};

// How many sources there are.
#[tactic(auto, unfolding(rules::specs::Sources::sources))]
pub fn source_count(places: &Places) -> usize
    ensures { result ≡ sources places.now.all.now }
{
    EXTERNALS + places.count()
}

// The IDCR of record k.
fn idcr_of(image: &[u8; IMAGE_LENGTH], places: &Places, k: usize) -> u8
    requires { k < length places.now.all.now }
    ensures { result ≡ at image.now (idcr_byte (record_at places.now.all.now k)) }
{
    image[places.idcr(k)]
}

// A bit that each source has: of an external channel bit `source` of a register, of a record bit k of its IDCR.
#[tactic(auto, unfolding(rules::specs::Sources::sources))]
fn source_bit(
    image: &[u8; IMAGE_LENGTH],
    places: &Places,
    source: usize,
    register: usize,
    k: u8,
) -> bool
    requires { (source < sources places.now.all.now) × (register < image_length) × (k < 8) }
    ensures { result ≡ source_bit image.now places.now.all.now source register k }
{
    if source < EXTERNALS {
        return has_bit(image[register], source as u8);
    }
    has_bit(idcr_of(image, places, source - EXTERNALS), k)
}

// Whether a source is pending: its EIPR or IP bit is 1.
#[tactic(auto, unfolding(rules::specs::Sources::pending, rules::specs::Sources::pending_bit))]
pub fn is_pending(image: &[u8; IMAGE_LENGTH], places: &Places, source: usize) -> bool
    requires { source < sources places.now.all.now }
    ensures { result ≡ pending image.now places.now.all.now source }
{
    source_bit(image, places, source, EIPR, IP)
}

// Whether it is unmasked: its EIMR bit, or IM, is 1.
#[tactic(auto, unfolding(rules::specs::Sources::unmasked))]
pub fn is_unmasked(image: &[u8; IMAGE_LENGTH], places: &Places, source: usize) -> bool
    requires { source < sources places.now.all.now }
    ensures { result ≡ unmasked image.now places.now.all.now source }
{
    source_bit(image, places, source, EIMR, IM)
}

// Whether it has DMA enabled: DM is 1; an external channel has none.
#[tactic(auto, unfolding(rules::specs::Sources::sources, rules::specs::Sources::dma_enabled))]
pub fn is_dma_enabled(image: &[u8; IMAGE_LENGTH], places: &Places, source: usize) -> bool
    requires { source < sources places.now.all.now }
    ensures { result ≡ dma_enabled image.now places.now.all.now source }
{
    EXTERNALS <= source && has_bit(idcr_of(image, places, source - EXTERNALS), DM)
}

// Its level, pending or not: an external channel's by EIPLR, a record's PRL.
#[tactic(auto, unfolding(rules::specs::Sources::sources, rules::specs::Sources::level))]
pub fn level_of(image: &[u8; IMAGE_LENGTH], places: &Places, source: usize) -> u8
    requires { source < sources places.now.all.now }
    ensures { result ≡ level image.now places.now.all.now source }
{
    if source < EXTERNALS {
        return external_level(image[EIPLR], source as u8);
    }
    idcr_of(image, places, source - EXTERNALS) % 8
}

// Whether source k outranks ours, pending or not: a smaller level number or, at equal level, a smaller source number.
#[tactic(auto, unfolding(rules::specs::Demand3::outranks))]
fn is_outranking(image: &[u8; IMAGE_LENGTH], places: &Places, ours: usize, k: usize) -> bool
    requires { (ours < sources places.now.all.now) × (k < sources places.now.all.now) }
    ensures { result ≡ outranks image.now places.now.all.now k ours }
{
    let own = level_of(image, places, ours);
    let other = level_of(image, places, k);
    (other < own) | ((other == own) & (k < ours))
}

// Whether source k is an unmasked one outranking ours.
#[tactic(auto, unfolding(rules::specs::Demand3::rival))]
pub fn is_rival(image: &[u8; IMAGE_LENGTH], places: &Places, ours: usize, k: usize) -> bool
    requires { (ours < sources places.now.all.now) × (k < sources places.now.all.now) }
    ensures { result ≡ rival image.now places.now.all.now ours k }
{
    is_unmasked(image, places, k) & is_outranking(image, places, ours, k)
}

// Whether source k is such a one, and pending.
fn is_pending_rival(image: &[u8; IMAGE_LENGTH], places: &Places, ours: usize, k: usize) -> bool
    requires { (ours < sources places.now.all.now) × (k < sources places.now.all.now) }
    ensures { result ≡ pending_rival image.now places.now.all.now ours k }
{
    is_pending(image, places, k) && is_rival(image, places, ours, k)
}

// H of demand 3: how many unmasked sources outranking ours are pending.
pub fn pending_rivals(image: &[u8; IMAGE_LENGTH], places: &Places, ours: usize) -> usize
    requires { ours < sources places.now.all.now }
    ensures { result ≡ pending_rivals image.now places.now.all.now ours }
{
    (0..source_count(places))
        .filter(|&k| is_pending_rival(image, places, ours, k))
        .count()
}

// Whether some record has DMA enabled.
pub fn any_dma(image: &[u8; IMAGE_LENGTH], places: &Places) -> bool
    ensures { result ≡ any_dma image.now places.now.all.now }
{
    (EXTERNALS..source_count(places)).any(|k| is_dma_enabled(image, places, k))
}
