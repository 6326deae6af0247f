// What a write changed of what the bound rests on, by the image before it and after it; and how many unmasked sources outranking ours it made
// pending.
ghost use Rattle.std.specs.Prelude.{◌≡◌, ◌<◌};
ghost use Rattle.std.specs.List.{find};
ghost use Rattle.rules.specs.Sources.{sources};
ghost use Rattle.rules.specs.HandlerBounds.{changes, bases};
ghost use Rattle.handlers.specs.Handled.{source_changes, any_source_changes, broken_write, raises_rival, raised_rivals};

use bits::has_bit;
use channels::Places;
use rules::{Basis, CICR, IAM, IMAGE_LENGTH, NICR, NoBound, TLI, TLNM};
use sources::{is_dma_enabled, is_pending, is_rival, is_unmasked, level_of, source_count};

// What the bound rests on, in the order in which a change is answered.
const BASES: [Basis; 7] = [
    Basis::Pending,
    Basis::Mode,
    Basis::CurrentLevel,
    Basis::TopLevel,
    Basis::Mask,
    Basis::DmaEnable,
    Basis::Level,
];

// Whether source k has another mask, DMA enable or level.
fn source_changed(
    before: &[u8; IMAGE_LENGTH],
    after: &[u8; IMAGE_LENGTH],
    places: &Places,
    basis: Basis,
    k: usize,
) -> bool
    requires { k < sources places.now.all.now }
    ensures { result ≡ source_changes places.now.all.now before.now after.now basis k }
{
    match basis {
        Basis::Mask => is_unmasked(after, places, k) != is_unmasked(before, places, k),
        Basis::DmaEnable => {
            is_dma_enabled(after, places, k) != is_dma_enabled(before, places, k)
        }
        Basis::Level => level_of(after, places, k) != level_of(before, places, k),
        _ => false,
    }
}

// Whether some source has.
fn any_changed(
    before: &[u8; IMAGE_LENGTH],
    after: &[u8; IMAGE_LENGTH],
    places: &Places,
    basis: Basis,
) -> bool
    ensures { result ≡ any_source_changes places.now.all.now before.now after.now basis }
{
    (0..source_count(places)).any(|k| source_changed(before, after, places, basis, k))
}

// Whether the write changed one thing that the bound rests on.
#[tactic(auto, unfolding(rules::specs::HandlerBounds::changes))]
fn changed(
    before: &[u8; IMAGE_LENGTH],
    after: &[u8; IMAGE_LENGTH],
    places: &Places,
    ours: usize,
    basis: Basis,
) -> bool
    requires { ours < sources places.now.all.now }
    ensures { result ≡ changes places.now.all.now ours before.now after.now basis }
{
    match basis {
        Basis::Pending => is_pending(before, places, ours) & !is_pending(after, places, ours),
        Basis::Mode => has_bit(after[CICR], IAM) != has_bit(before[CICR], IAM),
        Basis::CurrentLevel => after[CICR] % 8 != before[CICR] % 8,
        Basis::TopLevel => {
            (has_bit(after[CICR], TLI) != has_bit(before[CICR], TLI))
                | (has_bit(after[NICR], TLNM) != has_bit(before[NICR], TLNM))
        }
        Basis::Mask | Basis::DmaEnable | Basis::Level => {
            any_changed(before, after, places, basis)
        }
    }
}

// The first of them that the write changed.
fn first_basis(
    before: &[u8; IMAGE_LENGTH],
    after: &[u8; IMAGE_LENGTH],
    places: &Places,
    ours: usize,
) -> Option<Basis>
    requires { ours < sources places.now.all.now }
    ensures { result ≡ find (changes places.now.all.now ours before.now after.now) bases }
{
    BASES
        .iter()
        .copied()
        .find(|&basis| changed(before, after, places, ours, basis))
}

// The same as the answer for the step at an index.
pub(crate) fn first_changed(
    before: &[u8; IMAGE_LENGTH],
    after: &[u8; IMAGE_LENGTH],
    places: &Places,
    ours: usize,
    index: usize,
) -> Result<(), NoBound>
    requires { ours < sources places.now.all.now }
    ensures { result ≡ broken_write places.now.all.now ours before.now after.now index }
{
    match first_basis(before, after, places, ours) {
        Some(basis) => Err(NoBound::Changed { basis, index }),
        None => Ok(()),
    }
}

// Whether the write made source k pending, and k is an unmasked source outranking ours at the start.
fn is_raised_rival(
    start: &[u8; IMAGE_LENGTH],
    before: &[u8; IMAGE_LENGTH],
    after: &[u8; IMAGE_LENGTH],
    places: &Places,
    ours: usize,
    k: usize,
) -> bool
    requires { (ours < sources places.now.all.now) × (k < sources places.now.all.now) }
    ensures { result ≡ raises_rival start.now places.now.all.now ours before.now after.now k }
{
    !is_pending(before, places, k)
        && is_pending(after, places, k)
        && is_rival(start, places, ours, k)
}

// How many such sources it made pending.
pub(crate) fn raised_rivals(
    start: &[u8; IMAGE_LENGTH],
    before: &[u8; IMAGE_LENGTH],
    after: &[u8; IMAGE_LENGTH],
    places: &Places,
    ours: usize,
) -> usize
    requires { ours < sources places.now.all.now }
    ensures { result ≡ raised_rivals start.now places.now.all.now ours before.now after.now }
{
    (0..source_count(places))
        .filter(|&k| is_raised_rival(start, before, after, places, ours, k))
        .count()
}
