// The levels of nested mode: pushed at an acknowledgement, popped at a return.
ghost use Rattle.std.specs.Prelude.{◌≡◌, ◌<◌};
ghost use Rattle.rules.specs.Arbitration.{pushed, acknowledged_levels};
ghost use Rattle.rules.specs.Return.{restored_level, popped, returned_levels};

use bits::has_bit;
use fields::{put_at, put_cpl};
use rules::{CICR, IAM, IMAGE_LENGTH, NICR};

// Sets HLx for x = CPL, if that is at most 6.
#[tactic(auto, unfolding(rules::specs::Arbitration::pushed))]
fn push(image: &mut [u8; IMAGE_LENGTH])
    ensures { image.new ≡ pushed image.old }
{
    let cpl = image[CICR] % 8;
    if cpl <= 6 {
        put_at(image, NICR, cpl, true);
    }
}

// In nested mode pushes the current level; the level becomes the current one.
#[tactic(auto, unfolding(rules::specs::Arbitration::nested))]
pub(crate) fn nest(image: &mut [u8; IMAGE_LENGTH], level: u8)
    requires { level < 8 }
    ensures { image.new ≡ acknowledged_levels image.old level }
{
    if !has_bit(image[CICR], IAM) {
        return;
    }
    push(image);
    put_cpl(image, level);
}

// The smallest x whose HLx is set, 7 with none: the trailing zeros of NICR's low seven bits, with a 1 in the place of TLNM above them.
fn restored_level(image: &[u8; IMAGE_LENGTH]) -> u8
    ensures { result ≡ restored_level image.now }
{
    let levels = (image[NICR] & 0x7F) | 0x80;
    u32::from(levels).trailing_zeros() as u8
}

// Clears HLx of the level that is restored; none at 7.
#[tactic(auto, unfolding(rules::specs::Return::popped))]
fn pop(image: &mut [u8; IMAGE_LENGTH], level: u8)
    requires { level ≡ restored_level image.old }
    ensures { image.new ≡ popped image.old }
{
    if level < 7 {
        put_at(image, NICR, level, false);
    }
}

// In nested mode pops the restored level, which becomes the current one.
#[tactic(auto, unfolding(rules::specs::Return::unnested))]
pub(crate) fn unnest(image: &mut [u8; IMAGE_LENGTH])
    ensures { image.new ≡ returned_levels image.old }
{
    if !has_bit(image[CICR], IAM) {
        return;
    }
    let level = restored_level(image);
    pop(image, level);
    put_cpl(image, level);
}
