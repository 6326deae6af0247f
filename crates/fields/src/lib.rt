// The two writes that change a part of a byte of the image.
#![tactic(auto)]

ghost use Rattle.std.specs.Prelude.{◌≡◌, ◌<◌, length};
ghost use Rattle.rules.specs.Image.{image_length, bit_of, put, put_CPL};

use bits::put_bit;
use rules::{CICR, IMAGE_LENGTH};

// Makes bit k of a byte 1 or 0.
#[tactic(auto, unfolding(rules::specs::Image::put))]
pub fn put_at(image: &mut [u8], at: usize, k: u8, v: bool)
    requires { (at < length image.old) × (k < 8) }
    ensures { image.new ≡ put image.old (bit_of at k) v }
{
    image[at] = put_bit(image[at], k, v);
}

// Makes CPL a level.
#[tactic(auto, unfolding(rules::specs::Image::put_CPL))]
pub fn put_cpl(image: &mut [u8; IMAGE_LENGTH], level: u8)
    requires { level < 8 }
    ensures { image.new ≡ put_CPL image.old level }
{
    image[CICR] = image[CICR] / 8 * 8 + level;
}
