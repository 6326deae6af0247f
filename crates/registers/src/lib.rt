// The registers: where a register number goes, read, write, reset, and the view of a page.
#![tactic(auto)]

mod table;

ghost use Rattle.std.specs.Prelude.{◌≡◌, cond, ◌≤◌, eqb};
ghost use Rattle.rules.specs.Image.{page_byte};
ghost use Rattle.rules.specs.Outcomes.{outcome};
ghost use Rattle.rules.specs.Registers.{page_zero, place_of, read_of, stored_byte, lost_bits, write_of, reset_of, view_verdict};
ghost use Rattle.rules.specs.Promises.{Views};
ghost use Rattle.channels.specs.Laid.{bits_in, place_by};

use channels::{Masks, page_byte};
use rules::{Answer, EIPR, IMAGE_LENGTH, Losses, MARK, NICR, PPR, Place, ROW_COUNT, Refusal};
use table::{existing_bits, reset_at, row_place, value_at};

// Where a register of page 0 goes.
#[tactic(auto, unfolding(rules::specs::Registers::page_zero))]
fn page_zero(register: u8) -> Option<Place>
    ensures { result ≡ page_zero register }
{
    (242..=247).contains(&register).then(|| Place {
        byte: page_byte(0, register),
        existing: existing_bits(register as usize),
    })
}

// Where a register goes of a page that has no row: page 0 has registers of its own, the others have none.
fn place_without_row(page: u8, register: u8) -> Option<Place>
    ensures { result ≡ cond (eqb page 0) (page_zero register) None }
{
    if page == 0 {
        return page_zero(register);
    }
    None
}

// Where it goes of a page that has one: to its byte, if bits exist there.
fn place_in_row(masks: &Masks, row: u8, page: u8, register: u8) -> Option<Place>
    requires { (row ≤ 240) × (240 ≤ register) }
    ensures { result ≡ place_by (page_byte page register) (bits_in masks.now.rows row register) }
{
    let existing = masks.rows[(row as usize) + (register as usize) - 240];
    (existing != 0).then(|| Place {
        byte: page_byte(page, register),
        existing,
    })
}

// Where a register number goes, with the page that PPR selects.
#[tactic(auto, unfolding(rules::specs::Registers::place_of))]
fn place_of(image: &[u8; IMAGE_LENGTH], masks: &Masks, register: u32) -> Option<Place>
    ensures { result ≡ place_of image.now masks.now.all.now register }
{
    match register {
        0..=239 => {
            let byte = register as usize;
            Some(Place {
                byte,
                existing: existing_bits(byte),
            })
        }
        240..=255 => {
            let r = register as u8;
            let page = image[PPR] / 4;
            match masks.rows[page as usize] {
                0 => place_without_row(page, r),
                row => place_in_row(masks, row, page, r),
            }
        }
        _ => None,
    }
}

// Reads a register: the stored byte with absent bits as 0.
#[tactic(auto, using(crate::proofs::Bounds::place_in_image), unfolding(rules::specs::Registers::read_of))]
pub fn read(image: &[u8; IMAGE_LENGTH], masks: &Masks, register: u32) -> Result<Answer, Refusal>
    ensures { result ≡ read_of image.now masks.now.all.now register }
{
    let place = place_of(image, masks, register).ok_or(Refusal::Register)?;
    Ok(Answer::Byte(image[place.byte] & place.existing))
}

// The byte that a write of `value` over `old` stores: the existing bits and 0 in the absent ones; TLNM can be set and not cleared.
#[tactic(auto, unfolding(rules::specs::Registers::stored_byte))]
fn stored_byte(i: usize, existing: u8, old: u8, value: u8) -> u8
    ensures { result ≡ stored_byte i existing old value }
{
    if i == NICR {
        return (value & existing) | (old & 0x80);
    }
    value & existing
}

// The EIPR bits that a write takes from 1 to 0.
#[tactic(auto, unfolding(rules::specs::Registers::lost_bits))]
fn lost_bits(i: usize, old: u8, new: u8) -> u8
    ensures { result ≡ lost_bits i old new }
{
    if i == EIPR {
        return old & !new;
    }
    0x00
}

// Writes a register, and answers the pending bits that were lost.
#[tactic(auto, using(crate::proofs::Bounds::place_in_image), unfolding(rules::specs::Registers::write_of, rules::specs::Registers::write_at))]
pub fn write(
    image: &mut [u8; IMAGE_LENGTH],
    masks: &Masks,
    register: u32,
    value: u8,
) -> Result<Answer, Refusal>
    ensures { outcome result image.new ≡ write_of image.old masks.now.all.now register value }
{
    let place = place_of(image, masks, register).ok_or(Refusal::Register)?;
    let old = image[place.byte];
    let new = stored_byte(place.byte, place.existing, old, value);
    image[place.byte] = new;
    Ok(Answer::Written(Losses {
        eipr: lost_bits(place.byte, old, new),
    }))
}

// Resets the registers of the table, and clears the mark.
#[tactic(auto, unfolding(rules::specs::Registers::reset_rows))]
pub fn reset(image: &mut [u8; IMAGE_LENGTH]) -> Answer
    ensures { outcome (Ok result) image.new ≡ reset_of image.old }
{
    for k in 0..ROW_COUNT {
        let byte = &mut image[row_place(k)];
        *byte = (*byte & !reset_at(k)) | value_at(k);
    }
    image[MARK] = 0;
    Answer::Reset
}

// Whether the view of a page is accepted: refused with 1 for the image's length, then with 3 for the page.
#[tactic(auto, unfolding(rules::specs::Registers::view_verdict))]
pub fn view_verdict(image: &[u8], page: u32) -> Result<(), Refusal>
    ensures { result ≡ view_verdict image.now page }
{
    if image.len() != IMAGE_LENGTH {
        return Err(Refusal::Length);
    }
    if 63 < page {
        return Err(Refusal::Register);
    }
    Ok(())
}

// The sixteen bytes of a page, as stored: a part of the image, empty where the view is refused.
pub fn view(image: &[u8], page: u32) -> &[u8]
    ensures { Views image.now page result.now }
{
    match view_verdict(image, page) {
        Ok(()) => {
            let start = 240 + 16 * (page as usize);
            let end = start + 16;
            &image[start..end]
        }
        Err(_) => &image[..0],
    }
}
