// The check of a channel list, refusal 2. It also lays the list out in two arrays, once a call, so that no step looks a record up.
#![tactic(auto)]

ghost use Rattle.std.specs.Prelude.{◌≡◌, true, ◌≤◌, ◌<◌, set};
ghost use Rattle.rules.specs.Image.{page_byte};
ghost use Rattle.rules.specs.Channels.{most_records, record_ok, list_ok, list_of};
ghost use Rattle.channels.specs.Laid.{no_masks, no_places, bytes_of, LaidList};
ghost use Rattle.channels.specs.Seen.{registers_of, row_of, Sees, SeesAll};

mod accepted;

pub use accepted::{Laid, Masks, Places};
use rules::{Channel, Channels, MARK, MOST_RECORDS};

// The masks: where the row of each page stands, 0 for none; then twelve rows of sixteen, the bits that exist at R240 to R255 of a page. A table of all
// the paged registers would be looked at once and not twice, but each call would have to clear it.
pub const MASKS: usize = 256;

// The first row stands after a number for each page.
const FIRST_ROW: u8 = 64;

// The bytes of a record's registers in the image, and the direction of its transfers, all of one width (`no_places` says why).
#[derive(Clone, Copy)]
pub struct RecordBytes {
    pub idcr: u16,
    pub ivr: u16,
    pub dcpr: u16,
    pub dapr: u16,
    pub data: u16,
    pub direction: u16,
}

// The byte of a register (240 to 255) of a page.
#[tactic(auto, unfolding(rules::specs::Image::page_byte))]
pub fn page_byte(page: u8, register: u8) -> usize
    requires { 240 ≤ register }
    ensures { result ≡ page_byte page register }
{
    16 * usize::from(page) + usize::from(register)
}

// Whether a record's numbers are in range. A register number is a byte, so that it is never over 255; five of them are at least 240 exactly if their
// common bits are.
fn record_ok(c: Channel) -> bool
    ensures { result ≡ record_ok c }
{
    ((1 <= c.page) & (c.page <= 63))
        & (240 <= (c.idcr & c.ivr & c.dcpr & c.dapr & c.io))
        & (c.direction <= 1)
}

// No page has a row yet.
fn no_masks() -> [u8; MASKS]
    ensures { result ≡ no_masks }
{
    [0u8; MASKS]
}

// No record has a place yet. The mark's byte stands for each IDCR, so that the twelve can be gathered without a look at the count; and in the other
// entries too, since one number in all of them is filled in 16 instructions less.
fn no_places() -> [RecordBytes; MOST_RECORDS]
    ensures { result ≡ no_places }
{
    let mark = MARK as u16;
    let blank = RecordBytes {
        idcr: mark,
        ivr: mark,
        dcpr: mark,
        dapr: mark,
        data: mark,
        direction: mark,
    };
    [blank; MOST_RECORDS]
}

// The row of a page: its own or, where it has none yet, the k-th, which is its own from now on. Rows are given out by the number of the record, so that
// no other page has that one.
fn row_of(masks: &mut [u8; MASKS], page: u8, k: usize) -> u8
    requires { (page ≤ 63) × (k < most_records) }
    ensures { (result ≡ row_of masks.old page k) × (masks.new ≡ set masks.old page result) }
{
    let p = usize::from(page);
    let row = masks[p];
    if row != 0 {
        return row;
    }
    let free = FIRST_ROW + 16 * (k as u8);
    masks[p] = free;
    free
}

// Whether a register of a row is seen for the first time: no bits exist there so far. From now on these do.
fn see(masks: &mut [u8; MASKS], row: u8, register: u8, bits: u8) -> bool
    requires { (row ≤ 240) × (240 ≤ register) }
    ensures { Sees masks.old row register bits result masks.new }
{
    let i = usize::from(row) + usize::from(register) - 240;
    let old = masks[i];
    masks[i] = bits;
    old == 0
}

// Whether each of a record's five registers is seen for the first time.
fn see_record(masks: &mut [u8; MASKS], row: u8, c: Channel) -> bool
    requires { (row ≤ 240) × (record_ok c ≡ true) }
    ensures { SeesAll masks.old row (registers_of c) result masks.new }
{
    let idcr = see(masks, row, c.idcr, 0x3F);
    let ivr = see(masks, row, c.ivr, 0xFF);
    let dcpr = see(masks, row, c.dcpr, 0xFF);
    let dapr = see(masks, row, c.dapr, 0xFF);
    let io = see(masks, row, c.io, 0xFF);
    idcr & ivr & dcpr & dapr & io
}

// What stands of a record in the places.
#[tactic(auto, unfolding(rules::specs::Image::page_byte, rules::specs::Channels::idcr_byte, rules::specs::Channels::ivr_byte, rules::specs::Channels::dcpr_byte, rules::specs::Channels::dapr_byte, rules::specs::Channels::data_byte))]
fn bytes_of(c: Channel) -> RecordBytes
    requires { record_ok c ≡ true }
    ensures { result ≡ bytes_of c }
{
    RecordBytes {
        idcr: page_byte(c.page, c.idcr) as u16,
        ivr: page_byte(c.page, c.ivr) as u16,
        dcpr: page_byte(c.page, c.dcpr) as u16,
        dapr: page_byte(c.page, c.dapr) as u16,
        data: page_byte(c.page, c.io) as u16,
        direction: u16::from(c.direction),
    }
}

// Whether the list is within the rules: at most twelve records, each in range, and no register of theirs twice. One pass over the records, which lays
// them out.
fn lay_list(
    all: Channels,
    masks: &mut [u8; MASKS],
    places: &mut [RecordBytes; MOST_RECORDS],
) -> bool
    requires { (masks.old ≡ no_masks) × (places.old ≡ no_places) }
    ensures { (result ≡ list_ok (list_of all)) × (result ≡ true → LaidList (list_of all) masks.new places.new all.count) }
{
    if MOST_RECORDS < all.count {
        return false;
    }
    for k in 0..all.count {
        let c = all.items[k];
        if !record_ok(c) {
            return false;
        }
        let row = row_of(masks, c.page, k);
        if !see_record(masks, row, c) {
            return false;
        }
        places[k] = bytes_of(c);
    }
    true
}
