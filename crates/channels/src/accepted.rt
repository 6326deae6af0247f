// A channel list that is accepted, laid out: what the steps are lent in place of its records.
#![tactic(auto)]

ghost use Rattle.std.specs.Prelude.{◌≡◌, true, false, ◌<◌, ◌≤◌, [], length, MatchResult};
ghost use Rattle.rules.specs.Channels.{most_records, list_ok, list_of, record_at, idcr_byte};
ghost use Rattle.rules.specs.Image.{image_length};
ghost use Rattle.channels.specs.Laid.{no_masks, no_places, bytes_of, LaidMasks, LaidPlaces, BeforeMark, Empty};

use crate::{MASKS, RecordBytes, lay_list, no_masks, no_places};
use rules::{Channel, Channels, MOST_RECORDS, Refusal};

// The list of no records.
fn no_records() -> &'static [Channel]
    ensures { result.now ≡ [] }
{
    &[]
}

// The records of a list of at most twelve.
fn records(all: &Channels) -> &[Channel]
    requires { all.now.count ≤ most_records }
    ensures { result.now ≡ list_of all.now }
{
    &all.items[..all.count]
}

// What a read or a write reads of the list: where the row of each page stands, and the rows. The list itself is only spoken of, so it is not copied; it
// stands last, since beside its length, where that is 0, the compiler would clear the rows by a call of `memset`, which C would have to link.
#[derive(Drop)]
pub struct Masks<'a> {
    pub rows: [u8; MASKS],
    pub all: &'a [Channel],
    pub ghost ok: { list_ok all.now ≡ true },
    pub ghost laid: { LaidMasks all.now rows },
}

impl<'a> Masks<'a> {
    // Those of no records.
    fn empty() -> Self
        ensures { (result.all.now ≡ []) × (result.rows ≡ no_masks) }
    {
        Masks {
            rows: no_masks(),
            all: no_records(),
        }
    }
}

// What a trigger or an arbitration reads of it: the bytes of each record's registers, and how many records there are.
#[derive(Drop)]
pub struct Places<'a> {
    pub all: &'a [Channel],
    pub records: [RecordBytes; MOST_RECORDS],
    pub count: usize,
    pub ghost ok: { list_ok all.now ≡ true },
    pub ghost laid: { LaidPlaces all.now records count },
}

#[tactic(auto, using(rules::proofs::ChannelLaws::list_short))]
impl<'a> Places<'a> {
    // Those of no records.
    fn empty() -> Self
        ensures { (result.all.now ≡ []) × (result.records ≡ no_places) × (result.count ≡ 0) }
    {
        Places {
            all: no_records(),
            records: no_places(),
            count: 0,
        }
    }

    // How many records there are.
    pub fn count(&self) -> usize
        ensures all { result ≡ length self.now.all.now }
        ensures few { result ≤ most_records }
    {
        self.count
    }

    // The bytes of record k.
    #[tactic(auto, using(rules::proofs::ChannelLaws::list_short, crate::proofs::LaidLaws::before_mark))]
    pub fn record(&self, k: usize) -> RecordBytes
        requires { k < length self.now.all.now }
        ensures place { result ≡ bytes_of (record_at self.now.all.now k) }
        ensures within { BeforeMark result }
    {
        self.records[k]
    }

    // The byte of its IDCR.
    pub fn idcr(&self, k: usize) -> usize
        requires { k < length self.now.all.now }
        ensures place { result ≡ idcr_byte (record_at self.now.all.now k) }
        ensures within { result < image_length }
    {
        usize::from(self.record(k).idcr)
    }
}

// Both, of one list.
#[derive(Drop)]
pub struct Laid<'a> {
    pub masks: Masks<'a>,
    pub places: Places<'a>,
    pub ghost same: { masks.all.now ≡ places.all.now },
}

impl<'a> Laid<'a> {
    // The list of no records, laid out.
    pub fn empty() -> Self
        ensures { Empty result.places.all.now result.masks.rows result.places.records result.places.count }
    {
        Laid {
            masks: Masks::empty(),
            places: Places::empty(),
        }
    }

    // Lays a list out in place of the empty one, where it is within the rules. A constructor that returns it in a `Result` copies the arrays, 200
    // instructions a call. In the caller's code, what is cleared of a refused list is not read again, and so is not cleared.
    #[inline(always)]
    pub fn lay(&mut self, all: &'a Channels) -> Result<(), Refusal>
        requires { Empty self.old.places.all.now self.old.masks.rows self.old.places.records self.old.places.count }
        ensures { MatchResult result
            (λ _. (self.new.masks.all.now ≡ list_of all.now) × (self.new.places.all.now ≡ list_of all.now))
            (λ e. (e ≡ Refusal.List) × (list_ok (list_of all.now) ≡ false)) }
    {
        if all.count == 0 {
            return Ok(());
        }
        let masks = &mut self.masks;
        let places = &mut self.places;
        if !lay_list(*all, &mut masks.rows, &mut places.records) {
            masks.rows = no_masks();
            places.records = no_places();
            return Err(Refusal::List);
        }
        masks.all = records(all);
        places.all = masks.all;
        places.count = all.count;
        Ok(())
    }
}
