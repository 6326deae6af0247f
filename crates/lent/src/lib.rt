// The lent channel list, copied into a list by value: from a slice of records, or from bytes as C lends it.
#![tactic(auto)]

ghost use Rattle.std.specs.Prelude.{◌≡◌};
ghost use Rattle.rules.specs.Encodings.{record_in, list_in};
ghost use Rattle.lent.specs.Copies.{capped, blank_of, copy_of};

use rules::{Channel, Channels, MOST_RECORDS, RECORD_BYTES};

// What fills up a list by value.
const BLANK: Channel = Channel {
    page: 0,
    idcr: 0,
    ivr: 0,
    dcpr: 0,
    dapr: 0,
    io: 0,
    direction: 0,
};

// A length as it is kept: thirteen for any over twelve.
fn capped(n: usize) -> usize
    ensures { result ≡ capped n }
{
    n.min(MOST_RECORDS + 1)
}

// A list by value with nothing put yet.
fn blank(count: usize) -> Channels
    ensures { result ≡ blank_of count }
{
    Channels {
        items: [BLANK; MOST_RECORDS],
        count: capped(count),
    }
}

// The lent list by value: its records in order, or a count of thirteen where there are more than twelve.
pub fn copied(cs: &[Channel]) -> Channels
    ensures { result ≡ copy_of cs.now }
{
    let kept = cs.len().min(MOST_RECORDS);
    let mut items = [BLANK; MOST_RECORDS];
    items[..kept].copy_from_slice(&cs[..kept]);
    Channels {
        items,
        count: capped(cs.len()),
    }
}

// The record that seven bytes are.
fn record_of(bytes: &[u8; RECORD_BYTES]) -> Channel
    ensures { result ≡ record_in bytes.now }
{
    let [page, idcr, ivr, dcpr, dapr, io, direction] = *bytes;
    Channel {
        page,
        idcr,
        ivr,
        dcpr,
        dapr,
        io,
        direction,
    }
}

// The list that bytes stand for, seven a record, by value: a count of thirteen where there are more than twelve records, or no whole number of them.
pub fn unpacked(bytes: &[u8]) -> Channels
    ensures { result ≡ copy_of (list_in bytes.now) }
{
    let (records, rest) = bytes.as_chunks::<RECORD_BYTES>();
    if !rest.is_empty() {
        return blank(MOST_RECORDS + 1);
    }
    // Returned here, so that the 92 bytes of an empty list are not copied.
    if records.is_empty() {
        return blank(0);
    }
    let kept = records.len().min(MOST_RECORDS);
    let mut items = [BLANK; MOST_RECORDS];
    for (i, record) in records[..kept].iter().enumerate() {
        items[i] = record_of(record);
    }
    Channels {
        items,
        count: capped(records.len()),
    }
}
