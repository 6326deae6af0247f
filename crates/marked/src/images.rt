// The images and channel lists of the examples.
ghost use Rattle.std.specs.Prelude.{◌≡◌, [], ◌∷◌, ◌<◌, set, replicate};
ghost use Rattle.rules.specs.Image.{image_length};
ghost use Rattle.rules.specs.Channels.{list_of, most_records};
ghost use Rattle.rules.specs.Examples.{zero_image, image, channel};
ghost use Rattle.marked.specs.Passes.{interrupt_image, transfer_image};

use rules::{CICR, Channel, Channels, EIMR, EIPLR, EIPR, EIVR, IMAGE_LENGTH, MOST_RECORDS, NICR};

// The image of zeros.
pub(crate) fn zeros() -> [u8; IMAGE_LENGTH]
    ensures { result ≡ zero_image }
{
    [0; IMAGE_LENGTH]
}

// The image with one byte replaced.
pub(crate) fn with(image: [u8; IMAGE_LENGTH], at: usize, b: u8) -> [u8; IMAGE_LENGTH]
    requires { at < image_length }
    ensures { result ≡ set image at b }
{
    let mut m = image;
    m[at] = b;
    m
}

// The image of zeros but for EIVR, which is 46h, and CICR, NICR, EIPR, EIMR and EIPLR.
pub(crate) fn interrupts(cicr: u8, nicr: u8, eipr: u8, eimr: u8, eiplr: u8) -> [u8; IMAGE_LENGTH]
    ensures { result ≡ interrupt_image cicr nicr eipr eimr eiplr }
{
    let mut m = zeros();
    m[EIVR] = 0x46;
    m[CICR] = cicr;
    m[NICR] = nicr;
    m[EIPR] = eipr;
    m[EIMR] = eimr;
    m[EIPLR] = eiplr;
    m
}

// The image with a transfer of the record on page 9: its IDCR, DCPR 11h and data 5Ah; R16 and R17 are the address and the counter.
pub(crate) fn with_transfer(
    image: [u8; IMAGE_LENGTH],
    idcr: u8,
    address: u8,
    counter: u8,
) -> [u8; IMAGE_LENGTH]
    ensures { result ≡ transfer_image image idcr address counter }
{
    let mut m = image;
    m[16] = address;
    m[17] = counter;
    m[384] = idcr;
    m[386] = 0x11;
    m[388] = 0x5A;
    m
}

// A list of so many records, none or one: R240 to R244 of page 9, peripheral to register file.
fn records(count: usize) -> Channels
    ensures { (result.items ≡ replicate most_records channel) × (result.count ≡ count) }
{
    let c = Channel {
        page: 9,
        idcr: 240,
        ivr: 241,
        dcpr: 242,
        dapr: 243,
        io: 244,
        direction: 0,
    };
    Channels {
        items: [c; MOST_RECORDS],
        count,
    }
}

// No record.
pub(crate) fn none() -> Channels
    ensures { list_of result ≡ [] }
{
    records(0)
}

// The record on page 9 alone.
pub(crate) fn one() -> Channels
    ensures { list_of result ≡ (channel ∷ []) }
{
    records(1)
}
