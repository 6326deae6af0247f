// What a DMA request that has won gets: a byte moves between the data register and the register file, or the memory.
#![tactic(auto)]

ghost use Rattle.std.specs.Prelude.{◌≡◌, ◌+◌, ◌*◌, ◌/◌, ◌<◌, ◌≤◌, length, slice_set};
ghost use Rattle.rules.specs.Image.{image_length, at};
ghost use Rattle.rules.specs.Outcomes.{state, outcome};
ghost use Rattle.rules.specs.Sources.{record_of};
ghost use Rattle.rules.specs.Transfer.{settled, last_register, moved_byte, last_pair, word_at, put_word, moved_memory, served_memory, memory_transfer, transfer_of};
ghost use Rattle.channels.specs.Laid.{bytes_of, BeforeMark};
ghost use Rattle.transfers.specs.Served.{OfRecord, Finishes, Serves, ServesRegister};

use bits::has_bit;
use channels::{Places, RecordBytes};
use fields::put_at;
use rules::{Answer, DM, EXTERNALS, IM, IMAGE_LENGTH, IP, LAST_PAIR, LAST_REGISTER, Refusal};

// The bytes of the source's record.
#[tactic(auto, unfolding(rules::specs::Sources::sources))]
fn record_of(places: &Places, source: u8) -> RecordBytes
    requires { OfRecord places.now.all.now source }
    ensures place { result ≡ bytes_of (record_of places.now.all.now source) }
    ensures within { BeforeMark result }
{
    places.record(usize::from(source) - EXTERNALS)
}

// The pair that the pointer at a byte names: bit 0 is cleared.
fn pair_at(image: &[u8; IMAGE_LENGTH], pointer: u16) -> usize
    requires { pointer < image_length }
    ensures { result ≡ at image.now pointer / 2 * 2 }
{
    usize::from(image[usize::from(pointer)]) / 2 * 2
}

// ---- The end of a transfer, on either path.

// IP is cleared; at the end of a block DM is, and IP becomes IM.
#[tactic(auto, unfolding(rules::specs::Transfer::settled))]
fn settle(image: &mut [u8; IMAGE_LENGTH], places: &Places, source: u8, ended: bool)
    requires { OfRecord places.now.all.now source }
    ensures { image.new ≡ settled image.old (record_of places.now.all.now source) ended }
{
    let idcr = usize::from(record_of(places, source).idcr);
    if ended {
        let im = has_bit(image[idcr], IM);
        put_at(image, idcr, DM, false);
        put_at(image, idcr, IP, im);
        return;
    }
    put_at(image, idcr, IP, false);
}

// After the move, with the new address and counter stored: a new counter of 0 ends the block.
#[tactic(auto, unfolding(rules::specs::Transfer::finished))]
fn finish(image: &mut [u8; IMAGE_LENGTH], places: &Places, source: u8, count: u16) -> Answer
    requires { OfRecord places.now.all.now source }
    ensures { Finishes image.old (record_of places.now.all.now source) source count result image.new }
{
    let ended = count == 0;
    settle(image, places, source, ended);
    Answer::Transferred { source, ended }
}

// ---- With the register file.

// The pair Rn, R(n+1), as it was read first: an address and a counter.
#[derive(Clone, Copy)]
struct Pair {
    n: usize,
    address: u8,
    count: u8,
}

// Moves a byte between the data register and Ra.
#[tactic(auto, unfolding(rules::specs::Transfer::moved_byte))]
fn move_byte(image: &mut [u8; IMAGE_LENGTH], places: &Places, source: u8, a: u8)
    requires { OfRecord places.now.all.now source }
    ensures { image.new ≡ moved_byte image.old (record_of places.now.all.now source) a }
{
    let record = record_of(places, source);
    let data = usize::from(record.data);
    let address = usize::from(a);
    if record.direction == 0 {
        image[address] = image[data];
    } else {
        image[data] = image[address];
    }
}

// Rn and R(n+1) take the address that was read first, plus one, and the new counter.
fn advance(image: &mut [u8; IMAGE_LENGTH], n: usize, address: u8, count: u8)
    requires { (n + 1 < image_length) × (address ≤ last_register) }
    ensures { image.new ≡ slice_set (slice_set image.old n (address + 1)) (n + 1) count }
{
    image[n] = address + 1;
    image[n + 1] = count;
}

// The transfer over a pair; what its registers become is written after the move.
#[tactic(auto, unfolding(rules::specs::Transfer::served, rules::specs::Transfer::advanced, rules::specs::Transfer::less_one))]
fn serve(image: &mut [u8; IMAGE_LENGTH], places: &Places, source: u8, pair: Pair) -> Answer
    requires { OfRecord places.now.all.now source × (pair.n ≤ last_register) × (pair.address ≤ last_register) }
    ensures { Serves image.old (record_of places.now.all.now source) source pair.n pair.address pair.count result image.new }
{
    let left = pair.count.wrapping_sub(1);
    move_byte(image, places, source, pair.address);
    advance(image, pair.n, pair.address, left);
    finish(image, places, source, u16::from(left))
}

// Refused with 6 where the pair or the address is over R223.
#[tactic(auto, unfolding(rules::specs::Transfer::register_transfer, rules::specs::Transfer::pair_of))]
fn register_transfer(
    image: &mut [u8; IMAGE_LENGTH],
    places: &Places,
    source: u8,
) -> Result<Answer, Refusal>
    requires { OfRecord places.now.all.now source }
    ensures { ServesRegister image.old (record_of places.now.all.now source) source result image.new }
{
    let n = pair_at(image, record_of(places, source).dcpr);
    if LAST_REGISTER < n {
        return Err(Refusal::Pointer);
    }
    let address = image[n];
    let count = image[n + 1];
    if LAST_REGISTER < usize::from(address) {
        return Err(Refusal::Pointer);
    }
    let pair = Pair { n, address, count };
    Ok(serve(image, places, source, pair))
}

// ---- With the memory.

// The pairs of the address (p) and of the counter (n), and what they held.
#[derive(Clone, Copy)]
struct Pairs {
    p: usize,
    n: usize,
    address: u16,
    count: u16,
}

// The 16-bit number that a pair holds, high byte first.
#[tactic(auto, unfolding(rules::specs::Transfer::word_at))]
fn word_at(image: &[u8; IMAGE_LENGTH], n: usize) -> u16
    requires { n + 1 < image_length }
    ensures { result ≡ word_at image.now n }
{
    u16::from_be_bytes([image[n], image[n + 1]])
}

// Stores a 16-bit number in a pair.
#[tactic(auto, unfolding(rules::specs::Transfer::put_word))]
fn put_word(image: &mut [u8; IMAGE_LENGTH], n: usize, w: u16)
    requires { n + 1 < image_length }
    ensures { image.new ≡ put_word image.old n w }
{
    let [high, low] = w.to_be_bytes();
    image[n] = high;
    image[n + 1] = low;
}

// Moves a byte between the data register and the memory.
#[tactic(auto, unfolding(rules::specs::Transfer::moved_memory))]
fn move_memory(
    image: &mut [u8; IMAGE_LENGTH],
    memory: &mut [u8],
    places: &Places,
    source: u8,
    a: u16,
)
    requires { OfRecord places.now.all.now source × (a < length memory.old) }
    ensures { state image.new memory.new ≡ moved_memory (state image.old memory.old) (record_of places.now.all.now source) a }
{
    let record = record_of(places, source);
    let data = usize::from(record.data);
    let address = usize::from(a);
    if record.direction == 0 {
        memory[address] = image[data];
    } else {
        image[data] = memory[address];
    }
}

// The transfer over two pairs: the address pair is written after the move, then the counter pair.
#[tactic(auto, unfolding(rules::specs::Transfer::served_memory, rules::specs::Transfer::advanced_words, rules::specs::Transfer::less_one_word, rules::specs::Transfer::one_more_word))]
fn serve_memory(
    image: &mut [u8; IMAGE_LENGTH],
    memory: &mut [u8],
    places: &Places,
    source: u8,
    pairs: Pairs,
) -> Answer
    requires { OfRecord places.now.all.now source × (pairs.p ≤ last_pair) × (pairs.n ≤ last_pair) × (pairs.address < length memory.old) }
    ensures { outcome (Ok result) (state image.new memory.new) ≡ served_memory (state image.old memory.old) (record_of places.now.all.now source) source pairs.p pairs.n pairs.address pairs.count }
{
    let left = pairs.count.wrapping_sub(1);
    move_memory(image, memory, places, source, pairs.address);
    put_word(image, pairs.p, pairs.address.wrapping_add(1));
    put_word(image, pairs.n, left);
    finish(image, places, source, left)
}

// Refused with 6 where a pointer is over 222, then with 5 where the address is not below the memory's length.
#[tactic(auto, unfolding(rules::specs::Transfer::memory_transfer, rules::specs::Transfer::pair_of, rules::specs::Transfer::address_pair_of))]
fn memory_transfer(
    image: &mut [u8; IMAGE_LENGTH],
    memory: &mut [u8],
    places: &Places,
    source: u8,
) -> Result<Answer, Refusal>
    requires { OfRecord places.now.all.now source }
    ensures { outcome result (state image.new memory.new) ≡ memory_transfer (state image.old memory.old) (record_of places.now.all.now source) source }
{
    let record = record_of(places, source);
    let n = pair_at(image, record.dcpr);
    if LAST_PAIR < n {
        return Err(Refusal::Pointer);
    }
    let p = pair_at(image, record.dapr);
    if LAST_PAIR < p {
        return Err(Refusal::Pointer);
    }
    let address = word_at(image, p);
    let count = word_at(image, n);
    if memory.len() <= usize::from(address) {
        return Err(Refusal::Address);
    }
    let pairs = Pairs {
        p,
        n,
        address,
        count,
    };
    Ok(serve_memory(image, memory, places, source, pairs))
}

// A DMA service: with the memory where DCPR bit 0 is 0, else with the register file.
#[tactic(auto, unfolding(rules::specs::Transfer::transfer_of))]
pub fn transfer(
    image: &mut [u8; IMAGE_LENGTH],
    memory: &mut [u8],
    places: &Places,
    source: u8,
) -> Result<Answer, Refusal>
    requires { OfRecord places.now.all.now source }
    ensures { outcome result (state image.new memory.new) ≡ transfer_of (state image.old memory.old) (record_of places.now.all.now source) source }
{
    let dcpr = usize::from(record_of(places, source).dcpr);
    if image[dcpr] % 2 == 0 {
        return memory_transfer(image, memory, places, source);
    }
    register_transfer(image, places, source)
}
