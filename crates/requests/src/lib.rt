// Rules 3 to 5 of arbitration: who requests what, what is eligible, and the winner.
#![tactic(auto)]

ghost use Rattle.std.specs.Prelude.{◌≡◌, cond, ◌%◌, ◌<◌, eqb};
ghost use Rattle.bits.specs.Bits.{bit};
ghost use Rattle.rules.specs.Sources.{sources, external_level};
ghost use Rattle.rules.specs.Requests.{won_by, winner_of};
ghost use Rattle.requests.specs.Ranks.{record_request, limits_of, interrupt_rank, rank_of, external_rank, rank_at, Gathered, may_request, Lowest, IsFront, scanned};

use bits::{has_bit, put_bit};
use channels::Places;
use rules::{CICR, DM, EIMR, EIPLR, EIPR, EXTERNALS, IEN, IM, IMAGE_LENGTH, IP, Winner};

// The rank of what is not eligible; that of an eligible request is below it.
const NO_RANK: u8 = 16;

// The level of external channel k: its group's field of EIPLR, and k modulo 2.
pub fn external_level(eiplr: u8, k: u8) -> u8
    requires { k < 8 }
    ensures { result ≡ external_level eiplr k }
{
    2 * ((eiplr >> (k / 2 * 2)) % 4) + k % 2
}

// What a level must be below to be eligible: a DMA request's, and an interrupt's.
#[derive(Clone, Copy)]
struct Limits {
    dma: u8,
    interrupt: u8,
}

// That of an interrupt, by CICR: CPL, or 0 where interrupts are disabled.
fn interrupt_limit(cicr: u8) -> u8
    ensures { result ≡ cond (bit 4 cicr) (cicr % 8) 0 }
{
    if has_bit(cicr, IEN) {
        return cicr % 8;
    }
    0
}

fn limits_of(image: &[u8; IMAGE_LENGTH]) -> Limits
    ensures { result ≡ limits_of image.now }
{
    let cicr = image[CICR];
    Limits {
        dma: cicr % 8,
        interrupt: interrupt_limit(cicr),
    }
}

// The rank of an interrupt request at a level.
#[tactic(auto, unfolding(crate::specs::Ranks::interrupt_rank))]
fn interrupt_rank(limit: u8, level: u8) -> u8
    requires { level < 8 }
    ensures { result ≡ interrupt_rank limit level }
{
    if level < limit {
        return 2 * level + 1;
    }
    NO_RANK
}

// The rank of what a record requests, by its IDCR: 2 * level + kind (0 DMA, 1 interrupt) where it is eligible.
#[tactic(auto, unfolding(crate::specs::Ranks::record_request, crate::specs::Ranks::rank_of))]
fn record_rank(idcr: u8, limits: Limits) -> u8
    ensures { result ≡ rank_of limits (record_request idcr) }
{
    if !has_bit(idcr, IP) {
        return NO_RANK;
    }
    let level = idcr % 8;
    if has_bit(idcr, DM) {
        if level < limits.dma {
            return 2 * level;
        }
        return NO_RANK;
    }
    if has_bit(idcr, IM) {
        return interrupt_rank(limits.interrupt, level);
    }
    NO_RANK
}

// The rank of external channel k, by the channels that request: their EIPR and EIMR bits are 1.
#[tactic(auto, unfolding(crate::specs::Ranks::external_rank))]
fn external_rank(limit: u8, eiplr: u8, requesting: u8, k: u8) -> u8
    requires { k < 8 }
    ensures { result ≡ external_rank limit eiplr requesting k }
{
    if has_bit(requesting, k) {
        return interrupt_rank(limit, external_level(eiplr, k));
    }
    NO_RANK
}

// The rank at a position.
fn rank_at(image: &[u8; IMAGE_LENGTH], places: &Places, limits: Limits, position: usize) -> u8
    requires { position < sources places.now.all.now }
    ensures { result ≡ rank_at limits image.now places.now.all.now position }
{
    if position < EXTERNALS {
        return external_rank(
            limits.interrupt,
            image[EIPLR],
            image[EIPR] & image[EIMR],
            position as u8,
        );
    }
    record_rank(image[places.idcr(position - EXTERNALS)], limits)
}

// A lower bound for the winner among some positions: none of them has a smaller rank, and none before `position` has this rank.
#[derive(Clone, Copy)]
struct Front {
    rank: u8,
    position: usize,
}

// The number of the lowest bit that is 1.
fn lowest(left: u8) -> u8
    requires { 0 < left }
    ensures { Lowest left result }
{
    u32::from(left).trailing_zeros() as u8
}

// The front of the external channels; only those that request are looked at, and where the limit is 0 none is eligible.
fn externals_front(limit: u8, eiplr: u8, requesting: u8) -> Front
    ensures { IsFront (external_rank limit eiplr requesting) 8 result.rank result.position }
{
    let mut front = Front {
        rank: NO_RANK,
        position: 0,
    };
    if limit == 0 {
        return front;
    }
    let mut left = requesting;
    while left != 0 {
        let k = lowest(left);
        left = put_bit(left, k, false);
        let rank = interrupt_rank(limit, external_level(eiplr, k));
        if front.rank <= rank {
            continue;
        }
        front = Front {
            rank,
            position: k as usize,
        };
    }
    front
}

// The front of the external channels and the records.
fn records_front(
    image: &[u8; IMAGE_LENGTH],
    places: &Places,
    limits: Limits,
    externals: Front,
) -> Front
    requires { IsFront (rank_at limits image.now places.now.all.now) 8 externals.rank externals.position }
    ensures { IsFront (rank_at limits image.now places.now.all.now) (sources places.now.all.now) result.rank result.position }
{
    let mut front = externals;
    for k in 0..places.count() {
        let rank = record_rank(image[places.idcr(k)], limits);
        // Most records have none; without this test, which the next makes too, the compiler takes 35 instructions more for twelve records.
        if rank == NO_RANK {
            continue;
        }
        if front.rank <= rank {
            continue;
        }
        front = Front {
            rank,
            position: EXTERNALS + k,
        };
    }
    front
}

// The winner of a level, a kind and a position.
#[tactic(auto, unfolding(rules::specs::Requests::won_by))]
fn won(level: u8, kind: u8, position: u8) -> Option<Winner>
    ensures { result ≡ won_by level kind position }
{
    if kind == 0 {
        return Some(Winner::Dma { source: position });
    }
    Some(Winner::Interrupt {
        source: position,
        level,
    })
}

// Where the scan of a rank's positions starts.
fn start_of(rank: u8, front: Front) -> usize
    ensures { result ≡ cond (eqb rank front.rank) front.position 0 }
{
    if rank == front.rank {
        return front.position;
    }
    0
}

// The first position of the first level and kind that has an eligible request. Ranks below the front's, and positions before it at that rank, are passed
// over: none is there.
fn scan(image: &[u8; IMAGE_LENGTH], places: &Places, limits: Limits, front: Front) -> Option<Winner>
    requires { IsFront (rank_at limits image.now places.now.all.now) (sources places.now.all.now) front.rank front.position }
    ensures { result ≡ scanned (rank_at limits image.now places.now.all.now) (sources places.now.all.now) }
{
    let positions = EXTERNALS + places.count();
    'scan: {
        for level in front.rank / 2..8 {
            for kind in 0..2 {
                let rank = 2 * level + kind;
                if rank < front.rank {
                    continue;
                }
                for position in start_of(rank, front)..positions {
                    if rank_at(image, places, limits, position) == rank {
                        break 'scan won(level, kind, position as u8);
                    }
                }
            }
        }
        None
    }
}

// The bits of all IDCRs, gathered: a bit that is 0 here is 0 in each of them. The mark, which is 0 where an arbitration comes to this, stands in for
// records that are not there, so that the number of looks is fixed; a mark that is set could only make the test below say yes too often.
fn gathered_bits(image: &[u8; IMAGE_LENGTH], places: &Places) -> u8
    ensures { Gathered image.now places.now.all.now result }
{
    places.records.iter().fold(0, |gathered, record| gathered | image[record.idcr as usize])
}

// Whether some record may request, by the gathered bits: an IP, and a DM or an IM. They may be of several records, so that none does.
#[tactic(auto, unfolding(crate::specs::Ranks::may_request))]
fn may_request(gathered: u8) -> bool
    ensures { result ≡ may_request gathered }
{
    has_bit(gathered, IP) && (has_bit(gathered, DM) | has_bit(gathered, IM))
}

// The front of all positions. Where the gathered bits rule every record out, none is looked at.
fn front_of(image: &[u8; IMAGE_LENGTH], places: &Places, limits: Limits, gathered: u8) -> Front
    requires { Gathered image.now places.now.all.now gathered }
    ensures { IsFront (rank_at limits image.now places.now.all.now) (sources places.now.all.now) result.rank result.position }
{
    let externals = externals_front(limits.interrupt, image[EIPLR], image[EIPR] & image[EIMR]);
    if may_request(gathered) {
        return records_front(image, places, limits, externals);
    }
    externals
}

// The winner, where something may request.
fn chosen(image: &[u8; IMAGE_LENGTH], places: &Places, gathered: u8) -> Option<Winner>
    requires { Gathered image.now places.now.all.now gathered }
    ensures { result ≡ scanned (rank_at (limits_of image.now) image.now places.now.all.now) (sources places.now.all.now) }
{
    let limits = limits_of(image);
    let front = front_of(image, places, limits, gathered);
    if front.rank == NO_RANK {
        return None;
    }
    scan(image, places, limits, front)
}

// The winner: levels from 0 up, within a level DMA before interrupt, then positions from 0 up. Where no external channel requests and no record
// may request there is nothing to look for.
pub fn winner_of(image: &[u8; IMAGE_LENGTH], places: &Places) -> Option<Winner>
    ensures { result ≡ winner_of image.now places.now.all.now }
{
    let gathered = gathered_bits(image, places);
    if (image[EIPR] & image[EIMR]) == 0 && !may_request(gathered) {
        return None;
    }
    chosen(image, places, gathered)
}
