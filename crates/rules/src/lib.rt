// The numbers and the types that every crate of the model shares.
#![tactic(auto)]

ghost use Rattle.std.specs.Prelude.{◌≡◌};

// The bytes of an image.
pub const IMAGE_LENGTH: usize = 1265;

// The most bytes of a memory.
pub const MOST_MEMORY: usize = 65536;

// The most records of a channel list.
pub const MOST_RECORDS: usize = 12;

// The bytes of a record in a channel list that is lent as bytes.
pub const RECORD_BYTES: usize = 7;

// The rows of the register table.
pub const ROW_COUNT: usize = 22;

// The bytes of the named registers, and of the top-level-in-service mark.
pub const CICR: usize = 230;

pub const PPR: usize = 234;

pub const MODER: usize = 235;

pub const EITR: usize = 242;

pub const EIPR: usize = 243;

pub const EIMR: usize = 244;

pub const EIPLR: usize = 245;

pub const EIVR: usize = 246;

pub const NICR: usize = 247;

pub const MARK: usize = 1264;

// The numbers of the bits that the rules name: of CICR,
pub const TLIP: u8 = 6;

pub const TLI: u8 = 5;

pub const IEN: u8 = 4;

pub const IAM: u8 = 3;

// of EIVR,
pub const TLTEV: u8 = 3;

pub const TLIS: u8 = 2;

pub const IAOS: u8 = 1;

// of NICR,
pub const TLNM: u8 = 7;

// and of a record's IDCR.
pub const IP: u8 = 5;

pub const DM: u8 = 4;

pub const IM: u8 = 3;

// The sources before the records: the external channels.
pub const EXTERNALS: usize = 8;

// The last register that a DMA pointer into the register file may name.
pub const LAST_REGISTER: usize = 223;

// The last pair that a DMA pointer may name where the transfer is with the memory.
pub const LAST_PAIR: usize = 222;

// A channel record: its page, the registers there of its IDCR, IVR, DCPR, DAPR and data (`io`), and the direction of its transfers
// (0: peripheral to register file or memory, 1: the reverse).
#[derive(Clone, Copy)]
pub struct Channel {
    pub page: u8,
    pub idcr: u8,
    pub ivr: u8,
    pub dcpr: u8,
    pub dapr: u8,
    pub io: u8,
    pub direction: u8,
}

// A channel list by value: the first `count` of the items. A count over twelve stands for a list that is too long.
#[derive(Clone, Copy)]
pub struct Channels {
    pub items: [Channel; MOST_RECORDS],
    pub count: usize,
}

// Where a register number goes: a byte of the image, with the bits that exist there. A number that goes nowhere has none.
#[derive(Clone, Copy, PartialEq, Eq)]
pub struct Place {
    pub byte: usize,
    pub existing: u8,
}

// The reasons for a refusal, with the numbers of documents 01 and 02: the image's length, the list, a register or viewed page, a pin, direction, record
// or source number, a memory address, a pointer over R223, an unknown kind, the memory's length.
#[derive(Clone, Copy, PartialEq, Eq)]
pub enum Refusal {
    Length = 1,
    List = 2,
    Register = 3,
    Number = 4,
    Address = 5,
    Pointer = 6,
    Kind = 7,
    Memory = 8,
}

// What a trigger did to a pending bit.
#[derive(Clone, Copy, PartialEq, Eq)]
pub enum Effect {
    NotSelected = 0,
    Raised = 1,
    Merged = 2,
}

// What can set a pending bit from outside: a pin edge, the watchdog's end of count, an NMI edge, a channel request, or a kind that is none of
// these. Directions of an edge: 0 falling, 1 rising.
#[derive(Clone, Copy)]
pub enum Trigger {
    Pin { pin: u32, direction: u8 },
    Watchdog,
    Nmi { direction: u8 },
    Request { record: u32 },
    Unknown,
}

// What a source asks for, with its level; one that asks for nothing has none.
#[derive(Clone, Copy, PartialEq, Eq)]
pub enum Request {
    Dma(u8),
    Interrupt(u8),
}

// The request that arbitration chose, if any.
#[derive(Clone, Copy, PartialEq, Eq)]
pub enum Winner {
    Dma { source: u8 },
    Interrupt { source: u8, level: u8 },
}

// One step of a run.
#[derive(Clone, Copy)]
pub enum Step {
    Read(u32),
    Write(u32, u8),
    Trigger(Trigger),
    Arbitrate,
    Return,
    Reset,
    Unknown,
}

// The pending bits that a write took from 1 to 0.
#[derive(Clone, Copy, PartialEq, Eq)]
pub struct Losses {
    pub eipr: u8,
}

// What a step answers that is not refused. A trigger answers for the maskable bit, then for TLIP; `Nothing` is an arbitration's "none".
#[derive(Clone, Copy, PartialEq, Eq)]
pub enum Answer {
    Byte(u8),
    Written(Losses),
    Triggered(Effect, Effect),
    Nothing,
    TopLevel,
    Interrupt { source: u8, level: u8, vector: u8 },
    Transferred { source: u8, ended: bool },
    Returned,
    Reset,
}

// What is asked of an answer: whether it is that of a trigger, with what it did to the maskable bit, or an acknowledged source.
#[derive(Clone, Copy, PartialEq, Eq)]
pub enum AnswerKind {
    Plain,
    Triggered(Effect),
    Acknowledged(u8),
}

// A run that is not refused: the steps done, and the answer of the last one, none where there was no step.
#[derive(Clone, Copy)]
pub struct Run {
    pub steps: usize,
    pub last: Option<Answer>,
}

// Why a run is refused: before any step, or at one, by its index, with the steps before it done.
#[derive(Clone, Copy)]
pub enum RunRefusal {
    Before(Refusal),
    At { refusal: Refusal, index: usize },
}

// How a wait report that is not refused ends, with the arbitrations made.
#[derive(Clone, Copy)]
pub enum WaitEnd {
    Ended { arbitrations: usize },
    Acknowledged { arbitrations: usize },
}

// Why one is refused: before any step, or at one, with the arbitrations before it.
#[derive(Clone, Copy)]
pub enum WaitRefusal {
    Before(Refusal),
    At {
        refusal: Refusal,
        index: usize,
        arbitrations: usize,
    },
}

// What a bound over reads and writes rests on, in the order in which a change of it is answered, with its number for C: our pending bit; the mode; the current
// level; the top level's enables; and each source's mask, DMA enable and level.
#[derive(Clone, Copy, PartialEq, Eq)]
pub enum Basis {
    Pending = 1,
    Mode = 2,
    CurrentLevel = 3,
    TopLevel = 4,
    Mask = 5,
    DmaEnable = 6,
    Level = 7,
}

// A bound: the unmasked sources outranking ours that are pending at the start (H), how often the steps trigger such a source or, in the bound over reads and
// writes, raise its pending bit (E), and H + E + 1.
#[derive(Clone, Copy)]
pub struct Bound {
    pub outranking: usize,
    pub triggers: usize,
    pub bound: usize,
}

// Why there is none: a refusal with 1, then 2, then 4; else the first premise on the start that fails; else one on the steps, with the index of the step. Demand
// 3's answers the first step of another kind, and only where there is none the first arbitration with interrupts disabled; that over reads and writes the first
// step that breaks any premise, and it alone answers `Changed`.
#[derive(Clone, Copy)]
pub enum NoBound {
    Refused(Refusal),
    Nested,
    DmaEnabled,
    TopLevelEnabled,
    TopLevelInService,
    NotPending,
    Masked,
    LevelNotAbove,
    OtherStep { index: usize },
    Changed { basis: Basis, index: usize },
    InterruptsDisabled { index: usize },
}

// A refusal of what is lent is one before any step.
impl From<Refusal> for RunRefusal {
    ghost use Rattle.rules.specs.declared.RunRefusal.TheVariants.{Before};

    ghost from_gives = { λ reason given. given ≡ Before reason };

    fn from(refusal: Refusal) -> RunRefusal {
        RunRefusal::Before(refusal)
    }
}

impl From<Refusal> for WaitRefusal {
    ghost use Rattle.rules.specs.declared.WaitRefusal.TheVariants.{Before};

    ghost from_gives = { λ reason given. given ≡ Before reason };

    fn from(refusal: Refusal) -> WaitRefusal {
        WaitRefusal::Before(refusal)
    }
}

impl From<Refusal> for NoBound {
    ghost use Rattle.rules.specs.declared.NoBound.TheVariants.{Refused};

    ghost from_gives = { λ reason given. given ≡ Refused reason };

    fn from(refusal: Refusal) -> NoBound {
        NoBound::Refused(refusal)
    }
}

// An answer as numbers, as C has it: its kind, document 01's number where something is refused (else 0), the steps done or the index of a step, and the
// values of its kind. specs/Encodings says which.
#[repr(C)]
#[derive(Clone, Copy, PartialEq, Eq)]
pub struct Flat {
    pub kind: u64,
    pub refusal: u64,
    pub steps: u64,
    pub first: u64,
    pub second: u64,
    pub third: u64,
}
