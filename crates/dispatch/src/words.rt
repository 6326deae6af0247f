// A step as a word: kind * 2^48 + trigger * 2^32 + first * 2^8 + second.
ghost use Rattle.std.specs.Prelude.{◌≡◌};
ghost use Rattle.rules.specs.Encodings.{trigger_by, decode_of};

use rules::{Step, Trigger};

// The trigger of a kind: 0 pin edge, 1 watchdog, 2 NMI edge, 3 channel request.
#[tactic(auto, unfolding(rules::specs::Encodings::trigger_by))]
fn trigger_by(kind: u64, first: u32, second: u8) -> Trigger
    ensures { result ≡ trigger_by kind first second }
{
    match kind {
        0 => Trigger::Pin {
            pin: first,
            direction: second,
        },
        1 => Trigger::Watchdog,
        2 => Trigger::Nmi { direction: second },
        3 => Trigger::Request { record: first },
        _ => Trigger::Unknown,
    }
}

// The step that a word stands for; kind 0 read, 1 write, 2 trigger, 3 arbitration, 4 return, 5 reset.
#[tactic(auto, unfolding(rules::specs::Encodings::step_by, rules::specs::Encodings::decode_of))]
pub fn decode(word: u64) -> Step
    ensures { result ≡ decode_of word }
{
    let first = ((word >> 8) % 0x100_0000) as u32;
    let second = (word % 0x100) as u8;
    match word >> 48 {
        0 => Step::Read(first),
        1 => Step::Write(first, second),
        2 => Step::Trigger(trigger_by((word >> 32) % 0x1_0000, first, second)),
        3 => Step::Arbitrate,
        4 => Step::Return,
        5 => Step::Reset,
        _ => Step::Unknown,
    }
}
