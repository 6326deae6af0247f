// Lists of steps on an image, a memory and a list that are accepted: runs, single steps and wait reports.
#![tactic(auto)]

ghost use Rattle.std.specs.Prelude.{◌≡◌, ◌<◌};
ghost use Rattle.rules.specs.Image.{Fits};
ghost use Rattle.rules.specs.Outcomes.{state, alone, outcome};
ghost use Rattle.rules.specs.Steps.{act_of};
ghost use Rattle.rules.specs.Sources.{sources};
ghost use Rattle.rules.specs.Runs.{run_of, wait_of};
ghost use Rattle.rules.specs.Encodings.{decode_of, steps_of};

use channels::Laid;
use dispatch::{acknowledged, act, decode};
use rules::{Answer, IMAGE_LENGTH, Refusal, Run, RunRefusal, WaitEnd, WaitRefusal};

// A run: the steps one after another, up to the first refused. In the archive `act` has this one caller (the steps by name of `machine` are not in it), so
// that the compiler puts the steps' code into the loop.
pub fn run_accepted(
    image: &mut [u8; IMAGE_LENGTH],
    memory: &mut [u8],
    laid: &Laid,
    words: &[u64],
) -> Result<Run, RunRefusal>
    requires { Fits memory.old }
    ensures { outcome result (state image.new memory.new) ≡ run_of (state image.old memory.old) laid.now.places.all.now (steps_of words.now) }
{
    let mut last = None;
    for (index, &word) in words.iter().enumerate() {
        match act(image, memory, laid, decode(word)) {
            Ok(a) => last = Some(a),
            Err(refusal) => return Err(RunRefusal::At { refusal, index }),
        }
    }
    Ok(Run {
        steps: words.len(),
        last,
    })
}

// The step that a word stands for: a run of it alone.
pub fn perform(
    image: &mut [u8; IMAGE_LENGTH],
    memory: &mut [u8],
    laid: &Laid,
    word: u64,
) -> Result<Answer, Refusal>
    requires { Fits memory.old }
    ensures { outcome result (state image.new memory.new) ≡ act_of (state image.old memory.old) laid.now.places.all.now (decode_of word) }
{
    match run_accepted(image, memory, laid, &[word]) {
        Ok(run) => Ok(run.last.unwrap()),
        Err(RunRefusal::Before(refusal)) => Err(refusal),
        Err(RunRefusal::At { refusal, .. }) => Err(refusal),
    }
}

// The same without a memory.
pub fn perform_alone(
    image: &mut [u8; IMAGE_LENGTH],
    laid: &Laid,
    word: u64,
) -> Result<Answer, Refusal>
    ensures { outcome result (alone image.new) ≡ act_of (alone image.old) laid.now.places.all.now (decode_of word) }
{
    let mut none: [u8; 0] = [];
    perform(image, &mut none, laid, word)
}

// The same up to the acknowledgement of a source, if there is one; every arbitration is counted that isn't refused.
pub fn wait_accepted(
    image: &mut [u8; IMAGE_LENGTH],
    memory: &mut [u8],
    laid: &Laid,
    source: u32,
    words: &[u64],
) -> Result<WaitEnd, WaitRefusal>
    requires { Fits memory.old × (source < sources laid.now.places.all.now) }
    ensures { outcome result (state image.new memory.new) ≡ wait_of (state image.old memory.old) laid.now.places.all.now source (steps_of words.now) }
{
    let mut arbitrations: usize = 0;
    for (done, &word) in words.iter().enumerate() {
        match perform(image, memory, laid, word) {
            Ok(a) => {
                arbitrations += dispatch::arbitrations(decode(word));
                if acknowledged(Ok(a), source) {
                    return Ok(WaitEnd::Acknowledged { arbitrations });
                }
            }
            Err(refusal) => {
                return Err(WaitRefusal::At {
                    refusal,
                    index: done,
                    arbitrations,
                });
            }
        }
    }
    Ok(WaitEnd::Ended { arbitrations })
}
