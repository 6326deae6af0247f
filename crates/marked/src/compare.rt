// Whether a step answered and left what the paper says.
ghost use Rattle.std.specs.Prelude.{◌≡◌, ◌&&◌};
ghost use Rattle.rules.specs.Encodings.{told};
ghost use Rattle.marked.specs.Passes.{same_numbers, same_bytes};

use answers::Tell;
use rules::{Answer, IMAGE_LENGTH, Refusal};

// Whether two answers are the same.
fn same_answer(a: Result<Answer, Refusal>, b: Result<Answer, Refusal>) -> bool
    ensures { result ≡ same_numbers (told a) (told b) }
{
    a.tell() == b.tell()
}

// Whether two images are the same.
#[tactic(auto, unfolding(crate::specs::Passes::same_bytes))]
fn same_image(a: [u8; IMAGE_LENGTH], b: [u8; IMAGE_LENGTH]) -> bool
    ensures { result ≡ same_bytes a b }
{
    a == b
}

// Whether the answer and the image are those that are expected.
pub(crate) fn as_said(
    a: Result<Answer, Refusal>,
    answer: Result<Answer, Refusal>,
    image: [u8; IMAGE_LENGTH],
    after: [u8; IMAGE_LENGTH],
) -> bool
    ensures { result ≡ (same_numbers (told a) (told answer) && same_bytes image after) }
{
    same_answer(a, answer) & same_image(image, after)
}
