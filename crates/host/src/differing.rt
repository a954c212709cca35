// What differs between two messages, for C.
ghost use Rattle.std.specs.Prelude.{◌≡◌};
ghost use Rattle.differences.specs.Answers.{answer_of, refusal_number, Compares};

use differences::Unanswered;
use prelude::refusal::Refusal;

// The number of a refusal, 0 where there is none.
fn number_or_0(refusal: Option<Refusal>) -> u32
    ensures { result ≡ refusal_number refusal }
{
    match refusal {
        Some(e) => e.number(),
        None => 0,
    }
}

// Compares two messages: the own number, 1 where both are accepted and the list cannot hold all lines. *left_refusal and *right_refusal are
// the messages' refusals as for recipient 0 given room, *lines is how many lines the list begins with, eight numbers each; its rest is
// unchanged. Where any refuses there are none, and all of the list is unchanged.
pub fn jwe_differences(
    left: &[u8],
    right: &[u8],
    known: &[u8],
    list: &mut [u32],
    left_refusal: &mut u32,
    right_refusal: &mut u32,
    lines: &mut usize,
) -> u32
    ensures { Compares left.now right.now known.now list.old
        (answer_of result left_refusal.new right_refusal.new lines.new) list.new }
{
    let (number, l, r, count) = match gateway::differences(left, right, known, list) {
        Ok(count) => (0, None, None, count),
        Err(Unanswered::ShortOutput) => (1, None, None, 0),
        Err(Unanswered::Refused { left: l, right: r }) => (0, l, r, 0),
    };
    *left_refusal = number_or_0(l);
    *right_refusal = number_or_0(r);
    *lines = count;
    number
}
