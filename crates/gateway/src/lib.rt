// The public face: what users call. Each function is thin over a crate below and has its full contract. The demands and the
// samples of the papers stand in proofs/.
#![tactic(auto)]

ghost use Rattle.std.specs.Prelude.{◌≡◌, not, length};
ghost use Rattle.jwe.specs.Judge.{call, result_of, header_after, list_after};
ghost use Rattle.jwe.specs.Answers.{numbers, as_result};
ghost use Rattle.prelude.specs.Refusals.{as_stage};
ghost use Rattle.base64url.specs.Answers.{Decodes};
ghost use Rattle.shown.specs.Shown.{component_shown, component_at, value_shown, value_at};
ghost use Rattle.aad.specs.Aad.{Joins};
ghost use Rattle.jwe_write.specs.Write.{raw};
ghost use Rattle.jwe_write.specs.Answers.{WritesCompact};
ghost use Rattle.json_message.specs.JsonWrite.{raw_json};
ghost use Rattle.json_write.specs.Answers.{WritesJson};
ghost use Rattle.differences.specs.Answers.{both_accepted, as_answer, is_refused, Compares};

use base64url::DecodeError;
use differences::Unanswered;
use jwe::Reading;
use prelude::Place;
use prelude::refusal::Refusal;

// The header walk (document 01, 'Further requests'): `open_walk` opens it on a text, and each `next_member` hands out one
// member, then the end. For callers that want no struct, `walk_start` and `walk_step` take the text and an offset.
pub use walk::{
    HeaderWalk, next as next_member, open as open_walk, open_at as walk_start, step as walk_step,
};

// Reads a message for a recipient. `known` lists the extension names that the caller knows. Accepted, the header buffer begins
// with the decoded protected header and the list with six numbers a parameter; the rest of both is unchanged. Refused, both
// are unchanged.
pub fn read(
    message: &[u8],
    known: &[u8],
    recipient: u32,
    header: &mut [u8],
    list: &mut [u32],
) -> Result<Reading, Refusal>
    ensures answered { numbers (as_result result)
        ≡ result_of (call message.now known.now recipient
        (length header.old) (length list.old)) }
    ensures decoded { header.new
        ≡ header_after (call message.now known.now recipient
        (length header.old) (length list.old)) header.old }
    ensures listed { list.new
        ≡ list_after (call message.now known.now recipient
        (length header.old) (length list.old)) list.old }
{
    jwe::read(message, known, recipient, header, list)
}

// A component of the result as that part of the message; the empty part where the place does not fit.
pub fn component(message: &[u8], place: Place) -> &[u8]
    ensures octets { result.now ≡ component_shown message.now place.start place.len }
    ensures place { result.ref_ptr ≡ component_at message.entry place.start place.len }
{
    shown::component(message, place.start, place.len)
}

// A value of the list, by its entry's origin and place, as a part of the decoded header (origin 0) or of the message (1 and
// 2). Another origin, or a place that does not fit, gives the empty part of the message.
pub fn value<'a>(
    message: &'a [u8],
    header: &'a [u8],
    origin: u32,
    start: usize,
    len: usize,
) -> &'a [u8]
    ensures octets { result.now ≡ value_shown message.now header.now origin start len }
    ensures place { result.ref_ptr ≡ value_at message.entry header.entry origin start len }
{
    shown::value(message, header, origin, start, len)
}

// Decodes one component: 5 where it is not base64url, then 1 where the output is shorter than the octets. They are at the
// output's start, and the rest of it is unchanged; refused, all of it is.
pub fn decode(text: &[u8], out: &mut [u8]) -> Result<usize, DecodeError>
    ensures { Decodes text.now out.old result out.new }
{
    base64url::decode(text, out)
}

// Writes the additional authenticated data of an encoded protected header and an encoded aad, either of which may be empty, at
// the output's start; the rest of it is unchanged, and all of it where there is too little room.
pub fn aad(header: &[u8], aad: &[u8], out: &mut [u8]) -> Option<usize>
    ensures { Joins header.now aad.now out.old result out.new }
{
    aad::join(header, aad, out)
}

// Writes the compact message of a header's text and the raw other components. `known` lists the extension names that the
// caller knows. The message is at the output's start, and the rest of it is unchanged; refused, all of it is.
pub fn write(
    header: &[u8],
    key: &[u8],
    iv: &[u8],
    ciphertext: &[u8],
    tag: &[u8],
    known: &[u8],
    out: &mut [u8],
) -> Result<usize, Refusal>
    ensures { WritesCompact
        (raw header.now key.now iv.now ciphertext.now tag.now)
        known.now out.old (as_stage result) out.new }
{
    jwe_write::write(header, key, iv, ciphertext, tag, known, out)
}

// Writes the general or the flattened message of the texts of the protected and the shared header, each absent where it is empty,
// the raw other components and the recipients, contents first. `known` lists the extension names that the caller knows. The message
// is at the output's start, and the rest of it is unchanged; refused, all of it is.
pub fn write_json(
    general: bool,
    protected: &[u8],
    shared: &[u8],
    aad: &[u8],
    iv: &[u8],
    ciphertext: &[u8],
    tag: &[u8],
    known: &[u8],
    recipients: &[u8],
    out: &mut [u8],
) -> Result<usize, Refusal>
    ensures { WritesJson general
        (raw_json protected.now shared.now aad.now iv.now ciphertext.now
        tag.now recipients.now)
        known.now out.old (as_stage result) out.new }
{
    json_write::write(
        general, protected, shared, aad, iv, ciphertext, tag, known, recipients, out,
    )
}

// What differs between two messages: how many lines there are, or why none are given. `known` lists the extension names that the caller
// knows. Both messages are judged as for recipient 0.
// Where both are accepted and the list holds all lines, it begins with them, eight numbers each, and the rest of it is unchanged; elsewhere
// all of it is, and there are no lines.
pub fn differences(
    left: &[u8],
    right: &[u8],
    known: &[u8],
    list: &mut [u32],
) -> Result<usize, Unanswered>
    ensures compares { Compares left.now right.now known.now list.old (as_answer result) list.new }
    ensures refused { is_refused result ≡ not (both_accepted left.now right.now known.now) }
{
    differences::compare(left, right, known, list)
}
