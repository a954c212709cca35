// The reader with its result as numbers.
ghost use Rattle.std.specs.Prelude.{◌≡◌, [], ◌+◌, ◌≤◌, ◌<◌, length};
ghost use Rattle.prelude.specs.Buffer.{AllBelow, written};
ghost use Rattle.prelude.specs.Limits.{number_limit};
ghost use Rattle.prelude.specs.Result.{result_room};
ghost use Rattle.jwe.specs.Judge.{call};
ghost use Rattle.jwe.specs.Answers.{numbers, reading_of, place_numbers};
ghost use Rattle.host.specs.Read.{read_refusal, read_header, read_list, read_result};

use jwe::Reading;
use prelude::Place;
use prelude::refusal::Refusal;

// Where the numbers of a result stand (prelude/specs/Result).
const NUMBER: usize = 0;

const FORM: usize = 1;

const RECIPIENTS: usize = 2;

const MODE: usize = 3;

const PROTECTED: usize = 4;

const KEY: usize = 6;

const IV: usize = 8;

const AAD: usize = 10;

const CIPHERTEXT: usize = 12;

const TAG: usize = 14;

const HEADER: usize = 16;

const PARAMETERS: usize = 17;

// How many they are.
const ROOM: usize = 18;

// A place's two numbers, written from a position on.
fn put_place(place: Place, into: &mut [u32], at: usize)
    requires start_lt_number_limit { place.start < number_limit }
    requires len_lt_number_limit { place.len < number_limit }
    requires at_in_bounds { at + 2 ≤ length into.old }
    ensures { into.new ≡ written at (place_numbers place []) into.old }
{
    into[at] = place.start as u32;
    into[at + 1] = place.len as u32;
}

// The numbers of a result, written at the start of a buffer.
fn put_result(r: Reading, into: &mut [u32])
    requires all_below { AllBelow number_limit (numbers (reading_of r)) }
    requires result_room_in_bounds { result_room ≤ length into.old }
    ensures { into.new ≡ written 0 (numbers (reading_of r)) into.old }
{
    into[NUMBER] = 0;
    into[FORM] = r.form;
    into[RECIPIENTS] = r.recipients as u32;
    into[MODE] = r.mode;
    put_place(r.components.protected, into, PROTECTED);
    put_place(r.components.key, into, KEY);
    put_place(r.components.iv, into, IV);
    put_place(r.components.aad, into, AAD);
    put_place(r.components.ciphertext, into, CIPHERTEXT);
    put_place(r.components.tag, into, TAG);
    into[HEADER] = r.header as u32;
    into[PARAMETERS] = r.parameters as u32;
}

// Reads a message. Answers 0 and the result's numbers at the start of `res`, or the refusal's number; that is 1
// as well where too few numbers are lent for them. Refused, `res` is unchanged.
pub fn jwe_read(
    message: &[u8],
    known: &[u8],
    recipient: u32,
    header: &mut [u8],
    list: &mut [u32],
    res: &mut [u32],
) -> u32
    ensures answered { result
        ≡ read_refusal (call message.now known.now recipient
        (length header.old) (length list.old)) (length res.old) }
    ensures decoded { header.new
        ≡ read_header (call message.now known.now recipient
        (length header.old) (length list.old)) (length res.old) header.old }
    ensures listed { list.new
        ≡ read_list (call message.now known.now recipient
        (length header.old) (length list.old)) (length res.old) list.old }
    ensures numbered { res.new
        ≡ read_result (call message.now known.now recipient
        (length header.old) (length list.old)) res.old }
{
    if res.len() < ROOM {
        return Refusal::ShortOutput.number();
    }
    match gateway::read(message, known, recipient, header, list) {
        Ok(reading) => {
            put_result(reading, res);
            0
        }
        Err(refusal) => refusal.number(),
    }
}
