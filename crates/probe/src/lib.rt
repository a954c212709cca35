// What the tests and the bench call of base64url, json, spelling and same beside the host's own functions. The gateway does not
// link this.
#![tactic(auto)]

ghost use Rattle.std.specs.Prelude.{cond, ◌≡◌, ◌-◌, ◌^◌, min, length};
ghost use Rattle.base64url.specs.Base64url.{encoded_length};
ghost use Rattle.base64url.specs.Answers.{check_number, check_answer, encode_number, encode_next, encode_answer};
ghost use Rattle.base64url.specs.Answers.{encode_buffer};
ghost use Rattle.grammar.specs.Reader.{read_text, value_at};
ghost use Rattle.json_read.specs.Inner.Ends.{found_of};
ghost use Rattle.grammar.specs.Spellings.{alike, has};
ghost use Rattle.json_read.specs.Inner.Numbers.{judge_refusal, value_kind, found_end};
ghost use Rattle.probe.specs.Inner.Texts.{texts_same};

use json_read::Position;
use same::Value;

// 0 or 5.
#[unsafe(no_mangle)]
pub extern "C" fn probe_check(text: &[u8]) -> u32
    ensures { result ≡ check_number (check_answer text.now) }
{
    let answer = base64url::check(text);
    match answer {
        Ok(()) => 0,
        Err(_) => 5,
    }
}

// How many characters n octets make, or the largest number.
#[unsafe(no_mangle)]
pub extern "C" fn probe_encoded_length(n: usize) -> usize
    ensures { result ≡ min (encoded_length n) (2 ^ 64 - 1) }
{
    base64url::encoded_length(n)
}

// 0 or 1; *end is the position after the text, or 0.
#[unsafe(no_mangle)]
pub extern "C" fn probe_encode(octets: &[u8], out: &mut [u8], at: usize, end: &mut usize) -> u32
    ensures value { result ≡ encode_number (encode_answer octets.now at (length out.old)) }
    ensures end_after { end.new ≡ encode_next (encode_answer octets.now at (length out.old)) }
    ensures out_after { out.new ≡ encode_buffer octets.now at out.old }
{
    let answer = base64url::encode(octets, out, at);
    match answer {
        Some(next) => {
            *end = next;
            0
        }
        None => {
            *end = 0;
            1
        }
    }
}

// 0 or 7: whether a text is one JSON object of so many levels; *end is the position after the object, or 0.
#[unsafe(no_mangle)]
pub extern "C" fn probe_judge(text: &[u8], levels: u32, end: &mut usize) -> u32
    ensures value { result ≡ judge_refusal (found_of (read_text levels text.now)) }
    ensures end_after { end.new ≡ found_end (found_of (read_text levels text.now)) }
{
    let answer = json_read::judge(text, levels);
    match answer {
        Some(object) => {
            *end = object.end.at;
            0
        }
        None => {
            *end = 0;
            7
        }
    }
}

// 1 where two spellings say the same, or 0.
#[unsafe(no_mangle)]
pub extern "C" fn probe_alike(a: &[u8], b: &[u8]) -> u32
    ensures { result ≡ cond (alike a.now b.now) 1 0 }
{
    if spelling::alike(a, b) { 1 } else { 0 }
}

// 1 where a spelling has the octets w, or 0.
#[unsafe(no_mangle)]
pub extern "C" fn probe_has(a: &[u8], w: &[u8]) -> u32
    ensures { result ≡ cond (has a.now w.now) 1 0 }
{
    if spelling::has(a, w) { 1 } else { 0 }
}

// The kind of the value of so many levels that begins at an offset, or 7 where none does; *end is the position after it, or
// 0.
#[unsafe(no_mangle)]
pub extern "C" fn probe_value(text: &[u8], at: usize, levels: u32, end: &mut usize) -> u32
    ensures value { result ≡ value_kind (found_of (value_at levels text.now at)) }
    ensures end_after { end.new ≡ found_end (found_of (value_at levels text.now at)) }
{
    let answer = Position { at }.value(text, levels);
    match answer {
        Some(found) => {
            *end = found.end.at;
            found.kind as u32
        }
        None => {
            *end = 0;
            7
        }
    }
}

// 2 where one of two texts is no object of at most 12 levels; else 1 where they are the same as values, or 0.
#[unsafe(no_mangle)]
pub extern "C" fn probe_same(s: &[u8], t: &[u8]) -> u32
    ensures { result ≡ texts_same s.now t.now (found_of (read_text 12 s.now)) (found_of (read_text 12 t.now)) }
{
    let Some(one) = json_read::judge(s, 12) else {
        return 2;
    };
    let Some(other) = json_read::judge(t, 12) else {
        return 2;
    };
    let first = Position { at: 0 }.skip_space(s);
    let begin = Position { at: 0 }.skip_space(t);
    let a = Value {
        start: first.at,
        len: prelude::minus(one.end.at, first.at),
        kind: one.kind,
    };
    let b = Value {
        start: begin.at,
        len: prelude::minus(other.end.at, begin.at),
        kind: other.kind,
    };
    let mut work = [0u32; 262144];
    if same::same(s, t, a, b, 12, &mut work) {
        1
    } else {
        0
    }
}
