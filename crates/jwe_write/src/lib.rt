// The compact writer (RFC 7516, section 7.1). What it writes and answers stands in specs/: `Write` has the refusals in
// order, `Answers` the answers.
#![tactic(auto)]

ghost use Rattle.std.specs.Prelude.{◌≡◌, true, ◌∷◌, ◌+◌, ◌≤◌, min, length};
ghost use Rattle.prelude.specs.Buffer.{written};
ghost use Rattle.prelude.specs.Limits.{header_room, longest};
ghost use Rattle.base64url.specs.Base64url.{encoded};
ghost use Rattle.names.specs.Names.{names, filled};
ghost use Rattle.rows.specs.Rows.{one_text};
ghost use Rattle.prelude.specs.Refusals.{first, stage_of, as_stage};
ghost use Rattle.jose.specs.HeaderRules.{mode_in};
ghost use Rattle.prelude.specs.Ascii.{full_stop};
ghost use Rattle.headers.specs.Headers.{text_order, protected_entries};
ghost use Rattle.jwe_write.specs.Write.{raw, compact_text, parameters_order};
ghost use Rattle.jwe_write.specs.Answers.{WritesCompact};

use jose::Sizes;
use prelude::limits::{HEADER_ROOM, LEVELS, LONGEST};
use prelude::refusal::Refusal;
use rows::table::{Entries, Headers, Texts};

// The header

// 6 and 7 on its text: how long it is.
fn text(header: &[u8]) -> Result<usize, Refusal>
    ensures { as_stage result ≡ stage_of (first (text_order header.now)) (length header.now) }
{
    if HEADER_ROOM < header.len() {
        return Err(Refusal::LongHeader);
    }
    let Some(_) = json_read::judge(header, LEVELS) else {
        return Err(Refusal::Unread);
    };
    Ok(header.len())
}

// 8, 9 and 13 to 18 on its parameters: the mode of the algorithm.
fn parameters(header: &[u8], known: &[u8], sizes: Sizes) -> Result<usize, Refusal>
    requires header_len_bound { length header.now ≤ header_room }
    requires known_value { filled known.now ≡ true }
    ensures { as_stage result ≡ stage_of (first (parameters_order (names known.now) header.now sizes)) (mode_in (one_text header.now) (protected_entries header.now)) }
{
    let mut table = [0u32; rows::layout::HEADER_TABLE];
    let count = headers::protected_entries(header, &mut table)?;
    let texts = Texts {
        header,
        shared: header,
        own: header,
    };
    let entries = Entries {
        table: &table,
        count,
    };
    let only = Headers { texts, entries };
    jose::judge::judge_protected(only, known, sizes)
}

// The message

// One octet more than a message may have: where it would have more, lengths stop here.
const OVER: usize = LONGEST + 1;

// How many characters a component has encoded, at most `OVER`.
fn measure(octets: &[u8]) -> usize
    ensures { result ≡ min (length (encoded octets.now)) (longest + 1) }
{
    let n = base64url::encoded_length(octets.len());
    if OVER < n {
        return OVER;
    }
    n
}

// How many octets the message has, at most `OVER`.
fn message_length(header: &[u8], key: &[u8], iv: &[u8], ciphertext: &[u8], tag: &[u8]) -> usize
    ensures { result ≡ min (length (compact_text (raw header.now key.now iv.now ciphertext.now tag.now))) (longest + 1) }
{
    let n = measure(header) + measure(key) + measure(iv) + measure(ciphertext) + measure(tag) + 4;
    if OVER < n {
        return OVER;
    }
    n
}

// A component encoded, written from a position on. Answers the position after it.
fn put(octets: &[u8], out: &mut [u8], at: usize) -> usize
    requires { at + length (encoded octets.now) ≤ length out.old }
    ensures value { result ≡ at + length (encoded octets.now) }
    ensures out_after { out.new ≡ written at (encoded octets.now) out.old }
{
    base64url::encode_at(octets, out, at)
}

// A full stop and a component encoded, written from a position on. Answers the position after them.
fn put_next(octets: &[u8], out: &mut [u8], at: usize) -> usize
    requires { at + length (full_stop ∷ encoded octets.now) ≤ length out.old }
    ensures value { result ≡ at + length (full_stop ∷ encoded octets.now) }
    ensures out_after { out.new ≡ written at (full_stop ∷ encoded octets.now) out.old }
{
    out[at] = b'.';
    put(octets, out, at + 1)
}

// The message, written at the start. Answers its length.
fn put_message(
    header: &[u8],
    key: &[u8],
    iv: &[u8],
    ciphertext: &[u8],
    tag: &[u8],
    out: &mut [u8],
) -> usize
    requires { length (compact_text (raw header.now key.now iv.now ciphertext.now tag.now)) ≤ length out.old }
    ensures value { result ≡ length (compact_text (raw header.now key.now iv.now ciphertext.now tag.now)) }
    ensures out_after { out.new ≡ written 0 (compact_text (raw header.now key.now iv.now ciphertext.now tag.now)) out.old }
{
    let a = put(header, out, 0);
    let b = put_next(key, out, a);
    let c = put_next(iv, out, b);
    let d = put_next(ciphertext, out, c);
    put_next(tag, out, d)
}

// Writes the compact message of a header's text and the raw other components. `known` lists the extension names that the
// caller knows. It answers the octets written, which are the message, at the output's start; the rest of the output is
// unchanged. Refused, all of it is.
pub fn write(
    header: &[u8],
    key: &[u8],
    iv: &[u8],
    ciphertext: &[u8],
    tag: &[u8],
    known: &[u8],
    out: &mut [u8],
) -> Result<usize, Refusal>
    ensures { WritesCompact (raw header.now key.now iv.now ciphertext.now tag.now) known.now out.old (as_stage result) out.new }
{
    if !names::sound(known) {
        return Err(Refusal::KnownNames);
    }
    text(header)?;
    let sizes = Sizes {
        key: key.len(),
        iv: iv.len(),
        ciphertext: ciphertext.len(),
        tag: tag.len(),
    };
    parameters(header, known, sizes)?;
    let n = message_length(header, key, iv, ciphertext, tag);
    if LONGEST < n {
        return Err(Refusal::LongMessage);
    }
    if out.len() < n {
        return Err(Refusal::ShortOutput);
    }
    Ok(put_message(header, key, iv, ciphertext, tag, out))
}
