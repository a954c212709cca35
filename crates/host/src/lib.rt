// The functions that the gateway's C program links, as `host_c` exports them. include/jwe_gateway.h declares them for C. Each
// answers document 01's refusal, 0 where there is none; where octets are written, *octets is how many, 0 where refused.
// Refused, every lent buffer is unchanged.
#![tactic(auto)]

ghost use Rattle.std.specs.Prelude.{◌≡◌, length, true, false};
ghost use Rattle.prelude.specs.Outputs.{Writes};
ghost use Rattle.base64url.specs.Base64url.{decoded};
ghost use Rattle.base64url.specs.Answers.{decode_refusal};
ghost use Rattle.aad.specs.Aad.{aad_text, aad_refusal};
ghost use Rattle.prelude.specs.Refusals.{as_stage};
ghost use Rattle.jwe_write.specs.Answers.{write_number, write_count};
ghost use Rattle.jwe_write.specs.Write.{raw, compact_text, write_refusal};
ghost use Rattle.json_message.specs.JsonWrite.{raw_json, written_text, json_write_refusal};

use base64url::DecodeError;
use prelude::refusal::Refusal;

pub mod component;
pub mod differing;
pub mod reading;

// Decodes one component: 5 for a text that is not base64url, 1 where out is shorter than the octets.
pub fn jwe_decode(text: &[u8], out: &mut [u8], octets: &mut usize) -> u32
    ensures { Writes
        (decode_refusal text.now (length out.old))
        (decoded text.now)
        out.old result octets.new out.new }
{
    let answer = gateway::decode(text, out);
    match answer {
        Ok(decoded) => {
            *octets = decoded;
            0
        }
        Err(error) => {
            *octets = 0;
            match error {
                DecodeError::Misspelled => 5,
                DecodeError::Short => 1,
            }
        }
    }
}

// Writes the additional authenticated data of an encoded protected header and an encoded aad; only 1 can refuse.
pub fn jwe_aad(encoded_header: &[u8], encoded_aad: &[u8], out: &mut [u8], octets: &mut usize) -> u32
    ensures { Writes
        (aad_refusal encoded_header.now encoded_aad.now (length out.old))
        (aad_text encoded_header.now encoded_aad.now)
        out.old result octets.new out.new }
{
    match gateway::aad(encoded_header, encoded_aad, out) {
        Some(joined) => {
            *octets = joined;
            0
        }
        None => {
            *octets = 0;
            1
        }
    }
}

// What C is told of a message that is written: its length, and 0; or 0 octets, and the refusal's number.
fn tell(answer: Result<usize, Refusal>, octets: &mut usize) -> u32
    ensures number { result ≡ write_number (as_stage answer) }
    ensures count { octets.new ≡ write_count (as_stage answer) }
{
    match answer {
        Ok(written) => {
            *octets = written;
            0
        }
        Err(refusal) => {
            *octets = 0;
            refusal.number()
        }
    }
}

// Writes the compact message of a header's text and the raw other components.
pub fn jwe_write_compact(
    header: &[u8],
    key: &[u8],
    iv: &[u8],
    ciphertext: &[u8],
    tag: &[u8],
    known: &[u8],
    out: &mut [u8],
    octets: &mut usize,
) -> u32
    ensures { Writes
        (write_refusal
        (raw header.now key.now iv.now ciphertext.now tag.now)
        known.now (length out.old))
        (compact_text
        (raw header.now key.now iv.now ciphertext.now tag.now))
        out.old result octets.new out.new }
{
    let compact = gateway::write(header, key, iv, ciphertext, tag, known, out);
    tell(compact, octets)
}

// Writes the flattened message of the headers' texts, the raw other components and one recipient, contents first.
pub fn jwe_write_flattened(
    protected: &[u8],
    shared: &[u8],
    aad: &[u8],
    iv: &[u8],
    ciphertext: &[u8],
    tag: &[u8],
    known: &[u8],
    recipients: &[u8],
    out: &mut [u8],
    octets: &mut usize,
) -> u32
    ensures { Writes
        (json_write_refusal false
        (raw_json protected.now shared.now aad.now iv.now
        ciphertext.now tag.now recipients.now)
        known.now (length out.old))
        (written_text false
        (raw_json protected.now shared.now aad.now iv.now
        ciphertext.now tag.now recipients.now))
        out.old result octets.new out.new }
{
    let flattened = gateway::write_json(
        false, protected, shared, aad, iv, ciphertext, tag, known, recipients, out,
    );
    tell(flattened, octets)
}

// Writes the general message of the headers' texts, the raw other components and the recipients, contents first.
pub fn jwe_write_general(
    protected: &[u8],
    shared: &[u8],
    aad: &[u8],
    iv: &[u8],
    ciphertext: &[u8],
    tag: &[u8],
    known: &[u8],
    recipients: &[u8],
    out: &mut [u8],
    octets: &mut usize,
) -> u32
    ensures { Writes
        (json_write_refusal true
        (raw_json protected.now shared.now aad.now iv.now
        ciphertext.now tag.now recipients.now)
        known.now (length out.old))
        (written_text true
        (raw_json protected.now shared.now aad.now iv.now
        ciphertext.now tag.now recipients.now))
        out.old result octets.new out.new }
{
    let general = gateway::write_json(
        true, protected, shared, aad, iv, ciphertext, tag, known, recipients, out,
    );
    tell(general, octets)
}
