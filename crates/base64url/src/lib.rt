// Base64url without padding (RFC 4648 section 5): check, decode and encode. What each function answers stands in
// specs/: `Base64url` has the alphabet and the groups, `Fault` what is wrong with a text, `Answers` the answers.
#![tactic(auto)]

ghost use Rattle.std.specs.Prelude.{◌≡◌, ◌+◌, ◌-◌, ◌^◌, ◌≤◌, min, length};
ghost use Rattle.prelude.specs.Buffer.{written};
ghost use Rattle.base64url.specs.Base64url.{encoded, encoded_length, decoded_length};
ghost use Rattle.base64url.specs.Answers.{check_answer, Decodes, encode_answer, encode_buffer};

use std::error::Error;
use std::fmt;

mod by_groups;
mod decoding;
mod encoding;
mod faults;
mod step;

// Why a text is not decoded.
#[derive(Clone, Copy, Debug, PartialEq, Eq)]
pub enum DecodeError {
    // The text is not base64url.
    Misspelled,
    // The buffer is shorter than the octets.
    Short,
}

impl fmt::Display for DecodeError {
    fn fmt<W: fmt::Write>(&self, f: &mut fmt::Formatter<W>) -> fmt::Result {
        match self {
            DecodeError::Misspelled => write!(f, "not base64url"),
            DecodeError::Short => write!(f, "too little room for the octets"),
        }
    }
}

impl Error for DecodeError {}

// Whether a text is base64url: document 01's 5 where it is not.
pub fn check(text: &[u8]) -> Result<(), DecodeError>
    ensures { result ≡ check_answer text.now }
{
    if !faults::in_alphabet(text) || text.len() % 4 == 1 || faults::spare_bits(text) != 0 {
        return Err(DecodeError::Misspelled);
    }
    Ok(())
}

// How many characters n octets make, floor((4n+2)/3), or the largest number where that does not fit. No slice is so
// long that it is met.
pub fn encoded_length(n: usize) -> usize
    ensures { result ≡ min (encoded_length n) (2 ^ 64 - 1) }
{
    (n / 3)
        .saturating_mul(4)
        .saturating_add((n % 3 * 4 + 2) / 3)
}

// How many octets n characters make, floor(3n/4).
pub fn decoded_length(n: usize) -> usize
    ensures { result ≡ decoded_length n }
{
    n / 4 * 3 + n % 4 * 3 / 4
}

// Decodes a text into out, and answers how many octets that is: document 01's 5, then 1 if out is shorter than the octets.
// Refused, out is unchanged.
pub fn decode(text: &[u8], out: &mut [u8]) -> Result<usize, DecodeError>
    ensures { Decodes text.now out.old result out.new }
{
    check(text)?;
    let n = decoded_length(text.len());
    if out.len() < n {
        return Err(DecodeError::Short);
    }
    decoding::decode(text, &mut out[..n]);
    Ok(n)
}

// The text of octets, written from a position on: whole blocks, then what is left. Answers the position after it.
pub fn encode_at(octets: &[u8], out: &mut [u8], at: usize) -> usize
    requires { at + length (encoded octets.now) ≤ length out.old }
    ensures value { result ≡ at + length (encoded octets.now) }
    ensures out_after { out.new ≡ written at (encoded octets.now) out.old }
{
    let mut j = at;
    let (blocks, rest) = octets.as_chunks::<48>();
    for block in blocks {
        encoding::encode_block(block, &mut out[j..j + 64]);
        j += 64;
    }
    let end = j + encoded_length(rest.len());
    encoding::encode_few(rest, &mut out[j..end]);
    end
}

// Encodes octets into out from a position on, and answers the position after the text. None is document 01's 1: the text
// does not fit, and out is unchanged.
pub fn encode(octets: &[u8], out: &mut [u8], at: usize) -> Option<usize>
    ensures value { result ≡ encode_answer octets.now at (length out.old) }
    ensures out_after { out.new ≡ encode_buffer octets.now at out.old }
{
    if out.len() < at || out.len() - at < encoded_length(octets.len()) {
        return None;
    }
    Some(encode_at(octets, out, at))
}
