// Encoding: whole blocks of 48 octets become words of six, then eight values of each word, then characters; what is left
// goes group by group. As in decoding, the steps between are local arrays.
ghost use Rattle.std.specs.Prelude.{◌≡◌, ◌≤◌, map, length};
ghost use Rattle.prelude.specs.Buffer.{AllBelow};
ghost use Rattle.base64url.specs.Base64url.{character, encoded};
ghost use Rattle.base64url.specs.Inner.Words.{spread_of, spread_all, sixes_of};

use crate::{by_groups, step};

// The words of a block's octets: six octets as the upper 48 bits of a number, the first the highest.
fn block_sixes(octets: &[u8; 48], words: &mut [u64; 8])
    ensures { words.new ≡ sixes_of octets.now }
{
    let (sixes, _) = octets.as_chunks::<6>();
    for (g, &[a, b, c, d, e, f]) in sixes.iter().enumerate() {
        words[g] = u64::from_be_bytes([a, b, c, d, e, f, 0, 0]);
    }
}

// The upper 48 bits of a number as eight octets of six bits, the first the lowest.
fn spread(w: u64) -> u64
    ensures { result ≡ spread_of w }
{
    let z = w / 0x100_0000_0000 + w / 0x1_0000 % 0x100_0000 * 0x1_0000_0000;
    let y = (z / 0x1000 & 0x0000_0FFF_0000_0FFF) + (z & 0x0000_0FFF_0000_0FFF) * 0x1_0000;
    (y / 0x40 & 0x003F_003F_003F_003F) + (y & 0x003F_003F_003F_003F) * 0x100
}

// The values of a block's words, eight stored at once.
fn block_sextets(words: &[u64; 8], six: &mut [u8; 64])
    ensures { six.new ≡ spread_all words.now }
{
    for (g, &w) in words.iter().enumerate() {
        six[8 * g..8 * g + 8].copy_from_slice(&spread(w).to_le_bytes());
    }
}

// The characters of values.
fn characters(six: &[u8], out: &mut [u8])
    requires all_below { AllBelow 64 six.now }
    requires out_len { length out.old ≡ length six.now }
    ensures { out.new ≡ map character six.now }
{
    for (k, &v) in six.iter().enumerate() {
        out[k] = step::character(v);
    }
}

// The text of a block.
pub(crate) fn encode_block(octets: &[u8; 48], out: &mut [u8])
    requires { length out.old ≡ length (encoded octets.now) }
    ensures { out.new ≡ encoded octets.now }
{
    let mut words = [0u64; 8];
    let mut six = [0u8; 64];
    block_sixes(octets, &mut words);
    block_sextets(&words, &mut six);
    characters(&six, out);
}

// The text of at most 48 octets.
pub(crate) fn encode_few(octets: &[u8], out: &mut [u8])
    requires octets_len_bound { length octets.now ≤ 48 }
    requires out_len { length out.old ≡ length (encoded octets.now) }
    ensures { out.new ≡ encoded octets.now }
{
    let mut six = [0u8; 64];
    let n = out.len();
    by_groups::split(octets, &mut six[..n]);
    characters(&six[..n], out);
}
