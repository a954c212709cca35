// Group by group, four characters and three octets: what is left of a text or of octets where no whole block is.
ghost use Rattle.std.specs.Prelude.{◌≡◌, ◌+◌, ◌*◌, ◌/◌, ◌%◌, ◌<◌, map, length};
ghost use Rattle.prelude.specs.Buffer.{AllBelow};
ghost use Rattle.base64url.specs.Base64url.{six_bits, sextets, decoded};
ghost use Rattle.base64url.specs.Inner.Step.{Tabled};

use crate::step;

// The octets of a group of values p, q, r and s.

fn first_octet(p: u8, q: u8) -> u8
    requires { (p < 64) × (q < 64) }
    ensures { result ≡ p * 4 + q / 16 }
{
    p * 4 + q / 16
}

fn second_octet(q: u8, r: u8) -> u8
    requires { r < 64 }
    ensures { result ≡ q % 16 * 16 + r / 4 }
{
    q % 16 * 16 + r / 4
}

fn third_octet(r: u8, s: u8) -> u8
    requires { s < 64 }
    ensures { result ≡ r % 4 * 64 + s }
{
    r % 4 * 64 + s
}

// The three octets of four characters.
fn decode_four(table: &[u8; 256], text: &[u8; 4]) -> [u8; 3]
    requires tabled { Tabled table.now }
    requires all_below { AllBelow 64 (map six_bits text.now) }
    ensures { result ≡ decoded text.now }
{
    let p = step::six_bits(table, text[0]);
    let q = step::six_bits(table, text[1]);
    let r = step::six_bits(table, text[2]);
    let s = step::six_bits(table, text[3]);
    [first_octet(p, q), second_octet(q, r), third_octet(r, s)]
}

// The octets of fewer than four characters.
fn decode_few(table: &[u8; 256], text: &[u8], out: &mut [u8])
    requires tabled { Tabled table.now }
    requires text_len_bound { length text.now < 4 }
    requires all_below { AllBelow 64 (map six_bits text.now) }
    requires out_len { length out.old ≡ length (decoded text.now) }
    ensures { out.new ≡ decoded text.now }
{
    let n = text.len();
    if n < 2 {
        return;
    }
    let p = step::six_bits(table, text[0]);
    let q = step::six_bits(table, text[1]);
    out[0] = first_octet(p, q);
    if n < 3 {
        return;
    }
    let r = step::six_bits(table, text[2]);
    out[1] = second_octet(q, r);
}

// The octets of a text, group by group. The table is lent, so that it is built once.
pub(crate) fn decode_groups(table: &[u8; 256], text: &[u8], out: &mut [u8])
    requires tabled { Tabled table.now }
    requires all_below { AllBelow 64 (map six_bits text.now) }
    requires out_len { length out.old ≡ length (decoded text.now) }
    ensures { out.new ≡ decoded text.now }
{
    let (groups, rest) = text.as_chunks::<4>();
    for (i, group) in groups.iter().enumerate() {
        out[3 * i..3 * i + 3].copy_from_slice(&decode_four(table, group));
    }
    decode_few(table, rest, &mut out[3 * groups.len()..]);
}

// The values of a group of octets a, b and c, of which the first and the last are plain.

fn second_value(a: u8, b: u8) -> u8
    ensures { result ≡ a % 4 * 16 + b / 16 }
{
    a % 4 * 16 + b / 16
}

fn third_value(b: u8, c: u8) -> u8
    ensures { result ≡ b % 16 * 4 + c / 64 }
{
    b % 16 * 4 + c / 64
}

// The four values of three octets.
fn split_three(octets: &[u8; 3]) -> [u8; 4]
    ensures { result ≡ sextets octets.now }
{
    let [a, b, c] = *octets;
    [a / 4, second_value(a, b), third_value(b, c), c % 64]
}

// The values of fewer than three octets.
fn split_few(octets: &[u8], into: &mut [u8])
    requires octets_len_bound { length octets.now < 3 }
    requires into_len { length into.old ≡ length (sextets octets.now) }
    ensures { into.new ≡ sextets octets.now }
{
    let n = octets.len();
    if n < 1 {
        return;
    }
    into[0] = octets[0] / 4;
    if n < 2 {
        into[1] = second_value(octets[0], 0);
        return;
    }
    into[1] = second_value(octets[0], octets[1]);
    into[2] = third_value(octets[1], 0);
}

// The values of octets, group by group.
pub(crate) fn split(octets: &[u8], into: &mut [u8])
    requires { length into.old ≡ length (sextets octets.now) }
    ensures { into.new ≡ sextets octets.now }
{
    let (groups, rest) = octets.as_chunks::<3>();
    for (i, group) in groups.iter().enumerate() {
        into[4 * i..4 * i + 4].copy_from_slice(&split_three(group));
    }
    split_few(rest, &mut into[4 * groups.len()..]);
}
