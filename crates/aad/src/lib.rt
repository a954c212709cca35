// The additional authenticated data (RFC 7516, section 5.1, step 14) of a message. What is answered and written stands in
// specs/Aad.
#![tactic(auto)]

ghost use Rattle.std.specs.Prelude.{◌≡◌, ◌∷◌, ◌++◌, ◌+◌, ◌≤◌, length};
ghost use Rattle.prelude.specs.Ascii.{full_stop};
ghost use Rattle.prelude.specs.Buffer.{written};
ghost use Rattle.aad.specs.Aad.{Joins};

// A header, a full stop and an aad, written at the start. Answers how many octets they are.
fn put(header: &[u8], aad: &[u8], out: &mut [u8]) -> usize
    requires { length header.now + 1 + length aad.now ≤ length out.old }
    ensures value { result ≡ length (header.now ++ (full_stop ∷ aad.now)) }
    ensures out_after { out.new ≡ written 0 (header.now ++ (full_stop ∷ aad.now)) out.old }
{
    let stop = header.len();
    let next = stop + 1;
    prelude::copy_octets(header, out, 0);
    out[stop] = b'.';
    prelude::copy_octets(aad, out, next);
    next + aad.len()
}

// Writes the AAD of an encoded protected header and an encoded aad, either of which may be empty, at the output's start, and
// answers how many octets it is. The rest is unchanged; all of it is where there is too little room, and the answer None.
// The lengths are not added up before it is known that the sum fits.
pub fn join(header: &[u8], aad: &[u8], out: &mut [u8]) -> Option<usize>
    ensures { Joins header.now aad.now out.old result out.new }
{
    let room = out.len().checked_sub(header.len())?;
    if aad.is_empty() {
        prelude::copy_octets(header, out, 0);
        return Some(header.len());
    }
    if room <= aad.len() {
        return None;
    }
    Some(put(header, aad, out))
}
