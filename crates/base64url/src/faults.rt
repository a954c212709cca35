// What is wrong with a text: characters outside the alphabet, and bits of the last one that belong to no octet.
ghost use Rattle.std.specs.Prelude.{◌≡◌, map, eqb, leb};
ghost use Rattle.prelude.specs.Buffer.{AllBelow};
ghost use Rattle.base64url.specs.Base64url.{six_bits};
ghost use Rattle.base64url.specs.Fault.{count_outside, spare_bits};

use crate::step;
use blocks::Kind;

// A character outside the alphabet.
#[derive(Clone, Copy)]
struct Outside;

impl Kind for Outside {
    ghost has = { λ kind c. leb 64 (six_bits c) };

    fn has(self, c: u8) -> bool {
        step::outside(c)
    }
}

// Whether every character is in the alphabet.
pub(crate) fn in_alphabet(text: &[u8]) -> bool
    ensures { result ≡ eqb (count_outside text.now) 0 }
{
    !blocks::any::<Outside, 192>(Outside, text)
}

// The bits of the last character that belong to no octet. One character is not worth a table.
pub(crate) fn spare_bits(text: &[u8]) -> u8
    requires { AllBelow 64 (map six_bits text.now) }
    ensures { result ≡ spare_bits text.now }
{
    let n = text.len();
    if n % 4 == 2 {
        return step::value(text[n - 1]) % 16;
    }
    if n % 4 == 3 {
        return step::value(text[n - 1]) % 4;
    }
    0
}
