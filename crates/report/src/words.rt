// Words and numbers with an octet behind each, written from a position on. Each function answers the position after them.
ghost use Rattle.std.specs.Prelude.{◌≡◌, ◌+◌, ◌≤◌, length};
ghost use Rattle.prelude.specs.Buffer.{written};
ghost use Rattle.report.specs.Text.{decimal, word, said, ended};

pub(crate) fn put_word(word: &[u8], end: u8, out: &mut [u8], at: usize) -> usize
    requires { at + length (ended word.now end) ≤ length out.old }
    ensures value { result ≡ at + length (ended word.now end) }
    ensures out_after { out.new ≡ written at (ended word.now end) out.old }
{
    prelude::copy_octets(word, out, at);
    let last = at + word.len();
    out[last] = end;
    last + 1
}

// A number's decimal digits: those of its tenth, and the last one.
fn put_digits(n: usize, out: &mut [u8], at: usize) -> usize
    requires { at + length (decimal n) ≤ length out.old }
    ensures value { result ≡ at + length (decimal n) }
    ensures out_after { out.new ≡ written at (decimal n) out.old }
{
    if n < 10 {
        out[at] = b'0' + n as u8;
        return at + 1;
    }
    let last = put_digits(n / 10, out, at);
    out[last] = b'0' + (n % 10) as u8;
    last + 1
}

pub(crate) fn put_number(n: usize, end: u8, out: &mut [u8], at: usize) -> usize
    requires { at + length (ended (decimal n) end) ≤ length out.old }
    ensures value { result ≡ at + length (ended (decimal n) end) }
    ensures out_after { out.new ≡ written at (ended (decimal n) end) out.old }
{
    let last = put_digits(n, out, at);
    out[last] = end;
    last + 1
}

// The n-th word, counted from 1; the first for 0, and the last where there are fewer.
pub(crate) fn put_named(words: &[&str], n: usize, end: u8, out: &mut [u8], at: usize) -> usize
    requires bound { 1 ≤ length words.now }
    requires end_in_bounds { at + length (ended (word n (said words.now)) end) ≤ length out.old }
    ensures value { result ≡ at + length (ended (word n (said words.now)) end) }
    ensures out_after { out.new ≡ written at (ended (word n (said words.now)) end) out.old }
{
    let i = n.saturating_sub(1).min(words.len() - 1);
    put_word(words[i].as_bytes(), end, out, at)
}
