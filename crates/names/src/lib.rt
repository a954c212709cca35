// Lists of names, contents first: one octet n, n length octets, then the names one after another. The caller's list of
// extension names has this form, and so have our own tables of names. What each function answers stands in specs/Names.
#![tactic(auto)]

ghost use Rattle.std.specs.Prelude.{◌≡◌, true};
ghost use Rattle.names.specs.Names.{names, filled, sound, number_in};

// The most names of the caller's list.
const MOST_NAMES: usize = 16;

// The most octets of one of them.
const LONGEST_NAME: u8 = 64;

// Whether a lent list is one of at most 16 names of 1 to 64 octets each, which fill it exactly.
pub fn sound(list: &[u8]) -> bool
    ensures { result ≡ sound list.now }
{
    let Some((&n, rest)) = list.split_first() else {
        return false;
    };
    let n = usize::from(n);
    if MOST_NAMES < n || rest.len() < n {
        return false;
    }
    let (lengths, names) = rest.split_at(n);
    let mut total = 0;
    for &k in lengths {
        if k < 1 || LONGEST_NAME < k {
            return false;
        }
        total += usize::from(k);
    }
    total == names.len()
}

// The number of the first name of a list that a spelling has, counted from 1; 0 where it has none.
pub fn find(list: &[u8], spelled: &[u8]) -> u32
    requires { filled list.now ≡ true }
    ensures { result ≡ number_in (names list.now) spelled.now }
{
    let Some((&n, rest)) = list.split_first() else {
        return 0;
    };
    let (lengths, mut names) = rest.split_at(usize::from(n));
    for (i, &k) in lengths.iter().enumerate() {
        let (name, rest) = names.split_at(usize::from(k));
        if spelling::has(spelled, name) {
            return i as u32 + 1;
        }
        names = rest;
    }
    0
}
