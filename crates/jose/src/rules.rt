// The rules on a recipient's entries, one function each (document 01's 13 to 16, and the mode for 18).
ghost use Rattle.std.specs.Prelude.{◌≡◌, true};
ghost use Rattle.names.specs.Names.{names, filled, number_in};
ghost use Rattle.prelude.specs.Any.{any};
ghost use Rattle.rows.specs.Rows.{value_in};
ghost use Rattle.rows.specs.Inner.Views.{the_entry, the_entries, the_texts};
ghost use Rattle.algorithms.specs.Algorithms.{algs, alg_names, nth, mode_of};
ghost use Rattle.jose.specs.Registered.{kind_asked};
ghost use Rattle.jose.specs.HeaderRules.{incomplete, wrong_kind, unlisted, unprotected, mode_in};

use crate::lists::{ALG, CRIT, ENC, JWK, X5C, ZIP};
use algorithms::Alg;
use rows::layout::{ARRAY, OBJECT, STRING};
use rows::table::{Entries, Entry, Texts};

// One more kind, for a name that asks for none.
const ANY_KIND: u32 = 7;

// 13: whether `alg` or `enc` is absent.
#[tactic(auto, unfolding(crate::specs::HeaderRules::incomplete))]
pub fn incomplete(entries: Entries) -> bool
    ensures { result ≡ incomplete (the_entries entries.entry) }
{
    !entries.present(ALG) || !entries.present(ENC)
}

// The kind that the n-th registered name asks for.
#[tactic(auto, unfolding(crate::specs::Registered::kind_asked))]
fn kind_asked(n: u32) -> u32
    ensures { result ≡ kind_asked n }
{
    match n {
        JWK => OBJECT,
        X5C | CRIT => ARRAY,
        ALG..=CRIT => STRING,
        _ => ANY_KIND,
    }
}

fn wrong_kind_at(e: Entry) -> bool
    ensures { result ≡ wrong_kind (the_entry e.entry) }
{
    let asked = kind_asked(e.number());
    asked != ANY_KIND && asked != e.kind()
}

// 14: whether a parameter is of another kind than its name asks for.
pub fn wrong_kind(entries: Entries) -> bool
    ensures { result ≡ any wrong_kind (the_entries entries.entry) }
{
    entries.any(|e| wrong_kind_at(e))
}

// The number of an entry's value in a list of names.
fn number_in(list: &[u8], texts: Texts, e: Entry) -> u32
    requires { filled list.now ≡ true }
    ensures { result ≡ number_in (names list.now) (value_in (the_texts texts.entry) (the_entry e.entry)) }
{
    names::find(list, texts.value(e))
}

fn unlisted_at(texts: Texts, e: Entry) -> bool
    ensures { result ≡ unlisted (the_texts texts.entry) (the_entry e.entry) }
{
    let number = e.number();
    if number == ALG {
        let list = algorithms::ALGS;
        return number_in(&list, texts, e) == 0;
    }
    if number == ENC {
        let list = algorithms::ENCS;
        return number_in(&list, texts, e) == 0;
    }
    if number == ZIP {
        let list = algorithms::ZIPS;
        return number_in(&list, texts, e) == 0;
    }
    false
}

// 15: whether the value of `alg`, `enc` or the compression parameter is not listed.
pub fn unlisted(texts: Texts, entries: Entries) -> bool
    ensures { result ≡ any (unlisted (the_texts texts.entry)) (the_entries entries.entry) }
{
    entries.any(|e| unlisted_at(texts, e))
}

fn unprotected_at(e: Entry) -> bool
    ensures { result ≡ unprotected (the_entry e.entry) }
{
    let number = e.number();
    (number == ZIP || number == CRIT) && e.origin() != 0
}

// 16: whether compression or `crit` stands outside protection.
pub fn unprotected(entries: Entries) -> bool
    ensures { result ≡ any unprotected (the_entries entries.entry) }
{
    entries.any(|e| unprotected_at(e))
}

fn mode_at(texts: Texts, e: Entry) -> u32
    ensures { result ≡ mode_of (nth algs (number_in alg_names (value_in (the_texts texts.entry) (the_entry e.entry)))) }
{
    let list = algorithms::ALGS;
    match Alg::numbered(number_in(&list, texts, e)) {
        Some(alg) => alg.mode(),
        None => 0,
    }
}

// The mode of the algorithm that the first `alg` names; 0 where none is named or listed.
pub fn mode(texts: Texts, entries: Entries) -> u32
    ensures { result ≡ mode_in (the_texts texts.entry) (the_entries entries.entry) }
{
    for i in 0..entries.count {
        let e = entries.at(i);
        if e.number() == ALG {
            return mode_at(texts, e);
        }
    }
    0
}
