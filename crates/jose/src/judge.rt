// One recipient's parameters judged, in document 01's order.
ghost use Rattle.std.specs.Prelude.{◌≡◌, true, map};
ghost use Rattle.names.specs.Names.{names, filled};
ghost use Rattle.rows.specs.Inner.Views.{the_entries, the_texts};
ghost use Rattle.prelude.specs.Refusals.{first, stage_of, as_stage};
ghost use Rattle.jose.specs.Inner.Rules.{refusal_of, rule_number};
ghost use Rattle.jose.specs.HeaderRules.{wrong_key, mode_in, breaks, rules_order, protected_rules, recipient_order};

use crate::Sizes;
use prelude::refusal::Refusal;
use rows::table::Headers;

// What a recipient's parameters are asked for, in document 01's order.
#[derive(Clone, Copy, Debug, PartialEq, Eq)]
pub enum Rule {
    NameInTwoHeaders,
    Incomplete,
    WrongKind,
    Unlisted,
    Unprotected,
    Critical,
    WrongKey,
}

impl From<Rule> for Refusal {
    ghost from_gives = { λ rule refusal. refusal ≡ refusal_of rule };

    fn from(rule: Rule) -> Refusal {
        match rule {
            Rule::NameInTwoHeaders => Refusal::NameInTwoHeaders,
            Rule::Incomplete => Refusal::Incomplete,
            Rule::WrongKind => Refusal::WrongKind,
            Rule::Unlisted => Refusal::Unlisted,
            Rule::Unprotected => Refusal::Unprotected,
            Rule::Critical => Refusal::Critical,
            Rule::WrongKey => Refusal::WrongKey,
        }
    }
}

// All of them; and those that can be broken where only a protected header is there.
const RECIPIENT: [Rule; 7] = [
    Rule::NameInTwoHeaders,
    Rule::Incomplete,
    Rule::WrongKind,
    Rule::Unlisted,
    Rule::Unprotected,
    Rule::Critical,
    Rule::WrongKey,
];

const PROTECTED: [Rule; 5] = [
    Rule::Incomplete,
    Rule::WrongKind,
    Rule::Unlisted,
    Rule::Critical,
    Rule::WrongKey,
];

// Modes 3 and 5 have no key of their own, the others do.
fn wrong_key(mode: u32, sizes: Sizes) -> bool
    ensures { result ≡ wrong_key mode sizes }
{
    (mode == 3 || mode == 5) != (sizes.key == 0)
}

// Whether one recipient, whose key is wrong or not, breaks a rule.
fn breaks(rule: Rule, h: Headers, known: &[u8], bad_key: bool) -> bool
    requires { filled known.now ≡ true }
    ensures { result
        ≡ breaks (names known.now) (the_texts h.entry.texts)
        (the_entries h.entry.entries) bad_key (rule_number rule) }
{
    match rule {
        Rule::NameInTwoHeaders => h.clashes(true),
        Rule::Incomplete => crate::rules::incomplete(h.entries),
        Rule::WrongKind => crate::rules::wrong_kind(h.entries),
        Rule::Unlisted => crate::rules::unlisted(h.texts, h.entries),
        Rule::Unprotected => crate::rules::unprotected(h.entries),
        Rule::Critical => crate::crit::wrong_crit(h.texts, h.entries, known),
        Rule::WrongKey => bad_key,
    }
}

// One recipient judged by some rules in order: the mode of its algorithm, or the first that it breaks.
fn judge_by(rules: &[Rule], h: Headers, known: &[u8], sizes: Sizes) -> Result<usize, Refusal>
    requires { filled known.now ≡ true }
    ensures { as_stage result
        ≡ stage_of
        (first (rules_order (names known.now) (the_texts h.entry.texts)
        (the_entries h.entry.entries) sizes (map rule_number rules.now)))
        (mode_in (the_texts h.entry.texts) (the_entries h.entry.entries)) }
{
    let mode = crate::rules::mode(h.texts, h.entries);
    let bad_key = wrong_key(mode, sizes);
    for &rule in rules {
        if breaks(rule, h, known, bad_key) {
            return Err(Refusal::from(rule));
        }
    }
    Ok(mode as usize)
}

// 12 to 18 on one recipient.
#[tactic(auto, unfolding(crate::specs::HeaderRules::recipient_order))]
pub fn judge(h: Headers, known: &[u8], sizes: Sizes) -> Result<usize, Refusal>
    requires { filled known.now ≡ true }
    ensures { as_stage result
        ≡ stage_of
        (first (recipient_order (names known.now) (the_texts h.entry.texts)
        (the_entries h.entry.entries) sizes))
        (mode_in (the_texts h.entry.texts) (the_entries h.entry.entries)) }
{
    judge_by(&RECIPIENT, h, known, sizes)
}

// 13, 14, 15, 17 and 18 on one recipient of which only a protected header is there.
pub fn judge_protected(h: Headers, known: &[u8], sizes: Sizes) -> Result<usize, Refusal>
    requires { filled known.now ≡ true }
    ensures { as_stage result
        ≡ stage_of
        (first (rules_order (names known.now) (the_texts h.entry.texts)
        (the_entries h.entry.entries) sizes protected_rules))
        (mode_in (the_texts h.entry.texts) (the_entries h.entry.entries)) }
{
    judge_by(&PROTECTED, h, known, sizes)
}
