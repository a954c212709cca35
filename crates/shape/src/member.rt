// 10 on the members of an object of the message, by their entries. What each function answers stands in specs/Shape.
ghost use Rattle.std.specs.Prelude.{◌≡◌};
ghost use Rattle.grammar.specs.Grammar.{curly};
ghost use Rattle.rows.specs.Inner.Views.{the_entry, the_entries};
ghost use Rattle.shape.specs.Shape.{wrong_component, hollow, wrong_header, wrong_member, wrong_top};
ghost use Rattle.shape.specs.Shape.{wrong_in_element, wrong_element};

use crate::number::{CIPHERTEXT, ENCRYPTED_KEY, HEADER, RECIPIENTS, UNPROTECTED};
use json_read::Position;
use rows::layout::{ARRAY, OBJECT, STRING};
use rows::table::{Entries, Entry};

// Whether an entry is no component: a string without a backslash, and not empty unless it is the ciphertext.
fn wrong_component(message: &[u8], e: Entry) -> bool
    ensures { result ≡ wrong_component message.now (the_entry e.entry) }
{
    e.kind() != STRING
        || parts::holds(e.value(message), b'\\')
        || (e.number() != CIPHERTEXT && e.value_place().len == 2)
}

// Whether nothing stands in the object that begins at a position.
fn hollow(message: &[u8], at: usize) -> bool
    ensures { result ≡ hollow curly message.now at }
{
    let first = Position { at }.inside(message).at;
    if first < message.len() {
        return message[first] == 125;
    }
    false
}

// Whether an entry is no header: an object with a member.
fn wrong_header(message: &[u8], e: Entry) -> bool
    ensures { result ≡ wrong_header message.now (the_entry e.entry) }
{
    e.kind() != OBJECT || hollow(message, e.value_place().start)
}

// Whether an entry is a known member that is wrong.
#[tactic(auto, unfolding(crate::specs::Shape::wrong_member))]
fn wrong_member(message: &[u8], e: Entry) -> bool
    ensures { result ≡ wrong_member message.now (the_entry e.entry) }
{
    match e.number() {
        0 => false,
        UNPROTECTED | HEADER => wrong_header(message, e),
        RECIPIENTS => e.kind() != ARRAY,
        _ => wrong_component(message, e),
    }
}

// 10 on the top level, the elements of `recipients` aside.
#[tactic(auto, unfolding(crate::specs::Shape::wrong_top))]
pub(crate) fn wrong_top(message: &[u8], members: Entries) -> bool
    ensures { result ≡ wrong_top message.now (the_entries members.entry) }
{
    members.any(|e| wrong_member(message, e))
        || !members.present(CIPHERTEXT)
        || (members.present(RECIPIENTS)
            && (members.present(HEADER) || members.present(ENCRYPTED_KEY)))
}

// Whether an entry is `header` or `encrypted_key`, the members that an element knows, and wrong.
fn wrong_in_element(message: &[u8], e: Entry) -> bool
    ensures { result ≡ wrong_in_element message.now (the_entry e.entry) }
{
    let number = e.number();
    (number == HEADER || number == ENCRYPTED_KEY) && wrong_member(message, e)
}

// 10 on an element of `recipients`.
#[tactic(auto, unfolding(crate::specs::Shape::wrong_element))]
pub(crate) fn wrong_element(message: &[u8], members: Entries) -> bool
    ensures { result ≡ wrong_element message.now (the_entries members.entry) }
{
    members.any(|e| wrong_in_element(message, e))
}
