// Members, or elements, written to a sink one behind the other: a comma stands before each but the first. Each function takes
// whether one stands before, and says whether one stands before what follows: a struct of both would hold the buffer's `&mut` two
// structs deep, from where the proof does not follow it back.
ghost use Rattle.std.specs.Prelude.{true, [], ◌∷◌, map};
ghost use Rattle.recipients.specs.Parsed.{recipients_in};
ghost use Rattle.recipients.specs.Inner.Answers.{shown};
ghost use Rattle.json_text.specs.Inner.Led.{led_one};
ghost use Rattle.json_message.specs.JsonText.{header_member, component_member, own_members, element_text, recipient_members};
ghost use Rattle.json_put.specs.Inner.Members.{name_text, encoded_member, head_members, tail_members, all_members, point, Room, Puts};

use crate::message::Message;
use crate::sink::Sink;
use recipients::Body;
use recipients::bodies::Bodies;

// A comma, where something stands before.
fn comma<S: Sink>(begun: bool, to: &mut S)
    requires { S.fits to.old (led_one begun []) }
    ensures { S.gains to.old (led_one begun []) to.new }
{
    if begun {
        to.octets(b",");
    }
}

// The comma, a name and its colon.
fn member_name<S: Sink>(name: &[u8], begun: bool, to: &mut S)
    requires { S.fits to.old (led_one begun (name_text name.now)) }
    ensures { S.gains to.old (led_one begun (name_text name.now)) to.new }
{
    comma(begun, to);
    to.octets(b"\"");
    to.octets(name);
    to.octets(b"\":");
}

// A header's text as a member; nothing where it is absent.
fn header<S: Sink>(name: &[u8], text: &[u8], begun: bool, to: &mut S) -> bool
    requires { Room S.fits (point to.old begun) (header_member name.now text.now) }
    ensures { Puts S.gains (point to.old begun) (header_member name.now text.now) (point to.new result) }
{
    if text.is_empty() {
        return begun;
    }
    member_name(name, begun, to);
    to.octets(text);
    true
}

// A component as a member, encoded, also where it is empty.
fn encoded<S: Sink>(name: &[u8], octets: &[u8], begun: bool, to: &mut S) -> bool
    requires { Room S.fits (point to.old begun) (encoded_member name.now octets.now) }
    ensures { Puts S.gains (point to.old begun) (encoded_member name.now octets.now) (point to.new result) }
{
    member_name(name, begun, to);
    to.octets(b"\"");
    to.encoded(octets);
    to.octets(b"\"");
    true
}

// A component as a member, encoded; nothing where it is empty.
fn component<S: Sink>(name: &[u8], octets: &[u8], begun: bool, to: &mut S) -> bool
    requires { Room S.fits (point to.old begun) (component_member name.now octets.now) }
    ensures { Puts S.gains (point to.old begun) (component_member name.now octets.now) (point to.new result) }
{
    if octets.is_empty() {
        return begun;
    }
    encoded(name, octets, begun, to)
}

// The members of a recipient whose header and key stand at these places.
fn own<S: Sink>(table: &[u8], body: Body, begun: bool, to: &mut S) -> bool
    requires { Room S.fits (point to.old begun) (own_members (shown table.now body)) }
    ensures { Puts S.gains (point to.old begun) (own_members (shown table.now body)) (point to.new result) }
{
    let text = parts::part(table, body.header.start, body.header.len);
    let key = parts::part(table, body.key.start, body.key.len);
    let next = header(b"header", text, begun, to);
    component(b"encrypted_key", key, next, to)
}

// An element of `recipients`.
fn element<S: Sink>(table: &[u8], body: Body, begun: bool, to: &mut S) -> bool
    requires { Room S.fits (point to.old begun) (element_text (shown table.now body) ∷ []) }
    ensures { Puts S.gains (point to.old begun) (element_text (shown table.now body) ∷ []) (point to.new result) }
{
    comma(begun, to);
    to.octets(b"{");
    own(table, body, false, to);
    to.octets(b"}");
    true
}

// The elements of `recipients`.
fn elements<S: Sink>(message: &Message<'_>, begun: bool, to: &mut S) -> bool
    requires { Room S.fits (point to.old begun) (map element_text (recipients_in message.now.recipients.now)) }
    ensures { Puts S.gains (point to.old begun) (map element_text (recipients_in message.now.recipients.now))
        (point to.new result) }
{
    let mut next = begun;
    for body in Bodies::of(message.recipients) {
        next = element(message.recipients, body, next, to);
    }
    next
}

// `recipients`.
fn general<S: Sink>(message: &Message<'_>, begun: bool, to: &mut S) -> bool
    requires { Room S.fits (point to.old begun) (recipient_members true (recipients_in message.now.recipients.now)) }
    ensures { Puts S.gains (point to.old begun) (recipient_members true (recipients_in message.now.recipients.now))
        (point to.new result) }
{
    member_name(b"recipients", begun, to);
    to.octets(b"[");
    elements(message, false, to);
    to.octets(b"]");
    true
}

// The members of the recipients: `recipients`, or those of the one recipient of a flattened message.
fn recipient_members<S: Sink>(many: bool, message: &Message<'_>, begun: bool, to: &mut S) -> bool
    requires { Room S.fits (point to.old begun) (recipient_members many (recipients_in message.now.recipients.now)) }
    ensures { Puts S.gains (point to.old begun) (recipient_members many (recipients_in message.now.recipients.now))
        (point to.new result) }
{
    if many {
        return general(message, begun, to);
    }
    let table = message.recipients;
    let body = recipients::recipient(table, 0, 1 + 8 * table[0] as usize);
    own(table, body, begun, to)
}

// The members up to the recipients'.
fn headers<S: Sink>(many: bool, message: &Message<'_>, begun: bool, to: &mut S) -> bool
    requires { Room S.fits (point to.old begun) (head_members many message.now) }
    ensures { Puts S.gains (point to.old begun) (head_members many message.now) (point to.new result) }
{
    let first = component(b"protected", message.protected, begun, to);
    let second = header(b"unprotected", message.shared, first, to);
    recipient_members(many, message, second, to)
}

// The members behind them.
fn components<S: Sink>(message: &Message<'_>, begun: bool, to: &mut S) -> bool
    requires { Room S.fits (point to.old begun) (tail_members message.now) }
    ensures { Puts S.gains (point to.old begun) (tail_members message.now) (point to.new result) }
{
    let first = component(b"aad", message.aad, begun, to);
    let second = component(b"iv", message.iv, first, to);
    let third = encoded(b"ciphertext", message.ciphertext, second, to);
    component(b"tag", message.tag, third, to)
}

// All of them.
pub(crate) fn members<S: Sink>(many: bool, message: &Message<'_>, begun: bool, to: &mut S) -> bool
    requires { Room S.fits (point to.old begun) (all_members many message.now) }
    ensures { Puts S.gains (point to.old begun) (all_members many message.now) (point to.new result) }
{
    let next = headers(many, message, begun, to);
    components(message, next, to)
}
