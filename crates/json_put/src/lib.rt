// The JSON serialization (RFC 7516, section 7.2) as it is written: how long it is, and its octets put into a buffer. Nothing
// is judged here. Members of length 0 but ciphertext are left out; a comma stands before each but the first.
#![tactic(auto)]

ghost use Rattle.std.specs.Prelude.{◌≡◌, ◌+◌, ◌≤◌, min, length};
ghost use Rattle.prelude.specs.Buffer.{written};
ghost use Rattle.prelude.specs.Limits.{longest};
ghost use Rattle.json_message.specs.JsonWrite.{written_text};
ghost use Rattle.json_put.specs.Inner.Members.{raw_of};

use message::Message;
use prelude::limits::LONGEST;
use sink::{Buffer, Count, Sink};

pub mod message;
mod sink;
mod write;

// The message, between its brackets.
fn text<S: Sink>(general: bool, message: &Message<'_>, to: &mut S)
    requires { S.fits to.old (written_text general (raw_of message.now)) }
    ensures { S.gains to.old (written_text general (raw_of message.now)) to.new }
{
    to.octets(b"{");
    write::members(general, message, false, to);
    to.octets(b"}");
}

// How many octets the message has; where it has more than a message may have, one more than that.
pub fn text_length(general: bool, message: &Message<'_>) -> usize
    ensures { result ≡ min (length (written_text general (raw_of message.now))) (longest + 1) }
{
    let mut count = Count { n: 0 };
    text(general, message, &mut count);
    count.n.min(LONGEST + 1)
}

// The message, put at the start of a buffer. Answers its length.
pub fn put_text(general: bool, message: &Message<'_>, out: &mut [u8]) -> usize
    requires { length (written_text general (raw_of message.now)) ≤ length out.old }
    ensures value { result ≡ length (written_text general (raw_of message.now)) }
    ensures out_after { out.new ≡ written 0 (written_text general (raw_of message.now)) out.old }
{
    let mut buffer = Buffer { out, at: 0 };
    text(general, message, &mut buffer);
    buffer.at
}
