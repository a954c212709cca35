// The JSON writer (RFC 7516, section 7.2). What it writes and its refusals in order stand in json_message's specs: `JsonText` and
// `JsonWrite`; its answers in specs/Answers.
#![tactic(auto)]

ghost use Rattle.std.specs.Prelude.{◌≡◌};
ghost use Rattle.json_message.specs.JsonWrite.{raw_json};
ghost use Rattle.json_message.specs.WriteOrder.{most_for};
ghost use Rattle.prelude.specs.Refusals.{as_stage};
ghost use Rattle.json_write.specs.Answers.{WritesJson};

use jose::Sizes;
use json_put::message::Message;
use prelude::limits::{LONGEST, MOST_RECIPIENTS};
use prelude::refusal::Refusal;

// How many recipients a message may have, general or flattened.
fn most_for(general: bool) -> usize
    ensures { result ≡ most_for general }
{
    if general { MOST_RECIPIENTS } else { 1 }
}

// Writes the general or the flattened message of the texts of the protected and the shared header, each absent where it is empty,
// the raw components and the recipients, contents first. `known` lists the extension names that the caller knows. It answers the
// octets written, which are the message, at the output's start; the rest of the output is unchanged. Refused, all of it is.
pub fn write(
    general: bool,
    protected: &[u8],
    shared: &[u8],
    aad: &[u8],
    iv: &[u8],
    ciphertext: &[u8],
    tag: &[u8],
    known: &[u8],
    recipients: &[u8],
    out: &mut [u8],
) -> Result<usize, Refusal>
    ensures { WritesJson general
        (raw_json protected.now shared.now aad.now iv.now ciphertext.now
        tag.now recipients.now)
        known.now out.old (as_stage result) out.new }
{
    if !names::sound(known) {
        return Err(Refusal::KnownNames);
    }
    let Some(n) = recipients::count(recipients) else {
        return Err(Refusal::RecipientTable);
    };
    if most_for(general) < n {
        return Err(Refusal::RecipientTable);
    }
    let message = Message {
        protected,
        shared,
        aad,
        iv,
        ciphertext,
        tag,
        recipients,
    };
    let size = json_put::text_length(general, &message);
    if LONGEST < size {
        return json_judge::judge_over(protected, shared, recipients, n);
    }
    let sizes = Sizes {
        key: 0,
        iv: iv.len(),
        ciphertext: ciphertext.len(),
        tag: tag.len(),
    };
    json_judge::judge_within(general, protected, shared, known, recipients, n, sizes)?;
    if out.len() < size {
        return Err(Refusal::ShortOutput);
    }
    Ok(json_put::put_text(general, &message, out))
}
