// What C links: each function of `host` under its own name, with the same clauses. include/jwe_gateway.h declares them for C.
#![tactic(auto)]

ghost use Rattle.std.specs.Prelude.{◌≡◌, length, true, false};
ghost use Rattle.prelude.specs.Outputs.{Writes};
ghost use Rattle.prelude.specs.Limits.{header_room, list_room};
ghost use Rattle.base64url.specs.Base64url.{decoded};
ghost use Rattle.base64url.specs.Answers.{decode_refusal};
ghost use Rattle.aad.specs.Aad.{aad_text, aad_refusal};
ghost use Rattle.jwe_write.specs.Write.{raw, compact_text, write_refusal};
ghost use Rattle.json_message.specs.JsonWrite.{raw_json, written_text, json_write_refusal};
ghost use Rattle.jwe.specs.Judge.{call, refusal};
ghost use Rattle.differences.specs.Answers.{answer_of, Compares};
ghost use Rattle.host.specs.Component.{component_octets, component_refusal};
ghost use Rattle.host.specs.Read.{read_refusal, read_header, read_list, read_result};

// Decodes one component: 5 for a text that is not base64url, 1 where out is shorter than the octets.
#[unsafe(no_mangle)]
pub extern "C" fn jwe_decode(text: &[u8], out: &mut [u8], octets: &mut usize) -> u32
    ensures { Writes
        (decode_refusal text.now (length out.old))
        (decoded text.now)
        out.old result octets.new out.new }
{
    host::jwe_decode(text, out, octets)
}

// Writes the additional authenticated data of an encoded protected header and an encoded aad; only 1 can refuse.
#[unsafe(no_mangle)]
pub extern "C" fn jwe_aad(
    encoded_header: &[u8],
    encoded_aad: &[u8],
    out: &mut [u8],
    octets: &mut usize,
) -> u32
    ensures { Writes
        (aad_refusal encoded_header.now encoded_aad.now (length out.old))
        (aad_text encoded_header.now encoded_aad.now)
        out.old result octets.new out.new }
{
    host::jwe_aad(encoded_header, encoded_aad, out, octets)
}

// Writes the compact message of a header's text and the raw other components.
#[unsafe(no_mangle)]
pub extern "C" fn jwe_write_compact(
    header: &[u8],
    key: &[u8],
    iv: &[u8],
    ciphertext: &[u8],
    tag: &[u8],
    known: &[u8],
    out: &mut [u8],
    octets: &mut usize,
) -> u32
    ensures { Writes
        (write_refusal
        (raw header.now key.now iv.now ciphertext.now tag.now)
        known.now (length out.old))
        (compact_text
        (raw header.now key.now iv.now ciphertext.now tag.now))
        out.old result octets.new out.new }
{
    host::jwe_write_compact(header, key, iv, ciphertext, tag, known, out, octets)
}

// Writes the flattened message of the headers' texts, the raw other components and one recipient, contents first.
#[unsafe(no_mangle)]
pub extern "C" fn jwe_write_flattened(
    protected: &[u8],
    shared: &[u8],
    aad: &[u8],
    iv: &[u8],
    ciphertext: &[u8],
    tag: &[u8],
    known: &[u8],
    recipients: &[u8],
    out: &mut [u8],
    octets: &mut usize,
) -> u32
    ensures { Writes
        (json_write_refusal false
        (raw_json protected.now shared.now aad.now iv.now
        ciphertext.now tag.now recipients.now)
        known.now (length out.old))
        (written_text false
        (raw_json protected.now shared.now aad.now iv.now
        ciphertext.now tag.now recipients.now))
        out.old result octets.new out.new }
{
    host::jwe_write_flattened(
        protected, shared, aad, iv, ciphertext, tag, known, recipients, out, octets,
    )
}

// Writes the general message of the headers' texts, the raw other components and the recipients, contents first.
#[unsafe(no_mangle)]
pub extern "C" fn jwe_write_general(
    protected: &[u8],
    shared: &[u8],
    aad: &[u8],
    iv: &[u8],
    ciphertext: &[u8],
    tag: &[u8],
    known: &[u8],
    recipients: &[u8],
    out: &mut [u8],
    octets: &mut usize,
) -> u32
    ensures { Writes
        (json_write_refusal true
        (raw_json protected.now shared.now aad.now iv.now
        ciphertext.now tag.now recipients.now)
        known.now (length out.old))
        (written_text true
        (raw_json protected.now shared.now aad.now iv.now
        ciphertext.now tag.now recipients.now))
        out.old result octets.new out.new }
{
    host::jwe_write_general(
        protected, shared, aad, iv, ciphertext, tag, known, recipients, out, octets,
    )
}

// Judges a message for a recipient. What reading it hands out stays in here.
#[unsafe(no_mangle)]
pub extern "C" fn jwe_judge(message: &[u8], known: &[u8], recipient: u32) -> u32
    ensures { result ≡ refusal (call message.now known.now recipient header_room list_room) }
{
    host::component::jwe_judge(message, known, recipient)
}

// Judges a message for a recipient, and decodes a component: 0 to 5 are protected, key, iv, aad, ciphertext and tag; others
// give no octets. Refusals are the reader's, then 1 where out is shorter than the octets.
#[unsafe(no_mangle)]
pub extern "C" fn jwe_component(
    message: &[u8],
    known: &[u8],
    recipient: u32,
    component: u32,
    out: &mut [u8],
    octets: &mut usize,
) -> u32
    ensures { Writes
        (component_refusal (call message.now known.now recipient header_room list_room)
        component (length out.old))
        (component_octets message.now recipient component)
        out.old result octets.new out.new }
{
    host::component::jwe_component(message, known, recipient, component, out, octets)
}

// Compares two messages: the own number, 1 where both are accepted and the list cannot hold all lines. *left_refusal and *right_refusal are
// the messages' refusals as for recipient 0 given room, *lines is how many lines the list begins with, eight numbers each; its rest is
// unchanged. Where any refuses there are none, and all of the list is unchanged.
#[unsafe(no_mangle)]
pub extern "C" fn jwe_differences(
    left: &[u8],
    right: &[u8],
    known: &[u8],
    list: &mut [u32],
    left_refusal: &mut u32,
    right_refusal: &mut u32,
    lines: &mut usize,
) -> u32
    ensures { Compares left.now right.now known.now list.old
        (answer_of result left_refusal.new right_refusal.new lines.new) list.new }
{
    host::differing::jwe_differences(left, right, known, list, left_refusal, right_refusal, lines)
}

// Reads a message. Answers 0 and the result's numbers at the start of `res`, or the refusal's number; that is 1
// as well where too few numbers are lent for them. Refused, `res` is unchanged.
#[unsafe(no_mangle)]
pub extern "C" fn jwe_read(
    message: &[u8],
    known: &[u8],
    recipient: u32,
    header: &mut [u8],
    list: &mut [u32],
    res: &mut [u32],
) -> u32
    ensures answered { result
        ≡ read_refusal (call message.now known.now recipient
        (length header.old) (length list.old)) (length res.old) }
    ensures decoded { header.new
        ≡ read_header (call message.now known.now recipient
        (length header.old) (length list.old)) (length res.old) header.old }
    ensures listed { list.new
        ≡ read_list (call message.now known.now recipient
        (length header.old) (length list.old)) (length res.old) list.old }
    ensures numbered { res.new
        ≡ read_result (call message.now known.now recipient
        (length header.old) (length list.old)) res.old }
{
    host::reading::jwe_read(message, known, recipient, header, list, res)
}
