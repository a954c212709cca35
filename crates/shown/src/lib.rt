// Components and values shown in place, as parts of the caller's own texts. What each function shows stands in
// specs/Shown.
#![tactic(auto)]

ghost use Rattle.std.specs.Prelude.{◌≡◌};
ghost use Rattle.shown.specs.Shown.{component_shown, component_at, value_shown, value_at};

// A component, by its place, as that part of the message; the empty part where the place does not fit.
pub fn component(message: &[u8], start: usize, len: usize) -> &[u8]
    ensures octets { result.now ≡ component_shown message.now start len }
    ensures place { result.ref_ptr ≡ component_at message.entry start len }
{
    parts::part(message, start, len)
}

// A value, by the origin and the place of its list entry, as a part of the decoded header (origin 0) or of the message (1 and
// 2). Another origin, or a place that does not fit, gives the empty part of the message.
pub fn value<'a>(
    message: &'a [u8],
    header: &'a [u8],
    origin: u32,
    start: usize,
    len: usize,
) -> &'a [u8]
    ensures octets { result.now ≡ value_shown message.now header.now origin start len }
    ensures place { result.ref_ptr ≡ value_at message.entry header.entry origin start len }
{
    match origin {
        0 if start <= header.len() && len <= header.len() - start => {
            parts::part(header, start, len)
        }
        1 | 2 => parts::part(message, start, len),
        _ => &message[..0],
    }
}
