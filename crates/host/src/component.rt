// A message judged, and one of its components decoded.
ghost use Rattle.std.specs.Prelude.{◌≡◌, length};
ghost use Rattle.prelude.specs.Outputs.{Writes};
ghost use Rattle.prelude.specs.Limits.{header_room, list_room};
ghost use Rattle.jwe.specs.Judge.{call, refusal};
ghost use Rattle.headers.specs.Answers.{code_place, components_of};
ghost use Rattle.host.specs.Component.{component_place, component_octets, component_refusal};

use crate::jwe_decode;
use headers::Components;
use prelude::Place;
use prelude::limits::{HEADER_ROOM, LIST_ROOM};

// Judges a message for a recipient. What reading it hands out stays in here.
pub fn jwe_judge(message: &[u8], known: &[u8], recipient: u32) -> u32
    ensures { result ≡ refusal (call message.now known.now recipient header_room list_room) }
{
    let mut header = [0u8; HEADER_ROOM];
    let mut list = [0u32; LIST_ROOM];
    match gateway::read(message, known, recipient, &mut header, &mut list) {
        Ok(_) => 0,
        Err(refusal) => refusal.number(),
    }
}

// The place of the n-th component, counted from 0; 0, 0 where there is none.
fn place_of(q: Components, n: u32) -> Place
    ensures { result ≡ code_place (component_place (components_of q) n) }
{
    match n {
        0 => q.protected,
        1 => q.key,
        2 => q.iv,
        3 => q.aad,
        4 => q.ciphertext,
        5 => q.tag,
        _ => Place { start: 0, len: 0 },
    }
}

// Judges a message for a recipient, and decodes a component: 0 to 5 are protected, key, iv, aad, ciphertext and tag; others
// give no octets. Refusals are the reader's, then 1 where out is shorter than the octets.
pub fn jwe_component(
    message: &[u8],
    known: &[u8],
    recipient: u32,
    component: u32,
    out: &mut [u8],
    octets: &mut usize,
) -> u32
    ensures { Writes
        (component_refusal (call message.now known.now recipient header_room list_room)
        component (length out.old))
        (component_octets message.now recipient component)
        out.old result octets.new out.new }
{
    let mut header = [0u8; HEADER_ROOM];
    let mut list = [0u32; LIST_ROOM];
    let read = gateway::read(message, known, recipient, &mut header, &mut list);
    match read {
        Ok(reading) => {
            let place = place_of(reading.components, component);
            jwe_decode(gateway::component(message, place), out, octets)
        }
        Err(refusal) => {
            *octets = 0;
            refusal.number()
        }
    }
}
