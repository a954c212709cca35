// The lines of the report on an accepted message, written from a position on. Each function answers the position after them.
ghost use Rattle.std.specs.Prelude.{◌≡◌, ◌+◌, ◌*◌, ◌≤◌, length};
ghost use Rattle.prelude.specs.Buffer.{written};
ghost use Rattle.headers.specs.Answers.{place_of};
ghost use Rattle.rows.specs.Tables.{first_of, list_width};
ghost use Rattle.headers.specs.Answers.{components_of};
ghost use Rattle.report.specs.Report.{first_line, component_line, component_lines, parameter_line};
ghost use Rattle.report.specs.Answers.{list_lines};

use crate::words::{put_named, put_number, put_word};
use headers::Components;
use prelude::Place;
use rows::layout;

// The words for the reader's numbers. Where they are used it is proved, by computing, that they are the definition's.

const FORMS: [&str; 3] = ["compact", "flattened", "general"];

const MODES: [&str; 5] = [
    "key-encryption",
    "key-wrapping",
    "direct-agreement",
    "agreement-with-wrapping",
    "direct-encryption",
];

const ORIGINS: [&str; 3] = ["p", "u", "r"];

const KINDS: [&str; 7] = [
    "object", "array", "string", "number", "true", "false", "null",
];

pub(crate) fn put_first(form: u32, count: usize, mode: u32, out: &mut [u8], at: usize) -> usize
    requires { at + length (first_line form count mode) ≤ length out.old }
    ensures value { result ≡ at + length (first_line form count mode) }
    ensures out_after { out.new ≡ written at (first_line form count mode) out.old }
{
    let a = put_word(b"accepted", b' ', out, at);
    let b = put_named(&FORMS, form as usize + 1, b' ', out, a);
    let c = put_number(count, b' ', out, b);
    put_named(&MODES, mode as usize, b'\n', out, c)
}

fn put_component(name: &[u8], place: Place, out: &mut [u8], at: usize) -> usize
    requires { at + length (component_line name.now (place_of place)) ≤ length out.old }
    ensures value { result ≡ at + length (component_line name.now (place_of place)) }
    ensures out_after { out.new ≡ written at (component_line name.now (place_of place)) out.old }
{
    let a = put_word(name, b' ', out, at);
    let b = put_number(place.start, b' ', out, a);
    put_number(place.len, b'\n', out, b)
}

pub(crate) fn put_components(places: Components, out: &mut [u8], at: usize) -> usize
    requires { at + length (component_lines (components_of places)) ≤ length out.old }
    ensures value { result ≡ at + length (component_lines (components_of places)) }
    ensures out_after { out.new ≡ written at (component_lines (components_of places)) out.old }
{
    let a = put_component(b"protected", places.protected, out, at);
    let b = put_component(b"key", places.key, out, a);
    let c = put_component(b"iv", places.iv, out, b);
    let d = put_component(b"aad", places.aad, out, c);
    let e = put_component(b"ciphertext", places.ciphertext, out, d);
    put_component(b"tag", places.tag, out, e)
}

// A parameter by its numbers of the reader's list.
fn put_parameter(row: &[u32], out: &mut [u8], at: usize) -> usize
    requires row_len { length row.now ≡ list_width }
    requires row_in_bounds { at + length (parameter_line (first_of row.now)) ≤ length out.old }
    ensures value { result ≡ at + length (parameter_line (first_of row.now)) }
    ensures out_after { out.new ≡ written at (parameter_line (first_of row.now)) out.old }
{
    let a = put_named(&ORIGINS, row[layout::ORIGIN] as usize + 1, b' ', out, at);
    let b = put_number(row[layout::NAME_START] as usize, b' ', out, a);
    let c = put_number(row[layout::NAME_SIZE] as usize, b' ', out, b);
    let d = put_number(row[layout::VALUE_START] as usize, b' ', out, c);
    let e = put_number(row[layout::VALUE_SIZE] as usize, b' ', out, d);
    put_named(&KINDS, row[layout::KIND] as usize + 1, b'\n', out, e)
}

// The first parameters of the reader's list.
pub(crate) fn put_parameters(list: &[u32], count: usize, out: &mut [u8], at: usize) -> usize
    requires list_width_in_bounds { count * list_width ≤ length list.now }
    requires list_in_bounds { at + length (list_lines count list.now) ≤ length out.old }
    ensures value { result ≡ at + length (list_lines count list.now) }
    ensures out_after { out.new ≡ written at (list_lines count list.now) out.old }
{
    let mut next = at;
    for i in 0..count {
        let start = i * layout::LIST_WIDTH;
        next = put_parameter(&list[start..start + layout::LIST_WIDTH], out, next);
    }
    next
}
