// The report on a message: what document 01's program writes. Its text stands in specs/Report.
#![tactic(auto)]

ghost use Rattle.std.specs.Prelude.{◌≡◌, ◌*◌, ◌≤◌, length};
ghost use Rattle.prelude.specs.Buffer.{AllBelow, written};
ghost use Rattle.prelude.specs.Limits.{number_limit};
ghost use Rattle.rows.specs.Tables.{list_width};
ghost use Rattle.jwe.specs.Answers.{numbers, reading_of};
ghost use Rattle.report.specs.Report.{too_long, refused_report};
ghost use Rattle.report.specs.Answers.{report_room, Reports, result_report};

use jwe::Reading;
use prelude::limits::{HEADER_ROOM, LIST_ROOM};

mod lines;
mod words;

fn put_too_long(out: &mut [u8]) -> usize
    requires { report_room ≤ length out.old }
    ensures value { result ≡ length too_long }
    ensures out_after { out.new ≡ written 0 too_long out.old }
    ensures upper_bound { result ≤ length out.old }
{
    words::put_word(b"too long", b'\n', out, 0)
}

fn put_refused(n: u32, out: &mut [u8]) -> usize
    requires { report_room ≤ length out.old }
    ensures value { result ≡ length (refused_report n) }
    ensures out_after { out.new ≡ written 0 (refused_report n) out.old }
    ensures upper_bound { result ≤ length out.old }
{
    let a = words::put_word(b"refused", b' ', out, 0);
    words::put_number(n as usize, b'\n', out, a)
}

// By the reader's result and its list, of at most 96 parameters.
fn put_accepted(r: Reading, list: &[u32], out: &mut [u8]) -> usize
    requires report_room_in_bounds { report_room ≤ length out.old }
    requires all_below { AllBelow number_limit (numbers (reading_of r)) }
    requires parameters_bound { r.parameters ≤ 96 }
    requires list_width_in_bounds { r.parameters * list_width ≤ length list.now }
    ensures value { result ≡ length (result_report (reading_of r) list.now) }
    ensures out_after { out.new ≡ written 0 (result_report (reading_of r) list.now) out.old }
    ensures upper_bound { result ≤ length out.old }
{
    let a = lines::put_first(r.form, r.recipients, r.mode, out, 0);
    let b = lines::put_components(r.components, out, a);
    lines::put_parameters(list, r.parameters, out, b)
}

// Reads a message of at most 61,440 octets with no known names, for recipient 0, writes the report on it at the output's
// start, and answers how many octets it is. The rest of the output is unchanged; all of it is where fewer than 8,192 octets
// are lent, and the answer None.
pub fn report(message: &[u8], out: &mut [u8]) -> Option<usize>
    ensures { Reports message.now out.old result out.new }
{
    if out.len() < 8192 {
        return None;
    }
    if 61440 < message.len() {
        return Some(put_too_long(out));
    }
    let known = [0u8; 1];
    let mut header = [0u8; HEADER_ROOM];
    let mut list = [0u32; LIST_ROOM];
    Some(
        match gateway::read(message, &known, 0, &mut header, &mut list) {
            Ok(reading) => put_accepted(reading, &list, out),
            Err(refusal) => put_refused(refusal.number(), out),
        },
    )
}
