// Named messages through the reader that C links, a line for each: what the papers and the second reader say of them is the file
// stdout, which tests/conformance/run makes. A case is a line of standard input, five fields with tabs between: its name, the
// recipient asked for, what is lent, the known names, the message. The last two are templates: `~` and two hexadecimal digits is an
// octet, `~*`, four such digits and four octets is these octets so many times, and any other octet is itself.
#![tactic(auto)]

ghost use Rattle.std.specs.Prelude.{◌+◌, ◌≤◌, ◌<◌, length};
ghost use Rattle.prelude.specs.Limits.{number_limit};

use prelude::limits::{HEADER_ROOM, LIST_ROOM};
use rows::layout::LIST_WIDTH;
use std::io::Read;

// What the lent memory holds before, so that a change shows.
const OCTET: u8 = 0xa5;

const NUMBER: u32 = 0xa5a5a5a5;

// Where a result has the header's length and how many parameters are listed.
const HEADER: usize = 16;

const PARAMETERS: usize = 17;

// The octet at a position; 0 past the end.
fn octet(s: &[u8], at: usize) -> u8 {
    if at < s.len() { s[at] } else { 0 }
}

// The value of a hexadecimal digit in lower case; 0 for another octet.
fn digit(c: u8) -> usize
    ensures { result < 16 }
{
    match c {
        48..=57 => c as usize - 48,
        97..=102 => c as usize - 87,
        _ => 0,
    }
}

// The value of two hexadecimal digits at a position.
fn pair(s: &[u8], at: usize) -> usize
    requires { at + 1 < 18446744073709551616 }
    ensures { result < 256 }
{
    digit(octet(s, at)) * 16 + digit(octet(s, at + 1))
}

// An octet written at a position, if there is room. Answers the position after it.
fn put(c: u8, into: &mut [u8], at: usize) -> usize
    requires { at ≤ length into.old }
    ensures { result ≤ length into.old }
{
    if at < into.len() {
        into[at] = c;
        return at + 1;
    }
    at
}

// Four octets of a template, so many times.
fn repeat(s: &[u8], from: usize, times: usize, into: &mut [u8], at: usize) -> usize
    requires from_bound { from + 4 < 18446744073709551616 }
    requires times_bound { times < 65536 }
    requires at_in_bounds { at ≤ length into.old }
    ensures { result ≤ length into.old }
{
    let mut end = at;
    let mut k: usize = 0;
    while k < times * 4 {
        end = put(octet(s, from + k % 4), into, end);
        k += 1;
    }
    end
}

// What a template stands for, written at the start. Answers how long it is.
fn expand(s: &[u8], into: &mut [u8]) -> usize
    ensures { result ≤ length into.old }
{
    let mut end: usize = 0;
    let mut i: usize = 0;
    while i < s.len() {
        if s[i] != b'~' {
            end = put(s[i], into, end);
            i += 1;
        } else if octet(s, i + 1) == b'*' {
            let times = pair(s, i + 2) * 256 + pair(s, i + 4);
            end = repeat(s, i + 6, times, into, end);
            i += 10;
        } else {
            end = put(pair(s, i + 1) as u8, into, end);
            i += 3;
        }
    }
    end
}

// Octets to standard output. What cannot be written is missed there by who compares it.
fn say(rt: &impl Print, octets: &[u8]) {
    let _ = rt.write_all(octets);
}

// A number in decimal digits, ten at most, and an octet behind it. They are found from the last on.
fn print_number(rt: &impl Print, n: u32, behind: u8) {
    let mut digits = [0u8; 11];
    digits[10] = behind;
    let mut rest = n;
    let mut first: usize = 10;
    while 0 < first {
        first -= 1;
        digits[first] = 48 + (rest % 10) as u8;
        rest /= 10;
        if rest == 0 {
            say(rt, &digits[first..]);
            return;
        }
    }
    say(rt, &digits);
}

fn print_numbers(rt: &impl Print, numbers: &[u32]) {
    let mut i: usize = 0;
    while i < numbers.len() {
        print_number(rt, numbers[i], b' ');
        i += 1;
    }
}

// A value below 16 as a hexadecimal digit.
fn digit_of(v: u8) -> u8
    requires { v < 16 }
{
    if v < 10 { 48 + v } else { 87 + v }
}

// Octets as hexadecimal digits; a hyphen where there are none.
fn print_octets(rt: &impl Print, octets: &[u8]) {
    if octets.len() == 0 {
        say(rt, b"-");
        return;
    }
    let mut i: usize = 0;
    while i < octets.len() {
        let mut two = [0u8; 2];
        two[0] = digit_of(octets[i] / 16);
        two[1] = digit_of(octets[i] % 16);
        say(rt, &two);
        i += 1;
    }
}

// The number at a position; 0 past the end.
fn number(numbers: &[u32], at: usize) -> usize
    ensures { result < number_limit }
{
    if at < numbers.len() {
        return numbers[at] as usize;
    }
    0
}

// The first numbers of a list, and the first octets of a buffer: all where there are fewer.
fn print_list(rt: &impl Print, list: &[u32], n: usize) {
    if n < list.len() {
        print_numbers(rt, &list[..n]);
        return;
    }
    print_numbers(rt, list);
}

fn print_header(rt: &impl Print, header: &[u8], n: usize) {
    if n < header.len() {
        print_octets(rt, &header[..n]);
        return;
    }
    print_octets(rt, header);
}

// What an accepted message hands out.
fn print_accepted(rt: &impl Print, header: &[u8], list: &[u32], res: &[u32]) {
    say(rt, b"accepted ");
    print_numbers(rt, res);
    print_list(rt, list, number(res, PARAMETERS) * LIST_WIDTH);
    print_header(rt, header, number(res, HEADER));
    say(rt, b"\n");
}

// Whether lent octets and numbers hold what they held before.
fn same_octets(octets: &[u8]) -> bool {
    let mut i: usize = 0;
    while i < octets.len() {
        if octets[i] != OCTET {
            return false;
        }
        i += 1;
    }
    true
}

fn same_numbers(numbers: &[u32]) -> bool {
    let mut i: usize = 0;
    while i < numbers.len() {
        if numbers[i] != NUMBER {
            return false;
        }
        i += 1;
    }
    true
}

// A refusal, and that all that was lent is unchanged.
fn print_refused(rt: &impl Print, number: u32, header: &[u8], list: &[u32], res: &[u32]) {
    if !same_octets(header) {
        say(rt, b"changed ");
    }
    if !same_numbers(list) {
        say(rt, b"changed ");
    }
    if !same_numbers(res) {
        say(rt, b"changed ");
    }
    say(rt, b"refused ");
    print_number(rt, number, b'\n');
}

// A message read for a recipient into lent memory.
fn print_read(
    rt: &impl Print,
    message: &[u8],
    known: &[u8],
    recipient: u32,
    header: &mut [u8],
    list: &mut [u32],
) {
    let mut result = [NUMBER; 18];
    let refusal = host::reading::jwe_read(message, known, recipient, header, list, &mut result);
    if refusal == 0 {
        print_accepted(rt, header, list, &result);
        return;
    }
    print_refused(rt, refusal, header, list, &result);
}

// As much memory lent as the third field asks: the header buffer is one octet short for `h`, the list one number for `l`.
fn print_lent(rt: &impl Print, message: &[u8], known: &[u8], recipient: u32, short: u8) {
    let mut header = [OCTET; HEADER_ROOM];
    let mut list = [NUMBER; LIST_ROOM];
    if short == b'h' {
        print_read(
            rt,
            message,
            known,
            recipient,
            &mut header[..4095],
            &mut list,
        );
        return;
    }
    if short == b'l' {
        print_read(rt, message, known, recipient, &mut header, &mut list[..575]);
        return;
    }
    print_read(rt, message, known, recipient, &mut header, &mut list);
}

// The recipient that a field asks for: a decimal digit, or `m` for the largest number.
fn recipient_of(field: &[u8]) -> u32 {
    let c = octet(field, 0);
    if c == b'm' {
        return 4294967295;
    }
    digit(c) as u32
}

// The message that a template stands for, written out in lent memory.
fn print_message(
    rt: &impl Print,
    template: &[u8],
    known: &[u8],
    recipient: u32,
    short: u8,
    text: &mut [u8],
) {
    let n = expand(template, text);
    print_lent(rt, &text[..n], known, recipient, short);
}

// A case of its five fields.
fn print_case(
    rt: &impl Print,
    name: &[u8],
    recipient: &[u8],
    room: &[u8],
    known: &[u8],
    message: &[u8],
    text: &mut [u8],
) {
    say(rt, name);
    say(rt, b": ");
    let mut names = [0u8; 2048];
    let n = expand(known, &mut names);
    print_message(
        rt,
        message,
        &names[..n],
        recipient_of(recipient),
        octet(room, 0),
        text,
    );
}

// The part of a text between two positions; none where they stand the other way round.
fn between<'a>(s: &'a [u8], from: usize, to: usize) -> &'a [u8] {
    parts::part(s, from, prelude::minus(to, from))
}

// One line, split at its tabs.
fn print_line(rt: &impl Print, line: &[u8], text: &mut [u8]) {
    let a = parts::seek(line, 0, b'\t');
    let b = parts::seek(line, a + 1, b'\t');
    let c = parts::seek(line, b + 1, b'\t');
    let d = parts::seek(line, c + 1, b'\t');
    print_case(
        rt,
        between(line, 0, a),
        between(line, a + 1, b),
        between(line, b + 1, c),
        between(line, c + 1, d),
        between(line, d + 1, line.len()),
        text,
    );
}

// Each line in turn.
fn print_lines(rt: &impl Print, cases: &[u8], text: &mut [u8]) {
    let mut at: usize = 0;
    while at < cases.len() {
        let end = parts::seek(cases, at, b'\n');
        print_line(rt, &cases[at..end], text);
        at = end + 1;
    }
}

// Reads until the buffer is full, the input ends or a read fails, and answers how many octets stand at the buffer's start.
fn read_full(input: &mut impl Read, into: &mut [u8]) -> usize
    ensures { result ≤ length into.new }
{
    let mut done: usize = 0;
    while done < into.len() {
        let Ok(n) = input.read(&mut into[done..]) else {
            return done;
        };
        if n == 0 {
            return done;
        }
        done += n;
    }
    done
}

// All of the input; the cases and each message have as much room as is lent.
fn print_all(rt: &impl Print, input: &mut impl Read, cases: &mut [u8], text: &mut [u8]) {
    let n = read_full(input, cases);
    print_lines(rt, &cases[..n], text);
}

fn main(rt: HostRuntime) {
    let mut cases = [0u8; 400000];
    let mut text = [0u8; 400000];
    let mut input = rt.stdin();
    print_all(&rt, &mut input, &mut cases, &mut text);
}
