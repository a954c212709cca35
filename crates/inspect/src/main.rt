// Document 01's program: reads a message from standard input and writes the report on it to standard output. What it
// writes there is `report`'s text, which is proved; that the octets come in and go out is the C library's part.
#![tactic(auto)]

ghost use Rattle.std.specs.Prelude.{◌≤◌, length};

use std::io::Read;

// Reads until the buffer is full, the input ends or a read fails, and answers how many octets stand at the buffer's start.
fn read_full(input: &mut impl Read, into: &mut [u8]) -> usize
    ensures { result ≤ length into.new }
{
    let mut done: usize = 0;
    while done < into.len() {
        let Ok(n) = input.read(&mut into[done..]) else {
            return done;
        };
        if n == 0 {
            return done;
        }
        done += n;
    }
    done
}

// Writes the report on a message. 8,192 octets are always enough for it.
fn write_report(rt: &(impl Print + Eprint), message: &[u8]) {
    let mut out = [0u8; 8192];
    let Some(n) = report::report(message, &mut out) else {
        return;
    };
    if let Err(e) = rt.write_all(&out[..n]) {
        let _ = eprintln!(rt; "standard output: {e}");
    }
}

// One octet more than is read tells that a message is too long. What follows it stays unread, so that a writer on a pipe may
// be told by a signal, as it is by `head`. A short count is the end of the input or a read that failed, and one more read
// tells which: only behind the end does it answer 0. Where it failed, nothing goes to standard output.
fn main(rt: HostRuntime) {
    let mut message = [0u8; 61441];
    let mut input = rt.stdin();
    let n = read_full(&mut input, &mut message);
    if n < 61441 {
        let mut rest = [0u8; 1];
        match input.read(&mut rest) {
            Ok(0) => {}
            Ok(_) => {
                let _ = eprintln!(rt; "standard input: there is more behind its end");
                return;
            }
            Err(e) => {
                let _ = eprintln!(rt; "standard input: {e}");
                return;
            }
        }
    }
    write_report(&rt, &message[..n]);
}
