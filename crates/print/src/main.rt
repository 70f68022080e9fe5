// Prints the text of each pattern that standard input lists, one to a line: 8 hex digits for 32 bits, 16 for 64.
#![tactic(auto)]

use hexline::Pattern;
use lines::Line;
use powers::Powers;
use std::io;
use std::io::Read;

// How many bytes there are for a text and a line end.
const TEXT_ROOM: usize = 26;

// The most bytes that one read takes.
const CHUNK: usize = 65536;

// Writes the text of a pattern.
fn show<P: Powers>(rt: &impl Print, pattern: P) -> io::Result<()> {
    let mut text = [0u8; TEXT_ROOM];
    match dtoa::format(pattern, &mut text) {
        Ok(n) => {
            text[n] = b'\n';
            rt.write_all(&text[..n + 1])
        }
        Err(_) => Ok(()),
    }
}

// Says on standard error that a line is no pattern. The run goes on where that cannot be written.
fn complain(rt: &impl Eprint, number: u64) {
    let _ = eprintln!(rt; "print: line {number}: neither 8 nor 16 hex digits");
}

// Prints what a whole line asks for.
fn finish(rt: &(impl Print + Eprint), line: &Line) -> io::Result<()> {
    match hexline::parse(line.bytes()) {
        Some(Pattern::Single(bits)) => show(rt, bits),
        Some(Pattern::Double(bits)) => show(rt, bits),
        None => {
            complain(rt, line.number());
            Ok(())
        }
    }
}

// The next two functions stand in the program `read` too, but for a test. Shared, they would be public, and every public function has to
// ensure something: here no contract could say what an input brings.

// Takes the bytes that one read brought, up to the first write that fails. A carriage return stands only before a line end, and is no
// part of a line.
fn take(rt: &(impl Print + Eprint), line: &mut Line, bytes: &[u8]) -> io::Result<()> {
    for b in bytes {
        if *b == b'\n' {
            finish(rt, line)?;
            line.next();
        } else if *b != b'\r' {
            line.push(*b);
        }
    }
    Ok(())
}

// Prints all lines. A last line without a line end counts, if it is not empty. A proved loop has to end, and nothing says that an input
// does: the loop counts its turns, up to a number that no run reaches.
fn print_all(rt: &(impl Input + Print + Eprint)) -> io::Result<()> {
    let mut input = rt.reader();
    let mut line = Line::first();
    let mut buf = [0u8; CHUNK];
    for _ in 0..u64::MAX {
        let n = input.read(&mut buf)?;
        if n == 0 {
            break;
        }
        take(rt, &mut line, &buf[..n])?;
    }
    if !line.bytes().is_empty() {
        finish(rt, &line)?;
    }
    Ok(())
}

fn main(rt: HostRuntime) -> io::Result<()> {
    print_all(&rt)
}
