// Reads each text that standard input lists, one to a line, and writes its patterns of 32 and of 64 bits in hex.
#![tactic(auto)]

ghost use Rattle.std.specs.Prelude.{◌≤◌};

use lines::Line;
use reader::ReadError;
use std::io;
use std::io::Read;

// The most bytes that one read takes.
const CHUNK: usize = 65536;

// How many bytes two patterns take, with a space and a line end.
const LINE: usize = 26;

// The hex digits.
static HEX: [u8; 16] = *b"0123456789abcdef";

// Says on standard error why a line is not read. The run goes on where that cannot be written.
fn complain(rt: &impl Eprint, number: u64, why: &str) {
    let _ = eprintln!(rt; "read: line {number}: {why}");
}

// The text of a line: a carriage return before the line end is no part of it. A line that is too long to be kept whole is too long to be read.
fn text(line: &Line) -> &[u8] {
    match line.bytes().split_last() {
        Some((b'\r', text)) => text,
        _ => line.bytes(),
    }
}

// Puts the last hex digits of a number from one place of a line up to another.
fn put_hex(line: &mut [u8; LINE], from: usize, end: usize, number: u64)
    requires { end ≤ 26 }
{
    let mut left = number;
    for i in (from..end).rev() {
        line[i] = HEX[(left % 16) as usize];
        left /= 16;
    }
}

// Writes the patterns of 32 and of 64 bits. By a format, which was tried, the program took up to 1.7 times as long.
fn show(rt: &impl Print, narrow: u32, wide: u64) -> io::Result<()> {
    let mut line = [b' '; LINE];
    put_hex(&mut line, 0, 8, u64::from(narrow));
    put_hex(&mut line, 9, 25, wide);
    line[25] = b'\n';
    rt.write_all(&line)
}

// Reads what a whole line says, at both widths.
fn finish(rt: &(impl Print + Eprint), line: &Line) -> io::Result<()> {
    let single = reader::read::<u32>(text(line));
    match reader::read::<u64>(text(line)) {
        Ok(wide) => {
            if let Ok(narrow) = single {
                show(rt, narrow, wide)?;
            }
        }
        Err(ReadError::WrongLength) => complain(rt, line.number(), "not 1 to 64 bytes"),
        Err(ReadError::WrongForm) => complain(rt, line.number(), "not a number"),
    }
    Ok(())
}

// The next two functions stand in the program `print` too, but for a test. Shared, they would be public, and every public function has to
// ensure something: here no contract could say what an input brings.

// Takes the bytes that one read brought, up to the first write that fails.
fn take(rt: &(impl Print + Eprint), line: &mut Line, bytes: &[u8]) -> io::Result<()> {
    for b in bytes {
        if *b == b'\n' {
            finish(rt, line)?;
            line.next();
        } else {
            line.push(*b);
        }
    }
    Ok(())
}

// Reads all lines. A last line without a line end counts, if it is not empty. A proved loop has to end, and nothing says that an input
// does: the loop counts its turns, up to a number that no run reaches.
fn read_all(rt: &(impl Input + Print + Eprint)) -> io::Result<()> {
    let mut input = rt.reader();
    let mut line = Line::first();
    let mut buf = [0u8; CHUNK];
    for _ in 0..u64::MAX {
        let n = input.read(&mut buf)?;
        if n == 0 {
            break;
        }
        take(rt, &mut line, &buf[..n])?;
    }
    if !line.bytes().is_empty() {
        finish(rt, &line)?;
    }
    Ok(())
}

fn main(rt: HostRuntime) -> io::Result<()> {
    read_all(&rt)
}
