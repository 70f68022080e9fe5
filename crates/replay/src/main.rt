// Prints each pattern of a stored list, and holds length, text and untouched bytes against what the crate printed for it.
#![tactic(auto)]

ghost use Rattle.std.specs.Prelude.{◌≡◌, ◌≤◌, length, take, IfSome};

use dtoa::Refusal;
use hexline::Pattern;
use powers::Powers;
use std::fs::File;
use std::io;
use std::io::{BufReader, Read};

// The most bytes of a line that are read as one.
const ROOM: usize = 4096;

// What every byte of a buffer is before a call. No text has it.
const MARK: u8 = b'*';

// Whether a buffer holds a text and then marks alone.
fn holds(buf: &[u8], text: &[u8]) -> bool {
    buf.starts_with(text) && buf.iter().skip(text.len()).all(|b| *b == MARK)
}

// Whether a call printed a text, told its length and changed no other byte.
fn printed(o: Result<usize, Refusal>, buf: &[u8], text: &[u8]) -> bool {
    o == Ok(text.len()) && holds(buf, text)
}

// Whether a pattern has a text, in a buffer of 25 bytes and in one of 4,096.
fn prints<P: Powers>(pattern: P, text: &[u8]) -> bool {
    let mut least = [MARK; 25];
    let small = dtoa::format(pattern, &mut least);
    let mut wide = [MARK; 4096];
    let large = dtoa::format(pattern, &mut wide);
    printed(small, &least, text) && printed(large, &wide, text)
}

// Whether a line, a pattern and a space and the crate's text, is as we print it.
fn agrees(line: &[u8]) -> bool {
    let Some(at) = line.iter().position(|b| *b == b' ') else {
        return false;
    };
    let (digits, rest) = line.split_at(at);
    match (hexline::parse(digits), rest.split_first()) {
        (Some(Pattern::Single(bits)), Some((_, text))) => prints(bits, text),
        (Some(Pattern::Double(bits)), Some((_, text))) => prints(bits, text),
        _ => false,
    }
}

// The next byte of a file; none where it has none left or cannot be read.
fn next_byte(file: &mut impl Read) -> Option<u8> {
    let mut one = [0u8; 1];
    match file.read(&mut one) {
        Ok(1) => Some(one[0]),
        _ => None,
    }
}

// Reads a line, and answers how many bytes it has. The list has no empty line, so one that has none is its end. The buffer is fixed, so that a
// line of any length takes no memory: what is longer is read as more lines.
fn read_line(file: &mut impl Read, line: &mut [u8]) -> Option<usize>
    ensures { IfSome result (λ n. (n ≤ length line.new) × (n ≡ length (take n line.new))) }
{
    for (len, place) in line.iter_mut().enumerate() {
        match next_byte(file) {
            Some(b) if b != b'\n' => *place = b,
            _ if len == 0 => return None,
            _ => return Some(len),
        }
    }
    Some(line.len())
}

// Says which line we print otherwise.
fn report(rt: &impl Print, line: &[u8]) -> io::Result<()> {
    rt.write_all(b"replay: differs: ")?;
    rt.write_all(line)?;
    rt.write_all(b"\n")
}

// How many lines were compared, and how many of them differ.
#[derive(Clone, Copy)]
struct Tally {
    lines: u32,
    differences: u32,
}

// Compares the lines of a file, at most as many as a u32 counts.
fn compare(rt: &impl Print, file: &mut impl Read, line: &mut [u8]) -> io::Result<Tally> {
    let mut t = Tally {
        lines: 0,
        differences: 0,
    };
    for _ in 0..u32::MAX {
        let Some(len) = read_line(file, line) else {
            break;
        };
        t.lines = t.lines.wrapping_add(1);
        if !agrees(&line[..len]) {
            report(rt, &line[..len])?;
            t.differences = t.differences.wrapping_add(1);
        }
    }
    Ok(t)
}

// Writes the summary.
fn summarize(rt: &impl Print, t: Tally) -> io::Result<()> {
    let lines = t.lines;
    let differences = t.differences;
    println!(rt;
        "replay: {lines} patterns, each printed into 25 and into 4096 bytes: {differences} differences"
    )
}

fn main(rt: HostRuntime) -> io::Result<()> {
    let mut file = BufReader::new(rt.alloc(), File::open(&rt, "list.txt")?)?;
    let mut line = [0u8; ROOM];
    summarize(&rt, compare(&rt, &mut file, &mut line)?)
}
