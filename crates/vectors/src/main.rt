// Runs the vectors of the frames: each line of the input is a frame's bytes as hexadecimal digits and a text behind them; the line is
// written again with an answer in place of the digits.
#![tactic(auto)]

ghost use Rattle.std.specs.Prelude.{◌<◌, ◌≤◌, length, IfOk, IfSome};

use frames::{Frame, Head};
use std::io::Read;
use std::{fmt, io};

// What a line's digits turn out to be.
#[derive(Clone, Copy, Debug, PartialEq, Eq)]
enum Answer {
    // The bytes are read as a frame, and every way of writing it gives them again.
    Frame,
    // They are refused.
    Refused,
    // Something of that fails.
    Wrong,
}

// What is written for it.
impl fmt::Display for Answer {
    fn fmt<W: fmt::Write>(&self, f: &mut fmt::Formatter<W>) -> fmt::Result {
        f.write_str(match self {
            Answer::Frame => "0",
            Answer::Refused => "1",
            Answer::Wrong => "9",
        })
    }
}

// ---- One vector

// The bytes of an out area.
const AREA: usize = 80;

// An out area that nothing was written to.
const EMPTY: [u8; AREA] = [0xEE; AREA];

// The most bytes of a vector.
const MOST: usize = 400;

// s laid over an out area from a place on, as far as it reaches.
// Clipped at the area's end, and so no `copy_from_slice`, which wants two of one length.
fn lay(s: &[u8], at: usize, mut area: [u8; AREA]) -> [u8; AREA] {
    for (to, from) in area.iter_mut().skip(at).zip(s) {
        *to = *from;
    }
    area
}

// The frame is written as s, and no other byte changes.
fn once(f: Frame, s: &[u8]) -> bool {
    let mut out = EMPTY;
    let end = frames::write_frame(f, &mut out);
    end == s.len() && out == lay(s, 0, EMPTY)
}

// Written behind itself it stands there twice, and no other byte changes.
fn twice(f: Frame, s: &[u8]) -> bool {
    let mut out = EMPTY;
    let first = frames::write_frame(f, &mut out);
    let second = frames::write_behind(f, &mut out, first);
    first == s.len() && first < second && out == lay(s, first, lay(s, 0, EMPTY))
}

// With one byte too little nothing is written and 0 is returned.
fn never(f: Frame, s: &[u8]) -> bool {
    if s.is_empty() || AREA < s.len() {
        return false;
    }
    let mut out = EMPTY;
    let end = frames::write_frame(f, &mut out[..s.len() - 1]);
    end == 0 && out == EMPTY
}

// Where the frame ends with which the bytes begin.
fn end_of(s: &[u8]) -> Option<usize> {
    Some(frames::read_front(s)?.end)
}

// The reader of a front finds where the frame ends, also where other bytes follow.
fn ends(s: &[u8]) -> bool {
    end_of(s) == Some(s.len()) && end_of(&lay(s, 0, EMPTY)) == Some(s.len())
}

fn answer_to(s: &[u8]) -> Answer {
    let f = frames::read_frame(s);
    if f.head == Head::Bad {
        Answer::Refused
    } else if once(f, s) && twice(f, s) && never(f, s) && ends(s) {
        Answer::Frame
    } else {
        Answer::Wrong
    }
}

// ---- The input

// A hexadecimal digit's value.
// No `to_digit` and no crate hex: a lower case letter is no digit here.
fn digit(c: u8) -> Option<u8>
    ensures { IfSome result (λ value. value < 16) }
{
    match c {
        b'0'..=b'9' => Some(c - b'0'),
        b'A'..=b'F' => Some(c - b'A' + 10),
        _ => None,
    }
}

// Where the digits with which a text begins end.
fn digits_end(text: &[u8]) -> usize
    ensures { result ≤ length text.now }
{
    text.iter()
        .position(|c| digit(*c).is_none())
        .unwrap_or(text.len())
}

// The answer to the bytes that a text of digits gives; more than MOST are wrong.
fn vector(text: &[u8]) -> Answer {
    let mut bytes = [0; MOST];
    for (byte, pair) in bytes.iter_mut().zip(text.chunks_exact(2)) {
        *byte = digit(pair[0]).unwrap_or(0) * 16 + digit(pair[1]).unwrap_or(0);
    }
    match bytes.get(..text.len() / 2) {
        Some(s) => answer_to(s),
        None => Answer::Wrong,
    }
}

fn line(rt: &impl Print, text: &[u8]) -> io::Result<()> {
    let (digits, rest) = text.split_at(digits_end(text));
    print!(rt; "{}", vector(digits))?;
    rt.write_all(rest)
}

// As many bytes of the input as there are, or as find room. How many.
// By hand: `read_to_end` wants a Vec (no heap), and `read_exact` doesn't say how many bytes came before the end.
fn read_full(from: &mut impl Read, all: &mut [u8]) -> io::Result<usize>
    ensures { IfOk result (λ count. count ≤ length all.new) }
{
    let mut count = 0;
    while count < all.len() {
        let got = from.read(&mut all[count..])?;
        if got == 0 {
            break;
        }
        count += got;
    }
    Ok(count)
}

fn run(rt: &impl Print, from: &mut impl Read, all: &mut [u8]) -> io::Result<()> {
    let count = read_full(from, all)?;
    for text in all[..count].split_inclusive(|c| *c == b'\n') {
        line(rt, text)?;
    }
    Ok(())
}

fn main(rt: HostRuntime) -> io::Result<()> {
    let mut space = [0u8; 65536];
    run(&rt, &mut rt.stdin(), &mut space)
}
