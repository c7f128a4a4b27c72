// The lines that the bench program writes (01, "The bench program"), as bytes. Each function lays one line from the first byte of an area, leaves
// the other bytes as they were, and answers how many bytes the line has. An area of less than 128 bytes takes no line: it stays as it was, and the
// answer is 0. Every line ends with one newline. The area is the caller's and the count is answered: nothing is allocated. 0 and no
// Option where it takes no line: Laid, by which each line is promised, is of a number.
#![tactic(auto)]

ghost use Rattle.std.specs.Prelude.{◌≡◌, List, ℕ, ◌∷◌, [], ◌++◌, length, take, ◌+◌, ◌<◌, ◌≤◌};
ghost use Rattle.lines.specs.Text.{decimal_of, field_of, header_line, d_line, l_line, cut_line, setup_line};
ghost use Rattle.lines.specs.Area.{Laid};
ghost use Rattle.lines.specs.declared.TheConstants.{ROOM};

use std::marker::Model;

// The header: n and m.
#[tactic(auto, using(crate::proofs::Digits::lengths), unfolding(crate::specs::Text::header_line))]
pub fn header(n: u8, m: u8, out: &mut [u8]) -> usize
    ensures { Laid (header_line n m) out.old out.new result }
{
    let mut line = Line::new();
    line.word(b"chain ");
    line.field(n.into(), b' ');
    line.word(b"shards ");
    line.field(m.into(), b'\n');
    line.lay(out)
}

// A d line: record index, answer, frames sent. The answer is its number: the definition d_line, which the line is stated by, is over it.
#[tactic(auto, using(crate::proofs::Digits::lengths), unfolding(crate::specs::Text::d_line))]
pub fn d_line(index: u64, answer: u8, frames: u8, out: &mut [u8]) -> usize
    ensures { Laid (d_line index answer frames) out.old out.new result }
{
    let mut line = Line::new();
    line.byte(b'd');
    line.field(index, b' ');
    line.field(answer.into(), b' ');
    line.field(frames.into(), b'\n');
    line.lay(out)
}

// An L line: board, log number, client, number, and PRE or EXE: exe as the entry has it, and as the definition l_line is over it.
// client and number one by one: l_line is over them so, and this crate stands on no other of the repository.
#[tactic(auto, using(crate::proofs::Digits::lengths), unfolding(crate::specs::Text::l_line))]
pub fn l_line(
    board: u8,
    log_number: u16,
    client: u8,
    number: u16,
    exe: bool,
    out: &mut [u8],
) -> usize
    ensures { Laid (l_line board log_number client number exe) out.old out.new result }
{
    let mut line = Line::new();
    line.byte(b'L');
    line.field(board.into(), b' ');
    line.field(log_number.into(), b' ');
    line.field(client.into(), b' ');
    line.field(number.into(), b' ');
    line.word(if exe { b"EXE" } else { b"PRE" });
    line.byte(b'\n');
    line.lay(out)
}

// The line that stands in place of a cut record's.
pub fn cut_line(out: &mut [u8]) -> usize
    ensures { Laid cut_line out.old out.new result }
{
    let mut line = Line::new();
    line.word(b"cut\n");
    line.lay(out)
}

// The only line where n or m is bad or missing.
pub fn setup_line(out: &mut [u8]) -> usize
    ensures { Laid setup_line out.old out.new result }
{
    let mut line = Line::new();
    line.word(b"setup 11\n");
    line.lay(out)
}

// How many bytes an area must have to take a line. No line has more.
pub const ROOM: usize = 128;

// A line as it is written, part by part. No ArrayVec of the kit: its try_extend_from_slice answers a Result that each line
// would throw away, where word asks for the room and is proved to have it.
#[derive(Drop)]
struct Line {
    bytes: [u8; ROOM],
    len: usize,
}

impl Model for Line {
    ghost Value = { List ℕ };

    ghost view = { λ line. take line.len line.bytes };

    ghost invariant = { λ line. line.len ≤ ROOM };
}

impl Line {
    fn new() -> Line
        ensures { result ≡ [] }
    {
        Line {
            bytes: [0; ROOM],
            len: 0,
        }
    }

    // A number and the byte that ends it.
    #[tactic(auto, using(crate::proofs::Digits::lengths))]
    fn field(&mut self, x: u64, end: u8)
        requires { length self.old + 21 ≤ ROOM }
        ensures { self.new ≡ self.old ++ field_of x end }
    {
        self.decimal(x);
        self.byte(end);
    }

    // A number in decimal, as the crate itoa of the kit writes it.
    #[tactic(auto, using(crate::proofs::Digits::decimal_laws))]
    fn decimal(&mut self, x: u64)
        requires { length self.old + length (decimal_of x) ≤ ROOM }
        ensures { self.new ≡ self.old ++ decimal_of x }
    {
        self.word(itoa::Buffer::new().format(x).as_bytes());
    }

    fn word(&mut self, word: &[u8])
        requires { length self.old + length word.now ≤ ROOM }
        ensures { self.new ≡ self.old ++ word.now }
    {
        let end = self.len + word.len();
        self.bytes[self.len..end].copy_from_slice(word);
        self.len = end;
    }

    fn byte(&mut self, b: u8)
        requires { length self.old < ROOM }
        ensures { self.new ≡ self.old ++ b ∷ [] }
    {
        self.bytes[self.len] = b;
        self.len += 1;
    }

    // The line from the first byte of an area, if the area takes one.
    fn lay(&self, out: &mut [u8]) -> usize
        ensures { Laid self.now out.old out.new result }
    {
        if out.len() < ROOM {
            return 0;
        }
        out[..self.len].copy_from_slice(&self.bytes[..self.len]);
        self.len
    }
}
