// What the bench program does with the records that it has read (01, "The bench program"): they are delivered one by one, each to the board or shard group
// that its address names, and a line is laid for each; then the lines of the logs. Nothing here reads or writes a file.
//
// Each function's result is determined for every input by a function of specs/.
#![tactic(auto)]

ghost use Rattle.std.specs.Prelude.{◌≡◌, ◌≤◌, OnErr, length, take};
ghost use Rattle.rules.specs.Outcomes.{least_out};
ghost use Rattle.board.specs.Model.{step_of as board_step};
ghost use Rattle.shard.specs.Model.{step_of as shard_step};
ghost use Rattle.delivery.specs.Register.{register_of, turn_of, turned, sent_by};
ghost use Rattle.delivery.specs.Delivery.{delivered, delivered_of, shown, standing};
ghost use Rattle.delivery.specs.Logs.{log_lines};
ghost use Rattle.lines.specs.Text.{d_line};
ghost use Rattle.lines.specs.Area.{Laid};
ghost use Rattle.refusal.specs.Number.{answer_of};

use board::Board;
use entry::Entry;
use frames::LogNumber;
use records::{Next, Receiver};
use refusal::Refusal;
use shard::Shard;

// ---- The register under test

// Board i and shard group i stand at i - 1. Those above n and m are not started, and no address names them. Eight of each, whatever n and m are: fixed
// memory. Clone and Copy alone: nothing compares or prints a register.
#[derive(Clone, Copy)]
pub struct Register {
    pub n: u8,
    pub m: u8,
    pub boards: [Board; 8],
    pub shards: [Shard; 8],
}

impl Register {
    // Boards and shard groups as they start. A refused start, as above n and m, leaves one that is not started.
    pub fn start(n: u8, m: u8) -> Register
        ensures { result ≡ register_of n m }
    {
        let mut boards = [Board::unstarted(); 8];
        // Two loops: a board is started from n, m and its own number, a shard group from m and its own.
        for (i, board) in boards.iter_mut().enumerate() {
            let _ = board.start(n, m, i as u8 + 1);
        }
        let mut shards = [Shard::unstarted(); 8];
        for (i, shard) in shards.iter_mut().enumerate() {
            let _ = shard.start(m, i as u8 + 1);
        }
        Register {
            n,
            m,
            boards,
            shards,
        }
    }
}

// ---- Delivery

// A board's step, on an area of the least length: how many frames it sends, or why it is refused. A refused step leaves the board as it was.
fn step_board(b: &mut Board, frame: &[u8]) -> Result<u8, Refusal>
    ensures stored { b.new ≡ (board_step b.old frame.now least_out).board }
    ensures told { let t = board_step b.old frame.now least_out in (answer_of result ≡ t.answer) × (sent_by result ≡ t.frames) }
    ensures refusal { OnErr result (b.new ≡ b.old) }
{
    let mut out = [0; refusal::LEAST_OUT];
    let sent = b.step(frame, &mut out)?;
    Ok(sent.frames)
}

// The same of a shard group: a step that is taken sends one frame. Shard::step gives the bytes alone.
fn step_shard(s: &mut Shard, frame: &[u8]) -> Result<u8, Refusal>
    ensures stored { s.new ≡ (shard_step s.old frame.now least_out).shard }
    ensures told { let t = shard_step s.old frame.now least_out in (answer_of result ≡ t.answer) × (sent_by result ≡ t.frames) }
    ensures refusal { OnErr result (s.new ≡ s.old) }
{
    let mut out = [0; refusal::LEAST_OUT];
    s.step(frame, &mut out)?;
    Ok(1)
}

// A record's frame goes to whom its address names: how many frames that sends, or why it is refused.
fn turn(r: &mut Register, address: u8, frame: &[u8]) -> Result<u8, Refusal>
    ensures { turned r.new result ≡ turn_of r.old address frame.now }
{
    match records::named(r.n, r.m, address) {
        Receiver::Board(i) => step_board(&mut r.boards[i], frame),
        Receiver::Shard(i) => step_shard(&mut r.shards[i], frame),
        Receiver::Nobody => Err(Refusal::NotForMe),
    }
}

// The d line of a turn. Answer 0 means that the step was taken.
fn line(index: u64, turn: Result<u8, Refusal>, text: &mut [u8]) -> usize
    ensures { Laid (d_line index (answer_of turn) (sent_by turn)) text.old text.new result }
{
    lines::d_line(index, refusal::answer(turn), turn.unwrap_or(0), text)
}

// The next record's index after some records; how many bytes of the input they were, and how many of the text their lines are.
#[derive(Clone, Copy, Debug, Default, PartialEq, Eq)]
pub struct Delivered {
    pub index: u64,
    pub taken: usize,
    pub written: usize,
}

// The records at the front of the input are delivered in their order, each to whom its address names, and the line of each is laid behind the last,
// until no whole record is left or the text has less than lines::ROOM bytes left.
pub fn deliver(r: &mut Register, first: u64, input: &[u8], text: &mut [u8]) -> Delivered
    ensures run { shown r.new result ≡ delivered_of (delivered r.old first input.now (length text.old)) }
    ensures lines { text.new ≡ standing (delivered r.old first input.now (length text.old)).text text.old }
    ensures inside { (result.taken ≤ length input.now) × (result.written ≤ length text.old) }
{
    let mut index = first;
    let mut taken = 0;
    let mut written = 0;
    // The index is handed back, so no `for` counts it.
    while index < u64::MAX && text.len() - written >= lines::ROOM {
        let Next::Record { address, end } = records::record_at(&input[taken..]) else {
            break;
        };
        let frame = &input[taken + 1..taken + end];
        let turn = turn(r, address, frame);
        written += line(index, turn, &mut text[written..]);
        taken += end;
        index += 1;
    }
    Delivered {
        index,
        taken,
        written,
    }
}

// ---- The logs

// The entries that a log holds: the first len of its places, and all where len is more than they are. Two parameters: C lays the board's log and its
// length out side by side.
fn held(log: &[Entry; 256], len: LogNumber) -> &[Entry]
    ensures value { result.now ≡ take len log.now }
    ensures few { length result.now ≤ 256 }
{
    let end = usize::from(len).min(log.len());
    &log[..end]
}

// How many bytes a text must have to take the lines of a log: 256 lines, and for each what a line may have.
const LOG_ROOM: usize = 256 * lines::ROOM;

// The L lines of a board's log, rising, from the first byte of the text on. A text of less than LOG_ROOM bytes takes none; 0 and no
// Option then, since the promise is the length of the definition's bytes, of which there are none. The text is the caller's and the count is answered:
// nothing is allocated.
pub fn log_lines(board: u8, b: &Board, text: &mut [u8]) -> usize
    ensures written { result ≡ length (log_lines board b.now (length text.old)) }
    ensures lines { text.new ≡ standing (log_lines board b.now (length text.old)) text.old }
    ensures inside { result ≤ length text.old }
{
    if text.len() < LOG_ROOM {
        return 0;
    }
    let entries = held(&b.log, b.len);
    let mut written = 0;
    for (i, e) in entries.iter().enumerate() {
        let rest = &mut text[written..];
        written += lines::l_line(board, i as u16, e.client, e.number, e.exe, rest);
    }
    written
}
