// The situations of 01 that concern a board, played with the code. What main expects of B, C, D, F and I is proved from the promises of
// start and step; J, a log of 256 entries, is run. The program prints what it saw.
#![tactic(auto)]

ghost use Rattle.std.specs.Prelude.{◌≡◌, ◌++◌, drop};
ghost use Rattle.board.specs.Model.{start_of};
ghost use Rattle.board_situations.specs.Expected.{submit_of, forward_at, notif_at, seen_d, forward_a, seen_f, seen_i};

use board::Board;
use refusal::answer;
use std::io;

// Board `own` of 2 over one shard group, fresh.
fn fresh(own: u8) -> Board
    ensures { result ≡ (start_of 2 1 own).board }
{
    let mut board = Board::unstarted();
    let _ = board.start(2, 1, own);
    board
}

// ---- Frames: each transaction is client 3's put of key 5, value 1000

fn submit(count: u8, number: u16, ack: u16) -> [u8; 16]
    ensures { result ≡ submit_of count number ack }
{
    let [low, high] = number.to_le_bytes();
    let [ack_low, ack_high] = ack.to_le_bytes();
    [
        14, 0, 1, 0, 3, low, high, ack_low, ack_high, count, 1, 5, 232, 3, 0, 0,
    ]
}

// The client's number is the log number.
fn forward(log_number: u8) -> [u8; 18]
    ensures { result ≡ forward_at log_number }
{
    [
        16, 0, 2, 0, log_number, 0, 3, log_number, 0, 0, 0, 1, 1, 5, 232, 3, 0, 0,
    ]
}

// From shard 1, without reads.
fn notif(log_number: u8) -> [u8; 8]
    ensures { result ≡ notif_at log_number }
{
    [6, 0, 4, 0, 1, log_number, 0, 0]
}

// ---- The situations

// Answers to B, to C, and to A twice; the log's length then. Here and below the answers are numbers, as seen_d, seen_f and seen_i have them and
// as the program prints them.
#[derive(Clone, Copy, Debug, PartialEq, Eq)]
struct SeenD {
    b: u8,
    c: u8,
    first: u8,
    second: u8,
    entries: u16,
}

// "A with its count byte 2: 1", "fresh head, number 1 with ack 0: 4", "A at a fresh head twice: 0 and Forward both times, log length 1".
fn play_d(out: &mut [u8; 68], again: &mut [u8; 68]) -> SeenD
    ensures { (result ≡ seen_d) × (out.new ≡ forward_a ++ drop 18 out.old) × (again.new ≡ forward_a ++ drop 18 again.old) }
{
    let mut lost = [0; 68];
    let mut board = fresh(1);
    let b = answer(board.step(&submit(2, 0, 0), &mut lost));
    let c = answer(board.step(&submit(1, 1, 0), &mut lost));
    let a = submit(1, 0, 0);
    let first = answer(board.step(&a, out));
    let second = answer(board.step(&a, again));
    SeenD {
        b,
        c,
        first,
        second,
        entries: board.len,
    }
}

// The answer to ExecNotif 2, shard 1's queue and which entries are EXE then; the answer to ExecNotif 0, and the last taken number and 1 more.
#[derive(Clone, Copy, Debug, PartialEq, Eq)]
struct SeenF {
    first: u8,
    waiting: usize,
    exe0: bool,
    exe1: bool,
    exe2: bool,
    second: u8,
    taken: u32,
}

// "tail with entries 0, 1, 2 on shard 1; ExecNotif 2 first: queue empty, entry 2 EXE, 0 and 1 PRE. Then ExecNotif 0: taken, last taken
// stays 2."
fn play_f() -> SeenF
    ensures { result ≡ seen_f }
{
    let mut out = [0; 68];
    let mut board = fresh(2);
    let _ = board.step(&forward(0), &mut out);
    let _ = board.step(&forward(1), &mut out);
    let _ = board.step(&forward(2), &mut out);
    let first = answer(board.step(&notif(2), &mut out));
    let waiting = board.queues[0].len;
    let exe0 = board.log[0].exe;
    let exe1 = board.log[1].exe;
    let exe2 = board.log[2].exe;
    let second = answer(board.step(&notif(0), &mut out));
    SeenF {
        first,
        waiting,
        exe0,
        exe1,
        exe2,
        second,
        taken: board.queues[0].taken,
    }
}

#[derive(Clone, Copy, Debug, PartialEq, Eq)]
struct SeenI {
    first: u8,
    second: u8,
}

// "Executed twice for one entry: 0, then 7."
fn play_i() -> SeenI
    ensures { result ≡ seen_i }
{
    let mut out = [0; 68];
    let mut board = fresh(1);
    let _ = board.step(&submit(1, 0, 0), &mut out);
    let executed = b"\x05\x00\x05\x00\x00\x00\x00";
    let first = answer(board.step(executed, &mut out));
    let second = answer(board.step(executed, &mut out));
    SeenI { first, second }
}

// A head's log filled by 256 Submits.
fn full() -> Board {
    let mut board = fresh(1);
    let mut out = [0; 68];
    for number in 0..256 {
        let _ = board.step(&submit(1, number, number), &mut out);
    }
    board
}

// "log of 256, new number: 5; a held PRE number: Forward."
fn play_j(rt: &impl Print) -> io::Result<()> {
    let mut board = full();
    print!(rt; "J {}", board.len)?;
    let mut out = [0; 68];
    for number in [256, 255] {
        let step = board.step(&submit(1, number, number), &mut out);
        print!(rt; " {} {}", answer(step), step.map_or(0, |sent| sent.frames))?;
    }
    show(rt, &out)
}

fn main(rt: HostRuntime) -> io::Result<()> {
    let mut out = [0u8; 68];
    let mut again = [0u8; 68];
    let d = play_d(&mut out, &mut again);
    check::expect(d.b == 1);
    check::expect(d.c == 4);
    check::expect(d.first == 0);
    check::expect(d.second == 0);
    check::expect(d.entries == 1);
    print!(rt; "B {}\nC {}\nD {}", d.b, d.c, d.first)?;
    show(&rt, &out)?;
    print!(rt; "D {}", d.second)?;
    show(&rt, &again)?;
    let f = play_f();
    check::expect(f.first == 0);
    check::expect(f.waiting == 0);
    check::expect(!f.exe0);
    check::expect(!f.exe1);
    check::expect(f.exe2);
    check::expect(f.second == 0);
    check::expect(f.taken == 3);
    println!(rt; "F {} {} {} {}", f.first, f.waiting, f.second, f.taken)?;
    let i = play_i();
    check::expect(i.first == 0);
    check::expect(i.second == 7);
    println!(rt; "I {} {}", i.first, i.second)?;
    play_j(&rt)
}

// The first 18 bytes, a Forward of one operation.
fn show(rt: &impl Print, out: &[u8; 68]) -> io::Result<()> {
    print!(rt; ":")?;
    for byte in &out[..18] {
        print!(rt; " {byte:02x}")?;
    }
    println!(rt)
}
