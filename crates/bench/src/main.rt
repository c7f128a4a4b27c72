// The bench program (01, "The bench program"): n and m, then records, from standard input to its end; a line for each record, then the logs, to
// standard output. What is done with the bytes is the crate delivery's, and proved there. Here they are read and written, in large pieces: one read
// and one write for every 64 KB or so. No contract can say which bytes are read and written; what is proved here is that it is safe and ends.
// Crate bench_means has these functions once more as one definition (specs/Program), and shows that what it writes is what 01 says of all that is read,
// whatever each read gives. Whoever changes the one changes the other. A read that fails counts as the end of the input, as there; a write that fails
// ends the program with its error, and what was written until then is a front of what is said there.
#![tactic(auto)]

ghost use Rattle.std.specs.Prelude.{◌≤◌, length};

use delivery::Register;
use records::Next;
use std::io;
use std::io::Read;

// The first bytes of a text are written. A text with its count: five callers would say &text[..count], and the bound is asked once, here.
fn put(rt: &impl Print, text: &[u8], count: usize) -> io::Result<()>
    requires { count ≤ length text.now }
{
    rt.write_all(&text[..count])
}

// What one read gives: how many bytes, none at the end of the input or where the read fails.
fn read_once(source: &mut impl Read, input: &mut [u8]) -> usize
    ensures { result ≤ length input.new }
{
    source.read(input).unwrap_or(0)
}

// The first two bytes of the input, or as many of them as there are. How many. No read_exact: it tries again where a read was interrupted, and here
// that, as each read that fails, is the end of the input. Not vectors' read_full, which hands a failed read on; no crate lies under the two programs.
fn read_head(source: &mut impl Read, head: &mut [u8]) -> usize
    ensures { result ≤ length head.new }
{
    let mut got = 0;
    while got < head.len() {
        let more = read_once(source, &mut head[got..]);
        if more == 0 {
            break;
        }
        got += more;
    }
    got
}

// As many bytes of the input as there are, or as find room, behind those that were kept. How many bytes there are then. The area and a place
// in it: what was kept stands before what is read, in one area (fixed memory).
fn read_behind(source: &mut impl Read, input: &mut [u8], kept: usize) -> usize
    requires { kept ≤ length input.old }
    ensures { result ≤ length input.new }
{
    kept + read_once(source, &mut input[kept..])
}

// Records are read and delivered until the input ends or is cut. A proved loop has to end, and nothing says that the input does: the turns are counted
// up to a number that no run reaches. input[from..end] is what was read and not delivered: a BufReader would allocate.
#[tactic(auto, using(records::proofs::Front::length_inside))]
fn run(
    rt: &impl Print,
    source: &mut impl Read,
    register: &mut Register,
    input: &mut [u8],
    text: &mut [u8],
) -> io::Result<()> {
    let mut index = 0;
    let mut from = 0;
    let mut end = 0;
    for _ in 0..u64::MAX {
        let d = delivery::deliver(register, index, &input[from..end], text);
        index = d.index;
        from += d.taken;
        put(rt, text, d.written)?;
        match records::record_at(&input[from..end]) {
            // The text was full: there is more to deliver.
            Next::Record { .. } => {}
            Next::Need => {
                let kept = records::to_front(input, from, end);
                from = 0;
                end = read_behind(source, input, kept);
                if end <= kept {
                    if kept > 0 {
                        put_cut(rt, text)?;
                    }
                    break;
                }
            }
            Next::Cut => {
                put_cut(rt, text)?;
                break;
            }
        }
    }
    Ok(())
}

#[tactic(auto, using(lines::proofs::Short::cut_fits))]
fn put_cut(rt: &impl Print, text: &mut [u8]) -> io::Result<()> {
    let count = lines::cut_line(text);
    put(rt, text, count)
}

fn put_logs(rt: &impl Print, r: &Register, text: &mut [u8]) -> io::Result<()> {
    for (i, board) in r.boards.iter().take(usize::from(r.n)).enumerate() {
        let count = delivery::log_lines(i as u8 + 1, board, text);
        put(rt, text, count)?;
    }
    Ok(())
}

#[tactic(auto, using(lines::proofs::Short::header_fits))]
fn bench(
    rt: &impl Print,
    source: &mut impl Read,
    n: u8,
    m: u8,
    input: &mut [u8],
    text: &mut [u8],
) -> io::Result<()> {
    let count = lines::header(n, m, text);
    put(rt, text, count)?;
    let mut register = Register::start(n, m);
    run(rt, source, &mut register, input, text)?;
    put_logs(rt, &register, text)
}

#[tactic(auto, using(lines::proofs::Short::setup_fits))]
fn main(rt: HostRuntime) -> io::Result<()> {
    let mut source = rt.stdin();
    let mut head = [0; 2];
    let mut input = [0; 65536];
    let mut text = [0; 65536];
    let got = read_head(&mut source, &mut head);
    let [n, m] = head;
    if got == 2 && records::usable(n, m) {
        return bench(&rt, &mut source, n, m, &mut input, &mut text);
    }
    let count = lines::setup_line(&mut text);
    put(&rt, &text, count)
}
