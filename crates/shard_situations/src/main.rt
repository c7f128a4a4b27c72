// Situations E and G of 01, played with the code. What main expects is proved from the promises of start and step, and the
// program prints what it saw.
#![tactic(auto)]

ghost use Rattle.std.specs.Prelude.{◌≡◌, ◌++◌, drop};
ghost use Rattle.shard.specs.Model.{start_of};
ghost use Rattle.shard_situations.specs.Expected.{answers_e, sent_g};

use refusal::{LEAST_OUT, answer};
use shard::Shard;
use std::io;

// Shard group 1 of 1, fresh.
fn fresh() -> Shard
    ensures { result ≡ (start_of 1 1).shard }
{
    let mut s = Shard::unstarted();
    let started = s.start(1, 1);
    check::expect(started.is_ok());
    s
}

// "sn 2 at a fresh shard: 4. sn 1 twice: 0, then 7." Each ShardAppend is log number 0's, put key 5 value 1000.
fn play_e() -> [u8; 3]
    ensures { result ≡ answers_e }
{
    let mut out = [0; LEAST_OUT];
    let mut s = fresh();
    let early = b"\x0f\x00\x03\x00\x01\x00\x00\x02\x00\x01\x00\x01\x05\xe8\x03\x00\x00";
    let first = b"\x0f\x00\x03\x00\x01\x00\x00\x01\x00\x01\x00\x01\x05\xe8\x03\x00\x00";
    let a = answer(s.step(early, &mut out));
    let b = answer(s.step(first, &mut out));
    let c = answer(s.step(first, &mut out));
    [a, b, c]
}

// "put key 5 value 7, get key 5: one read, place 1, present, 7."
fn play_g(out: &mut [u8; LEAST_OUT]) -> u8
    ensures { (result ≡ 0) × (out.new ≡ sent_g ++ drop 14 out.old) }
{
    let mut s = fresh();
    let both =
        b"\x16\x00\x03\x00\x01\x00\x00\x01\x00\x02\x00\x01\x05\x07\x00\x00\x00\x01\x00\x05\x00\x00\x00\x00";
    answer(s.step(both, out))
}

fn main(rt: HostRuntime) -> io::Result<()> {
    let answers = play_e();
    check::expect(answers[0] == 4);
    check::expect(answers[1] == 0);
    check::expect(answers[2] == 7);
    print!(rt; "E")?;
    for answer in answers {
        print!(rt; " {answer}")?;
    }
    let mut out = [0u8; LEAST_OUT];
    let answer = play_g(&mut out);
    check::expect(answer == 0);
    check::expect(out[8] == 1);
    check::expect(out[9] == 1);
    check::expect(out[10] == 7);
    print!(rt; "\nG {answer}")?;
    for byte in &out[..14] {
        print!(rt; " {byte}")?;
    }
    println!(rt)
}
