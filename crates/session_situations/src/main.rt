// Situations H and K of 01, played with the code: client 3 invokes and is answered, and the program prints what it saw.
#![tactic(auto)]

use frames::{Frame, Head, Items};
use session::{Asked, Operations, Reply, Sent, Session};
use std::io;

// What an invocation gave, and the ack that stands in Submit.
#[derive(Clone, Copy, Debug, PartialEq, Eq)]
struct Seen {
    sent: Sent,
    ack: u16,
}

// Put key 5 value 1000: the first of the four, the others lie behind the count.
fn invoke(s: &mut Session) -> Seen {
    let put = Asked {
        code: 1,
        key: 5,
        value: 1000,
    };
    let operations = Operations {
        count: 1,
        items: [put; 4],
    };
    let mut out = [0; 68];
    let sent = Sent::from(s.invoke(operations, &mut out));
    let ack = u16::from_le_bytes([out[7], out[8]]);
    Seen { sent, ack }
}

// The head's Response to a number, without reads.
fn answer(s: &mut Session, number: u16) -> Reply {
    let frame = Frame {
        head: Head::Response { client: 3, number },
        list: Items::new(),
    };
    let mut bytes = [0; 8];
    frames::write_frame(frame, &mut bytes);
    Reply::from(s.response(&bytes))
}

// A session of client 3.
fn started() -> Session {
    let mut s = Session::unstarted();
    s.start(3).unwrap();
    s
}

// "numbers 0..7 invoked, 1..7 answered: invoke gives 9. Then 0 answered: number 8 goes out with ack 8."
fn play_h(rt: &impl Print) -> io::Result<()> {
    let mut s = started();
    print!(rt; "H")?;
    for _ in 0..8 {
        print!(rt; " {}", invoke(&mut s).sent.answer)?;
    }
    for number in 1..8 {
        print!(rt; " {}", answer(&mut s, number).answer)?;
    }
    print!(rt; " {}", invoke(&mut s).sent.answer)?;
    answer(&mut s, 0);
    let goes = invoke(&mut s);
    println!(rt; " {} {} {}", goes.sent.answer, goes.sent.number, goes.ack)
}

// "number 65,534 goes; the next invoke gives 10": every number before it is invoked and answered.
fn play_k(rt: &impl Print) -> io::Result<()> {
    let mut s = started();
    print!(rt; "K")?;
    for _ in 0..65534 {
        let number = invoke(&mut s).sent.number;
        answer(&mut s, number);
    }
    let last = invoke(&mut s);
    print!(rt; " {} {} {}", last.sent.answer, last.sent.number, last.ack)?;
    println!(rt; " {}", invoke(&mut s).sent.answer)
}

fn main(rt: HostRuntime) -> io::Result<()> {
    play_h(&rt)?;
    play_k(&rt)
}
