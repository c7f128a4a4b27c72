// The frames that an entry of the log now makes its board send, written back to back. Of the board only what is needed is lent.
// They are the rules' `onward`, in number and in every byte: `send_means` in proofs/Meaning.antt.
#![tactic(auto)]

ghost use Rattle.std.specs.Prelude.{◌≡◌, ◌+◌, ◌≤◌, length, take};
ghost use Rattle.send.specs.Model.{Sends, count_in, backward_of, forward_frame, appends_to, send_parts};

use entry::Entry;
use frames::{Frame, Head, Items, LogNumber};
use refusal::LEAST_OUT;

// How many frames were sent, and how many bytes they are.
#[derive(Clone, Copy, Debug, PartialEq, Eq, Default)]
pub struct Sent {
    pub frames: u8,
    pub bytes: usize,
}

// "sn for shard j counts the log's entries up to this one that touch j, gets included." masks has, of each entry, the set
// of the shards that it touches. The column and the entry's own place in it, as count_in takes them: sn counts up to there.
pub fn count_touching(masks: &[u8; 256], log_number: LogNumber, shard: u8) -> u16
    ensures { result ≡ count_in shard (take (log_number + 1) masks.now) }
{
    let up_to = (usize::from(log_number) + 1).min(masks.len());
    let mut count = 0;
    // A loop and no chain of `filter` and `count`: the compiler counts here many masks at once, there one by one, in eight times the time (measured).
    for mask in &masks[..up_to] {
        if entry::in_mask(*mask, shard) {
            count += 1;
        }
    }
    count
}

// ---- The frames

// "Forward carries the smaller of the sender's floor and the number as ack." No frame has more than four items.
#[tactic(auto, unfolding(crate::specs::Model::forward_frame))]
fn forward(e: &Entry, floor: u16, log_number: LogNumber) -> Frame
    ensures { result ≡ forward_frame e.now floor log_number }
{
    Frame {
        head: Head::Forward {
            log_number,
            client: e.client,
            number: e.number,
            ack: floor.min(e.number),
        },
        list: Items {
            count: e.count.min(4),
            items: e.items,
        },
    }
}

// "Executed to i−1, or from the head Response to the client."
#[tactic(auto, unfolding(frames::specs::Choosing::choosing, crate::specs::Model::backward_of))]
fn backward(e: &Entry, m: u8, own: u8, log_number: LogNumber) -> Frame
    ensures { result ≡ backward_of e.now m own log_number }
{
    let head = if own == 1 {
        Head::Response {
            client: e.client,
            number: e.number,
        }
    } else {
        Head::Executed { log_number }
    };
    Frame {
        head,
        list: e.reads_of(m),
    }
}

// ---- The out area

// "send ShardAppend for each remaining shard, rising". A remaining shard has an operation: the second test only says so.
#[tactic(auto, using(crate::proofs::Room::appends_few), unfolding(crate::specs::Model::appends_to, crate::specs::Model::laid, crate::specs::Model::bytes_of))]
fn appends(e: &Entry, m: u8, log_number: LogNumber, masks: &[u8; 256], out: &mut [u8]) -> Sent
    requires { 68 ≤ length out.old }
    ensures { Sends (appends_to e.now.remaining e.now.count e.now.items m log_number masks.now 8) out.old out.new result }
{
    let operations = e.list();
    let mut sent = Sent::default();
    for shard in 1..=8 {
        let list = entry::part_on(m, shard, operations);
        if entry::in_mask(e.remaining, shard) && list.count >= 1 {
            let sn = count_touching(masks, log_number, shard);
            let head = Head::ShardAppend {
                shard,
                log_number,
                sn,
            };
            sent.bytes = frames::write_behind(Frame { head, list }, out, sent.bytes);
            sent.frames += 1;
        }
    }
    sent
}

// What the entry, as it now stands, makes its board send: "if EXE, send Executed to i−1; else if i < n, send Forward; else
// send ShardAppend for each remaining shard, rising". n, m, own: the board's; floor: that of the entry's client. Without 68
// bytes nothing is sent.
// n, m, own one by one: C lays them flat in the board's record, so a struct of them would be made only to be taken apart here.
#[tactic(auto, using(crate::proofs::Lay::parts_none, crate::proofs::Lay::parts_tail), unfolding(crate::specs::Model::laid, crate::specs::Model::bytes_of))]
pub fn send_parts(
    e: &Entry,
    n: u8,
    m: u8,
    own: u8,
    floor: u16,
    log_number: LogNumber,
    masks: &[u8; 256],
    out: &mut [u8],
) -> Sent
    ensures { Sends (send_parts e.now n m own floor log_number masks.now (length out.old)) out.old out.new result }
{
    if out.len() < LEAST_OUT {
        return Sent::default();
    }
    let frame = if e.exe {
        backward(e, m, own, log_number)
    } else if own < n {
        forward(e, floor, log_number)
    } else {
        return appends(e, m, log_number, masks, out);
    };
    Sent {
        frames: 1,
        bytes: frames::write_frame(frame, out),
    }
}
