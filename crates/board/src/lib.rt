// A board: its state, its start, and its step on a frame's bytes with an out area of any length.
//
// `start` and `step` change the board in place. What a frame comes to, the refusals in the order of 01's table, is decided in the crate
// verdict, on small parts of the board that are lent to it; `step` stores what it says.
//
// Each function's result is determined for every input by a function of specs/Model.antt. What a start and a step mean in the
// rules' words is stated and proved in the crate board_means.
#![tactic(auto)]

ghost use Rattle.std.specs.Prelude.{◌≡◌, ◌<◌, ◌==◌, false, OnErr, length, position, take};
ghost use Rattle.board.specs.Model.{started_of, shown, empty_board, in_range, start_of, slot_of, name_of, place_of, followed_of, raised_of, frames_of, step_of, out_of};
ghost use Rattle.frames.specs.View.{Bytes};
ghost use Rattle.send.specs.Model.{Sends};

use entry::Entry;
use frames::{Head, LogNumber};
use queue::Queue;
use refusal::Refusal;
use send::Sent;
use verdict::{Change, LOG_SIZE};

// "Its log has entries ..", the first len of log: an entry's log number is its place. names and touched are columns of the log, each
// entry's client and number in one word and its shards as a mask: find and count look at these and not at the whole log. Per client:
// next, which is high + 1, and floor. Per shard: its queue. What lies past len, or belongs to no client or shard, is zero.
// C lays it out, so the log's length, its columns and the flags stand flat, and a number that is not there is 0. Clone and Copy alone:
// nothing compares or prints a record of this size.
#[repr(C)]
#[derive(Clone, Copy)]
pub struct Board {
    pub log: [Entry; 256],
    pub len: LogNumber,
    pub names: [u32; 256],
    pub touched: [u8; 256],
    pub next: [u32; 16],
    pub floor: [u16; 16],
    pub queues: [Queue; 8],
    pub n: u8,
    pub m: u8,
    pub own: u8,
    pub started: bool,
}

// "Boards n: 2..8 .. Shard groups m: 1..8"; the own number is 1..n. One by one, here and in `start`, as C hands them in (register_c::board_start).
// Beside the tests in records and shard: no crate with code lies under the three.
#[tactic(auto, unfolding(crate::specs::Model::in_range))]
fn in_range(n: u8, m: u8, own: u8) -> bool
    ensures { result ≡ in_range n m own }
{
    (2..=8).contains(&n) && (1..=8).contains(&m) && (1..=n).contains(&own)
}

// Where an entry lies.
#[tactic(auto, unfolding(crate::specs::Model::slot_of))]
fn slot_of(log_number: LogNumber) -> usize
    ensures { (result ≡ slot_of log_number) × (result < 256) }
{
    usize::from(log_number % LOG_SIZE)
}

// A client's number in one word, by the sum that name_of states. client and number apart, here and below, as the
// entry has them: C lays them flat there.
#[tactic(auto, unfolding(crate::specs::Model::name_of))]
fn name_of(client: u8, number: u16) -> u32
    ensures { result ≡ name_of client number }
{
    u32::from(client) * 65536 + u32::from(number)
}

// "Floor becomes the larger of floor and ack." By index: of what `get_mut` lends, the proof knows no element afterwards. `raise` and `follow` are
// two: one keeps the larger, the other stores, in columns of two types.
#[tactic(auto, unfolding(crate::specs::Model::raised_of))]
fn raise(floor: &mut [u16; 16], client: u8, ack: u16)
    ensures { floor.new ≡ raised_of floor.old client ack }
{
    let at = usize::from(client);
    if at < floor.len() {
        floor[at] = floor[at].max(ack);
    }
}

// high, "the largest number in the log", is now the number of an entry that is new. The flag is tested here: with an `if` in `step`, between its
// writes, the proof of `step` did not close (tried).
#[tactic(auto, unfolding(frames::specs::Choosing::choosing, crate::specs::Model::followed_of))]
fn follow(next: &mut [u32; 16], fresh: bool, client: u8, number: u16)
    ensures { next.new ≡ followed_of next.old fresh client number }
{
    let at = usize::from(client);
    if fresh && at < next.len() {
        next[at] = u32::from(number) + 1;
    }
}

impl Board {
    // ---- Start

    // An empty state that is not started. By hand: a Default derived over 256 elements was tried (in queue and shard) and did not prove.
    #[tactic(auto, unfolding(crate::specs::Model::empty_board))]
    pub fn unstarted() -> Board
        ensures { result ≡ empty_board 0 0 0 false }
    {
        Board {
            log: [entry::no_entry(); 256],
            len: 0,
            names: [0; 256],
            touched: [0; 256],
            next: [0; 16],
            floor: [0; 16],
            queues: [queue::no_queue(); 8],
            n: 0,
            m: 0,
            own: 0,
            started: false,
        }
    }

    // The board is written as a whole, whatever it held before: every field, and the bytes between fields too. No contract speaks of those;
    // tests/c/layout.c compares them. "A refused start hands back an empty state marked as not started."
    #[tactic(auto, unfolding(frames::specs::Choosing::choosing, crate::specs::Model::start_of, crate::specs::Model::empty_board))]
    pub fn start(&mut self, n: u8, m: u8, own: u8) -> Result<(), Refusal>
        ensures { started_of self.new result ≡ start_of n m own }
    {
        *self = Board::unstarted();
        if !in_range(n, m, own) {
            return Err(Refusal::NotUsable);
        }
        self.n = n;
        self.m = m;
        self.own = own;
        self.started = true;
        Ok(())
    }

    // ---- The log, by log number and by client

    // The names of the log's entries, and all where len is more than there are.
    fn held_names(&self) -> &[u32]
        ensures { result.now ≡ take self.now.len self.now.names }
    {
        let end = usize::from(self.len).min(self.names.len());
        &self.names[..end]
    }

    // The log number under which a client's number is held, if it is. Over a slice, so that a turn counts one thing: with `take(len)` it counts two.
    // queue's `before` is the same chain over its numbers: a function for both would be no shorter than the chain.
    fn find(&self, client: u8, number: u16) -> Option<usize>
        ensures { result ≡ position (λ x. x == name_of client number) (take self.now.len self.now.names) }
    {
        let name = name_of(client, number);
        self.held_names().iter().position(|x| *x == name)
    }

    // The log number that a frame is about: the one that it names; of a Submit the one under which its number is held, or is to be.
    #[tactic(auto, unfolding(frames::specs::Choosing::choosing, crate::specs::Model::place_of))]
    fn place_of(&self, head: Head) -> LogNumber
        ensures { result ≡ place_of head self.now.next self.now.names self.now.len }
    {
        match head {
            Head::Submit { client, number, .. } => {
                if u32::from(number) < verdict::of_client(&self.next, client, 0) {
                    // A length over 256, which no run makes, counts as 256: the columns have no more.
                    self.find(client, number)
                        .unwrap_or(usize::from(self.len.min(LOG_SIZE))) as LogNumber
                } else {
                    self.len
                }
            }
            Head::Forward { log_number, .. }
            | Head::ExecNotif { log_number, .. }
            | Head::Executed { log_number } => log_number,
            Head::Bad | Head::ShardAppend { .. } | Head::Response { .. } => self.len,
        }
    }

    // ---- The step

    // The frames that the changed entry makes this board send, or none.
    #[tactic(auto, unfolding(frames::specs::Choosing::choosing, crate::specs::Model::frames_of, send::specs::Model::laid, send::specs::Model::bytes_of))]
    fn sent(&self, change: &Change, log_number: LogNumber, out: &mut [u8]) -> Sent
        ensures { Sends (frames_of change.now.sends change.now.entry self.now.n self.now.m self.now.own self.now.floor log_number self.now.touched (length out.old)) out.old out.new result }
    {
        if !change.sends {
            return Sent::default();
        }
        let e = &change.entry;
        let low = verdict::of_client(&self.floor, e.client, 0);
        send::send_parts(
            e,
            self.n,
            self.m,
            self.own,
            low,
            log_number,
            &self.touched,
            out,
        )
    }

    // 11: the start was refused, or the out area is under 68 bytes. Then the verdict: 1, 2 and the kind's own refusals; or what the frame
    // changes is stored, and what the entry now makes this board send is written. A refusal changes nothing and writes nothing. That a frame
    // is bytes is all that crate board_means asks of it.
    pub fn step(&mut self, frame: &[u8], out: &mut [u8]) -> Result<Sent, Refusal>
        ensures value { (shown self.new result ≡ step_of self.old frame.now (length out.old)) × (out.new ≡ out_of self.old frame.now out.old) }
        ensures bytes { Bytes frame.now }
        ensures refusal { OnErr result ((self.new ≡ self.old) × (out.new ≡ out.old)) }
    {
        if refusal::unusable(self.started, out.len()) {
            return Err(Refusal::NotUsable);
        }
        let f = frames::read_frame(frame);
        let log_number = self.place_of(f.head);
        let slot = slot_of(log_number);
        let held = log_number < self.len;
        let judged = verdict::judge(
            f,
            self.n,
            self.m,
            self.own,
            &self.floor,
            &self.next,
            self.len,
            held,
            &self.log[slot],
        );
        // By a match and no `?`, so that what a refusal answers stands here as a value: the edit always_done changes it.
        let change = match judged {
            Ok(change) => change,
            Err(refusal) => return Err(refusal),
        };
        let e = change.entry;
        self.log[slot] = e;
        self.len = change.len;
        self.names[slot] = name_of(e.client, e.number);
        self.touched[slot] = entry::touched(self.m, e.list());
        follow(&mut self.next, change.fresh, e.client, e.number);
        raise(&mut self.floor, e.client, change.ack);
        queue::change_all(&mut self.queues, change.fresh, change.shards, log_number);
        Ok(self.sent(&change, log_number, out))
    }
}

// That the promise of `step` admits one outcome, of its contract as it stands above: two steps that begin alike end alike, by what the contract says of each
// and nothing else. `.ci/promises` reads the form of the contract, and `step_once` (proofs/Tells.antt) repeats its words by hand; here the contract itself is
// used. Nothing calls this function: it is here for what it ensures.
fn step_twice(
    one: &mut Board,
    other: &mut Board,
    frame: &[u8],
    out: &mut [u8],
    area: &mut [u8],
) -> (Result<Sent, Refusal>, Result<Sent, Refusal>)
    requires { (one.old ≡ other.old) × (out.old ≡ area.old) }
    ensures { (one.new ≡ other.new) × (result.0 ≡ result.1) × (out.new ≡ area.new) }
{
    (one.step(frame, out), other.step(frame, area))
}
