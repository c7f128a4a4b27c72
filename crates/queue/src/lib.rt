// A shard's queue at a board: the log numbers that wait, and the last one taken from it.
// What each function means in the rules' words stands in specs/View.antt and is proved in proofs/Meaning.antt.
#![tactic(auto)]

ghost use Rattle.std.specs.Prelude.{◌≡◌, ◌+◌, ◌≤◌, ◌==◌, position};
ghost use Rattle.queue.specs.Model.{no_queue, waiting, pushed_of, up_to, taken_of, changed_all};

use frames::LogNumber;

// "a first-in first-out queue of at most 256 log numbers, and the last number taken from it": the first len of numbers
// wait, the slots behind them are zero, and taken is one more than the last number taken, 0 for none. C lays the record out, so taken is a
// number and no Option. Clone and Copy alone: nothing compares or prints a queue.
#[repr(C)]
#[derive(Clone, Copy)]
pub struct Queue {
    pub numbers: [LogNumber; 256],
    pub len: usize,
    pub taken: u32,
}

// Nothing waits, and nothing was taken. By hand: a Default derived over 256 numbers was tried and did not prove.
pub fn no_queue() -> Queue
    ensures { result ≡ no_queue }
{
    Queue {
        numbers: [0; 256],
        len: 0,
        taken: 0,
    }
}

// One more than a number, as taken keeps it.
fn after(log_number: LogNumber) -> u32
    ensures { result ≡ log_number + 1 }
{
    u32::from(log_number) + 1
}

impl Queue {
    // One more number at the end; a full queue stays as it is.
    #[tactic(auto, unfolding(frames::specs::Choosing::choosing, crate::specs::Model::pushed_of))]
    pub fn push(&mut self, log_number: LogNumber)
        ensures { self.new ≡ pushed_of self.old log_number }
    {
        // By index: of what get_mut lends a proof knows no element afterwards.
        if self.len < 256 {
            self.numbers[self.len] = log_number;
            self.len += 1;
        }
    }

    // How many wait before a number, if it waits.
    fn before(&self, log_number: LogNumber) -> Option<usize>
        requires { self.now.len ≤ 256 }
        ensures { result ≡ position (λ x. x == log_number) (waiting self.now) }
    {
        self.numbers[..self.len]
            .iter()
            .position(|x| *x == log_number)
    }

    // "numbers are taken from the front until the entry itself has been taken": how many that are.
    fn up_to(&self, log_number: LogNumber) -> usize
        requires { self.now.len ≤ 256 }
        ensures value { result ≡ up_to log_number (waiting self.now) }
        ensures few { result ≤ self.now.len }
    {
        match self.before(log_number) {
            Some(before) => before + 1,
            None => self.len,
        }
    }

    // "Taking up to p: if the last taken is none or below p, numbers are taken from the front until the entry itself has
    // been taken; otherwise nothing is taken." The comparison is strict: of p itself nothing is taken twice.
    #[tactic(auto, unfolding(frames::specs::Choosing::choosing, crate::specs::Model::taken_of))]
    pub fn take_up_to(&mut self, log_number: LogNumber)
        ensures { self.new ≡ taken_of self.old log_number }
    {
        // More than 256 numbers are no queue.
        if self.len > 256 || u32::from(log_number) < self.taken {
            return;
        }
        let count = self.up_to(log_number);
        if count > 0 {
            self.taken = after(self.numbers[count - 1]);
        }
        self.numbers.copy_within(count..self.len, 0);
        self.len -= count;
        self.numbers[self.len..].fill(0);
    }
}

// "queue it for each touched shard"; "Take up to the log number on each touched shard's queue": a fresh entry's number is pushed, that of
// an entry held before is taken up to. A flag and no closure: a closure asks that it may be called, and no public function here asks anything of
// its callers; and the promise, changed_all, is over the flag.
pub fn change_all(queues: &mut [Queue; 8], fresh: bool, shards: u8, log_number: LogNumber)
    ensures { queues.new ≡ changed_all queues.old fresh shards log_number }
{
    for (i, queue) in queues.iter_mut().enumerate() {
        if entry::in_mask(shards, i as u8 + 1) {
            if fresh {
                queue.push(log_number);
            } else {
                queue.take_up_to(log_number);
            }
        }
    }
}
