// A client session: start, invoke, retry and the step on a Response. A call changes the session in place, and one that is refused leaves it and the
// out area as they were. What is promised is every field and every byte of the out area, whatever the session's bits; and, of a session that is
// held, as every start gives it and every call keeps it, that they mean the rules' call. That is a premise (Held) and no invariant of the type: C may
// hand in any record, and what is promised is of these too.
#![tactic(auto)]

ghost use Rattle.std.specs.Prelude.{◌≡◌, ◌<◌, ◌≤◌, ◌↔◌, length, Ok, IsOk, OnErr};
ghost use Rattle.session.specs.Model.{unstarted, started_of, started_shown, kept_item, list_of, submit_frame, sent_of, sent_shown, submitted_shown, heard_of, reply_shown, responded_shown, invoked_of, invoke_out, retried_of, retry_out, responded_of};
ghost use Rattle.session.specs.View.{Held, Sized, StartMeans, InvokeMeans, RetryMeans, ResponseMeans};
ghost use Rattle.frames.specs.Frames.{laid_of};

use frames::{Frame, Head, Item, Items};
use refusal::Refusal;
use std::array;
use window::Window;

// An operation as it is asked for: "0 get or 1 put (1), key (1), value (4; 0 for get)".
// C lays it out, so the code is a number and no enum: any byte may come, and one above 1 is refused by 1.
#[repr(C)]
#[derive(Clone, Copy, Debug, PartialEq, Eq)]
pub struct Asked {
    pub code: u8,
    pub key: u8,
    pub value: u32,
}

// The list handed to invoke: the first count operations, as C lays it out, so the count stands beside the array. What lies behind them is
// neither looked at nor kept.
#[repr(C)]
#[derive(Clone, Copy, Debug, PartialEq, Eq)]
pub struct Operations {
    pub count: u8,
    pub items: [Asked; 4],
}

// "It holds the next number and each outstanding number with its operations"; the client, and whether the start was taken. C lays the record out, so
// that a flag says it, and client is 0 where it was not.
#[repr(C)]
#[derive(Clone, Copy, Debug, Default, PartialEq, Eq)]
pub struct Session {
    pub window: Window,
    pub client: u8,
    pub started: bool,
}

// What invoke and retry send: the number that Submit carries, and how many bytes it has.
#[derive(Clone, Copy, Debug, PartialEq, Eq)]
pub struct Submission {
    pub number: u16,
    pub bytes: usize,
}

// What a Response step hands over: the number answered, and its reads.
#[derive(Clone, Copy, Debug, PartialEq, Eq)]
pub struct Answer {
    pub number: u16,
    pub reads: Items,
}

// The answer of invoke and retry as C lays it out, a number and no Result: the number that Submit carries, and the counts of frames and bytes. Of a
// refusal all but the answer is 0.
#[repr(C)]
#[derive(Clone, Copy, Debug, Default, PartialEq, Eq)]
pub struct Sent {
    pub answer: u8,
    pub number: u16,
    pub frames: u8,
    pub bytes: usize,
}

// The answer of a Response step as C lays it out, a number and no Result: the number answered, and its reads, the first count of them. Of a refusal
// all but the answer is 0.
#[repr(C)]
#[derive(Clone, Copy, Debug, Default, PartialEq, Eq)]
pub struct Reply {
    pub answer: u8,
    pub number: u16,
    pub count: u8,
    pub reads: [Item; 4],
}

impl From<Result<Submission, Refusal>> for Sent {
    ghost from_gives = { λ outcome sent. sent ≡ sent_shown outcome };

    fn from(outcome: Result<Submission, Refusal>) -> Sent {
        match outcome {
            Ok(Submission { number, bytes }) => Sent {
                answer: 0,
                number,
                frames: 1,
                bytes,
            },
            Err(refusal) => Sent {
                answer: refusal.into(),
                ..Sent::default()
            },
        }
    }
}

impl From<Result<Answer, Refusal>> for Reply {
    ghost from_gives = { λ outcome reply. reply ≡ reply_shown outcome };

    fn from(outcome: Result<Answer, Refusal>) -> Reply {
        match outcome {
            // The list is taken apart by a let: tried with reads.items, and the borrow checker does not cover an array that goes out of an owned record
            // into a literal.
            Ok(Answer { number, reads }) => {
                let Items { count, items } = reads;
                Reply {
                    answer: 0,
                    number,
                    count,
                    reads: items,
                }
            }
            Err(refusal) => Reply {
                answer: refusal.into(),
                ..Reply::default()
            },
        }
    }
}

impl Asked {
    // The operation at a place as it is kept and sent; behind the list's end nothing. The count is tested here, for each of the four: the ranges of
    // what lies behind it are promised too (key_bound).
    #[tactic(auto, unfolding(frames::specs::Choosing::choosing, crate::specs::Model::kept_item))]
    fn kept_at(self, place: u8, count: u8) -> Item
        ensures value { result ≡ kept_item self place count }
        ensures key_bound { (self.key < 256) × (self.value < 4294967296) }
    {
        if place < count {
            Item {
                place,
                code: self.code,
                key: self.key,
                value: self.value,
            }
        } else {
            frames::no_item()
        }
    }
}

impl Operations {
    // The list as it is kept and sent.
    fn list(&self) -> Items
        ensures value { result ≡ list_of self.now }
        ensures sized { Sized self.now }
    {
        Items {
            count: self.count,
            items: array::from_fn(|place| self.items[place].kept_at(place as u8, self.count)),
        }
    }
}

impl Session {
    // "an empty state marked as not started": Session::default() under the name that its promise has.
    #[tactic(auto, unfolding(crate::specs::Model::unstarted, window::specs::Model::fresh_window))]
    pub fn unstarted() -> Session
        ensures { result ≡ unstarted }
    {
        Session::default()
    }

    // "A refused start hands back an empty state marked as not started". What the session held before is not looked at. Refusal 11.
    #[tactic(auto, unfolding(frames::specs::Choosing::choosing, crate::specs::Model::unstarted, crate::specs::Model::started_of))]
    pub fn start(&mut self, client: u8) -> Result<(), Refusal>
        ensures value { started_shown self.new result ≡ started_of client }
        ensures start_means { StartMeans client (started_shown self.new result) }
        ensures taken { IsOk result ↔ (client ≤ 15) }
    {
        *self = Session::unstarted();
        if client > frames::LAST_CLIENT {
            return Err(Refusal::NotUsable);
        }
        self.client = client;
        self.started = true;
        Ok(())
    }

    // Submit with "the present ack", into an out area with room for it.
    #[tactic(auto, unfolding(crate::specs::Model::submit_frame, crate::specs::Model::sent_of))]
    fn submit(&self, number: u16, list: Items, out: &mut [u8]) -> Submission
        ensures { (sent_shown (Ok result) ≡ sent_of (submit_frame self.now number list.count list.items) number (length out.old))
            × (out.new ≡ laid_of (submit_frame self.now number list.count list.items) out.old) }
    {
        let ack = self.window.smallest_outstanding();
        let head = Head::Submit {
            client: self.client,
            number,
            ack,
        };
        let bytes = frames::write_frame(Frame { head, list }, out);
        Submission { number, bytes }
    }

    // "Invoke takes the next number, makes it outstanding and sends Submit; ack is the smallest outstanding number, its own included".
    // Refusals 11, 1, and the window's own, 10 and 9.
    pub fn invoke(&mut self, operations: Operations, out: &mut [u8]) -> Result<Submission, Refusal>
        ensures value { (submitted_shown self.new result ≡ invoked_of self.old operations out.old)
            × (out.new ≡ invoke_out self.old operations out.old) }
        ensures invoke_means { Held self.old → InvokeMeans self.old operations out.old (submitted_shown self.new result) out.new }
        ensures refusal { OnErr result ((self.new ≡ self.old) × (out.new ≡ out.old)) }
    {
        let list = operations.list();
        if refusal::unusable(self.started, out.len()) {
            return Err(Refusal::NotUsable);
        }
        if list.count == 0 || !frames::items_ok(list) {
            return Err(Refusal::BreaksRule);
        }
        let number = self.window.invoke(list)?;
        Ok(self.submit(number, list, out))
    }

    // "Retry sends Submit again with the kept operations and the present ack". Refusals 11, 7.
    pub fn retry(&self, number: u16, out: &mut [u8]) -> Result<Submission, Refusal>
        ensures value { (submitted_shown self.now result ≡ retried_of self.now number out.old)
            × (out.new ≡ retry_out self.now number out.old) }
        ensures retry_means { Held self.now → RetryMeans self.now number out.old (submitted_shown self.now result) out.new }
        ensures refusal { OnErr result (out.new ≡ out.old) }
    {
        if refusal::unusable(self.started, out.len()) {
            return Err(Refusal::NotUsable);
        }
        let kept = self.window.kept(number).ok_or(Refusal::TooLate)?;
        Ok(self.submit(number, kept, out))
    }

    // "Response makes its number outstanding no more and hands over the reads". Refusals 2, 7, 8. Client and number come apart, as Head::Response has
    // them.
    #[tactic(auto, unfolding(frames::specs::Choosing::choosing, crate::specs::Model::heard_of), using(window::proofs::Kept::list_none, window::proofs::Kept::list_some))]
    fn heard(&mut self, client: u8, number: u16, reads: Items) -> Result<Answer, Refusal>
        ensures value { responded_shown self.new result ≡ heard_of self.old client number reads.count reads.items }
        ensures refusal { OnErr result (self.new ≡ self.old) }
    {
        if client != self.client {
            return Err(Refusal::NotForMe);
        }
        let kept = self.window.kept(number).ok_or(Refusal::TooLate)?;
        if !entry::fits(kept, reads) {
            return Err(Refusal::DoesNotFit);
        }
        self.window.answered(number);
        Ok(Answer { number, reads })
    }

    // A frame's bytes arrive. Refusals 11 ("only its middle cause"), 1, 2, 7, 8.
    pub fn response(&mut self, frame: &[u8]) -> Result<Answer, Refusal>
        ensures value { responded_shown self.new result ≡ responded_of self.old frame.now }
        ensures response_means { Held self.old → ResponseMeans self.old frame.now (responded_shown self.new result) }
        ensures refusal { OnErr result (self.new ≡ self.old) }
    {
        if !self.started {
            return Err(Refusal::NotUsable);
        }
        let f = frames::read_frame(frame);
        match f.head {
            Head::Bad => Err(Refusal::BreaksRule),
            Head::Response { client, number } => self.heard(client, number, f.list),
            _ => Err(Refusal::NotForMe),
        }
    }
}
