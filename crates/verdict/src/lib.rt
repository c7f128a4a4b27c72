// What a frame comes to at a board: the refusal that 01's table gives first, or what it changes about its entry.
// All is decided here on small parts, an entry, the clients' floors and next numbers, the log's length; no board is in sight.
// Each function's result is determined for every input by a function of specs/Model.antt.
#![tactic(auto)]

ghost use Rattle.std.specs.Prelude.{◌≡◌, true, false, get_or, option_copied};
ghost use Rattle.verdict.specs.Model.{shown_verdict, new_of, held_of, judge_submit, judge_forward, judge_exec_notif, judge_executed, judge_of, by_held};

use entry::Entry;
use frames::{Frame, Head, Items, LogNumber};
use refusal::Refusal;

// "Its log has entries ..", up to this many.
pub const LOG_SIZE: LogNumber = 256;

// What a frame that is taken changes: the entry that it is about as it then stands, whether the entry is new, the log's length then,
// the shards whose queues change, the ack that may raise the client's floor (0 raises none), and whether the entry is sent on.
// No Option for the ack: the larger of a floor and 0 is the floor.
#[derive(Clone, Copy, Debug, PartialEq, Eq)]
pub struct Change {
    pub entry: Entry,
    pub fresh: bool,
    pub len: LogNumber,
    pub shards: u8,
    pub ack: u16,
    pub sends: bool,
}

// ---- A client's numbers

// What a column of the clients' numbers holds for a client, as its floor or its next number, which is high + 1; `none` for a client
// that it has no place for.
pub fn of_client<T: Copy>(column: &[T], client: u8, none: T) -> T
    ensures { result ≡ get_or column.now client none }
{
    column.get(usize::from(client)).copied().unwrap_or(none)
}

// ---- The kinds

// A client's write, as a Submit or a Forward carries it.
#[derive(Clone, Copy, Debug, PartialEq, Eq)]
struct Write {
    client: u8,
    number: u16,
    ack: u16,
    list: Items,
}

impl Write {
    // "New: append and queue." Full: 5. No Forward meets a full log, since it names a log number up to 255.
    #[tactic(auto, unfolding(frames::specs::Choosing::choosing, crate::specs::Model::new_of))]
    fn appended(&self, m: u8, len: LogNumber) -> Result<Change, Refusal>
        ensures { shown_verdict result ≡ new_of m self.now.client self.now.number self.now.ack self.now.list.count self.now.list.items len }
    {
        if LOG_SIZE <= len {
            return Err(Refusal::LogFull);
        }
        let entry = entry::new_entry(m, self.client, self.number, self.list);
        Ok(Change {
            entry,
            fresh: true,
            len: len + 1,
            shards: entry.remaining,
            ack: self.ack,
            sends: true,
        })
    }

    // Held: the entry as it stands, if it has this client, number and operations; otherwise 8.
    #[tactic(auto, unfolding(frames::specs::Choosing::choosing, crate::specs::Model::held_of))]
    fn repeated(&self, len: LogNumber, held: Option<&Entry>) -> Result<Change, Refusal>
        ensures { shown_verdict result ≡ by_held (held_of self.now.client self.now.number self.now.ack self.now.list.count self.now.list.items len) (option_copied held.entry) }
    {
        match held {
            Some(e) if e.same_write(self.client, self.number, self.list) => Ok(Change {
                entry: *e,
                fresh: false,
                len,
                shards: 0,
                ack: self.ack, // a held number's ack counts as a new one's does
                sends: true, // PRE or EXE: a repeat is not dropped
            }),
            _ => Err(Refusal::DoesNotFit),
        }
    }

    // Submit at board 1: 3, 4, 8, 5. Ifs and no cmp, here and in `forwarded`: each refusal stands alone, in the order of the table.
    #[tactic(auto, unfolding(frames::specs::Choosing::choosing, crate::specs::Model::judge_submit))]
    fn submitted(
        &self,
        m: u8,
        low: u16,
        next: u32,
        len: LogNumber,
        held: Option<&Entry>,
    ) -> Result<Change, Refusal>
        ensures { shown_verdict result ≡ by_held (judge_submit m self.now.client self.now.number self.now.ack self.now.list.count self.now.list.items low next len) (option_copied held.entry) }
    {
        let number = u32::from(self.number);
        if self.number < low {
            return Err(Refusal::BelowFloor);
        }
        if next < number {
            return Err(Refusal::TooEarly);
        }
        if number < next {
            return self.repeated(len, held);
        }
        self.appended(m, len)
    }

    // Forward at board i ≥ 2: 4, 8.
    #[tactic(auto, unfolding(frames::specs::Choosing::choosing, crate::specs::Model::judge_forward))]
    fn forwarded(
        &self,
        m: u8,
        log_number: LogNumber,
        next: u32,
        len: LogNumber,
        e: &Entry,
    ) -> Result<Change, Refusal>
        ensures { shown_verdict result ≡ judge_forward m log_number self.now.client self.now.number self.now.ack self.now.list.count self.now.list.items next len e.now }
    {
        if len < log_number {
            return Err(Refusal::TooEarly);
        }
        if log_number < len {
            return self.repeated(len, Some(e));
        }
        if u32::from(self.number) != next {
            return Err(Refusal::DoesNotFit);
        }
        self.appended(m, len)
    }
}

// ExecNotif at the tail: 6, 7, 8. "strike the shard from remaining, store the reads. When none remains: EXE, and Executed goes to n−1."
#[tactic(auto, unfolding(frames::specs::Choosing::choosing, crate::specs::Model::judge_exec_notif))]
fn judge_exec_notif(
    m: u8,
    shard: u8,
    reads: Items,
    len: LogNumber,
    held: Option<&Entry>,
) -> Result<Change, Refusal>
    ensures { shown_verdict result ≡ by_held (judge_exec_notif m shard reads.count reads.items len) (option_copied held.entry) }
{
    let Some(e) = held else {
        return Err(Refusal::NotInLog);
    };
    if !entry::in_mask(e.remaining, shard) {
        return Err(Refusal::TooLate);
    }
    if !entry::fits(entry::part_on(m, shard, e.list()), reads) {
        return Err(Refusal::DoesNotFit);
    }
    let heard = e.heard_from(shard, reads);
    Ok(Change {
        entry: heard,
        fresh: false,
        len,
        shards: entry::insert(0, shard),
        ack: 0,
        sends: heard.exe,
    })
}

// Executed at board i < n: 6, 7, 8. "Take up to the log number on each touched shard's queue; EXE, store the reads, remaining empty."
#[tactic(auto, unfolding(frames::specs::Choosing::choosing, crate::specs::Model::judge_executed))]
fn judge_executed(
    m: u8,
    reads: Items,
    len: LogNumber,
    held: Option<&Entry>,
) -> Result<Change, Refusal>
    ensures { shown_verdict result ≡ by_held (judge_executed m reads.count reads.items len) (option_copied held.entry) }
{
    let Some(e) = held else {
        return Err(Refusal::NotInLog);
    };
    if e.exe {
        return Err(Refusal::TooLate);
    }
    if !entry::fits(e.list(), reads) {
        return Err(Refusal::DoesNotFit);
    }
    Ok(Change {
        entry: e.finished(reads),
        fresh: false,
        len,
        shards: entry::touched(m, e.list()),
        ack: 0,
        sends: true,
    })
}

// 1, 2, then the kind's own. e is the entry at the log number that the frame is about; held: that number is in the log. The two are not one
// Option<Entry>: judge_of judges a Forward by e also where held is false (`forwarded`), so an Option would ask more of callers. n, m and own
// one by one: C lays them flat in the board's record, and nothing keeps them together.
#[tactic(auto, unfolding(frames::specs::Choosing::choosing, crate::specs::Model::judge_of, crate::specs::Model::held_of, crate::specs::Model::judge_submit, crate::specs::Model::judge_exec_notif, crate::specs::Model::judge_executed))]
pub fn judge(
    f: Frame,
    n: u8,
    m: u8,
    own: u8,
    floor: &[u16; 16],
    next: &[u32; 16],
    len: LogNumber,
    held: bool,
    e: &Entry,
) -> Result<Change, Refusal>
    ensures { shown_verdict result ≡ judge_of f.head f.list.count f.list.items n m own floor.now next.now len held e.now }
{
    let held = held.then_some(e);
    match f.head {
        Head::Bad => Err(Refusal::BreaksRule),
        Head::Submit {
            client,
            number,
            ack,
        } if own == 1 => {
            // The two kinds share no head, so the write is made in each arm.
            let write = Write {
                client,
                number,
                ack,
                list: f.list,
            };
            let low = of_client(floor, client, 0);
            let next = of_client(next, client, 0);
            write.submitted(m, low, next, len, held)
        }
        Head::Forward {
            log_number,
            client,
            number,
            ack,
        } if 2 <= own => {
            let write = Write {
                client,
                number,
                ack,
                list: f.list,
            };
            let next = of_client(next, client, 0);
            write.forwarded(m, log_number, next, len, e)
        }
        Head::ExecNotif { shard, .. } if own == n && shard <= m => {
            judge_exec_notif(m, shard, f.list, len, held)
        }
        Head::Executed { .. } if own < n => judge_executed(m, f.list, len, held),
        // These are for no board. In one arm with the last, the proof does not see that the tests above it failed.
        Head::ShardAppend { .. } | Head::Response { .. } => Err(Refusal::NotForMe),
        // for another board
        _ => Err(Refusal::NotForMe),
    }
}
