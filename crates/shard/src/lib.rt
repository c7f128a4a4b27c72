// A shard group: its cells, its start and its step. What the functions do stands in specs/Model.antt, what that means in the rules' words in
// specs/View.antt, and what follows of every start and step in proofs/Promises.antt.
#![tactic(auto)]

ghost use Rattle.std.specs.Prelude.{◌≡◌, false, ◌&&◌, length, OnErr};
ghost use Rattle.rules.specs.Lists.{within};
ghost use Rattle.frames.specs.Items.{in_list};
ghost use Rattle.shard.specs.Model.{empty_shard, start_of, mine, all_mine, judge, read_of, noted, cell_after, step_of, out_of, shown_start, shown_verdict, shown};
ghost use Rattle.shard.specs.View.{Held, StartMeans, StepMeans};

use frames::{Frame, Head, Item, Items, LogNumber};
use refusal::Refusal;

// What the group has for a key: the value last put and the log number that put it. A key never put is absent, and its cell
// is zero. In this order of fields a cell is 8 bytes.
// C lays it out, so it is no Option: present stands beside the value.
#[repr(C)]
#[derive(Clone, Copy, Debug, Default, PartialEq, Eq)]
pub struct Cell {
    pub value: u32,
    pub log_number: LogNumber,
    pub present: bool,
}

// Shard group own of m, a cell for each key. last_run is 1 more than the log number last run, and 0 where none was.
// C lays it out, so its fields stand flat and "none" is a number. Clone and Copy alone: nothing compares or prints it.
#[repr(C)]
#[derive(Clone, Copy)]
pub struct Shard {
    pub cells: [Cell; 256],
    pub ssn: u16,
    pub last_run: u32,
    pub m: u8,
    pub own: u8,
    pub started: bool,
}

// The log number and sn of the ShardAppend that a frame is, where it is to be run.
#[derive(Clone, Copy, Debug, PartialEq, Eq)]
struct Append {
    log_number: LogNumber,
    sn: u16,
}

// A group of m, and its own number: "Shard groups m: 1..8", 1..m.
// board (in_range) and records (usable) test the range of m too: no crate with code lies under the three.
fn in_range(m: u8, own: u8) -> bool
    ensures { result ≡ (within 1 8 m && within 1 m own) }
{
    (1..=8).contains(&m) && (1..=m).contains(&own)
}

// ---- An item and its cell

// "Key k belongs to shard (k mod m) + 1."
// Not entry::shard_of: that is 0 where there are no groups, which an own number 0 would equal, and mine is false there.
#[tactic(auto, using(std::proofs::lemmas::Bool::Decides::nat_tests), unfolding(crate::specs::Model::mine))]
fn is_mine(m: u8, own: u8, x: Item) -> bool
    ensures { result ≡ mine m own x }
{
    m != 0 && x.key % m + 1 == own
}

fn all_mine(m: u8, own: u8, list: &Items) -> bool
    ensures { result ≡ all_mine m own (in_list list.now) }
{
    list.as_slice().iter().all(|x| is_mine(m, own, *x))
}

// What a get says of its key's cell; a value is 0 if its key is absent.
#[tactic(auto, unfolding(frames::specs::Choosing::choosing, crate::specs::Model::read_of))]
fn read_of(x: Item, cell: Cell) -> Item
    ensures { result ≡ read_of x cell }
{
    if !cell.present {
        return Item {
            place: x.place,
            ..frames::no_item()
        };
    }
    Item {
        place: x.place,
        code: 1,
        key: 0,
        value: cell.value,
    }
}

// A get adds what it sees, a put nothing.
#[tactic(auto, unfolding(frames::specs::Choosing::choosing, frames::specs::Items::pushed_on, crate::specs::Model::noted))]
fn note(reads: &mut Items, x: Item, cell: Cell)
    ensures { reads.new ≡ noted reads.old x cell }
{
    if x.code == 0 {
        reads.push(read_of(x, cell));
    }
}

// "Each put stores the value and the log number"; a get leaves its cell as it is.
#[tactic(auto, unfolding(frames::specs::Choosing::choosing, crate::specs::Model::cell_after))]
fn cell_after(log_number: LogNumber, x: Item, cell: Cell) -> Cell
    ensures { result ≡ cell_after log_number x cell }
{
    if x.code != 0 {
        return Cell {
            value: x.value,
            log_number,
            present: true,
        };
    }
    cell
}

impl Shard {
    // The group that a refused start leaves: without a key, and not started.
    // By hand: a Default derived over 256 cells was tried and did not prove.
    #[tactic(auto, unfolding(crate::specs::Model::empty_shard))]
    pub fn unstarted() -> Shard
        ensures { result ≡ empty_shard 0 0 false }
    {
        Shard {
            cells: [Cell::default(); 256],
            ssn: 0,
            last_run: 0,
            m: 0,
            own: 0,
            started: false,
        }
    }

    // A group starts from m and its own number alone: it then knows no key, whatever its memory held. Refusal 11 leaves it empty and not started.
    // What is promised is every field, and that they mean the rules' start.
    pub fn start(&mut self, m: u8, own: u8) -> Result<(), Refusal>
        ensures value { shown_start self.new result ≡ start_of m own }
        ensures start_means { StartMeans m own (shown_start self.new result) }
    {
        *self = Shard::unstarted();
        if !in_range(m, own) {
            return Err(Refusal::NotUsable);
        }
        self.m = m;
        self.own = own;
        self.started = true;
        Ok(())
    }

    // The refusals in their order: 11, 1, 2, 7, 4, 8.
    #[tactic(auto, unfolding(frames::specs::Choosing::choosing, crate::specs::Model::judge, crate::specs::Model::judge_head, crate::specs::Model::judge_append))]
    fn judge(&self, room: usize, f: &Frame) -> Result<Append, Refusal>
        ensures { shown_verdict result ≡ judge self.now.started room self.now.m self.now.own self.now.ssn self.now.last_run f.now }
    {
        if refusal::unusable(self.started, room) {
            return Err(Refusal::NotUsable);
        }
        let (shard, log_number, sn) = match f.head {
            Head::Bad => return Err(Refusal::BreaksRule),
            Head::ShardAppend {
                shard,
                log_number,
                sn,
            } => (shard, log_number, sn),
            _ => return Err(Refusal::NotForMe),
        };
        if shard != self.own {
            return Err(Refusal::NotForMe);
        }
        if sn <= self.ssn {
            return Err(Refusal::TooLate);
        }
        if sn - self.ssn > 1 {
            return Err(Refusal::TooEarly);
        }
        if !all_mine(self.m, self.own, &f.list) || u32::from(log_number) < self.last_run {
            return Err(Refusal::DoesNotFit);
        }
        Ok(Append { log_number, sn })
    }

    // A frame's bytes arrive. A ShardAppend that is not refused runs its operations in order, on the cells in place, so that a
    // get sees the earlier puts of its list; then ssn and last run move, and ExecNotif goes out with the reads at their places: what is
    // returned is how many bytes it has. A refusal leaves the group and the out area as they were. What is promised is every field and every
    // byte of the out area, whatever the group's bits; and, of a group that is held, as every start gives it and every step keeps it, that
    // they mean the rules' step.
    // Held is a premise and no invariant of the type: C may hand in any record, and value and refusal are promised of these too.
    pub fn step(&mut self, frame: &[u8], out: &mut [u8]) -> Result<usize, Refusal>
        ensures value { (shown self.new result ≡ step_of self.old frame.now (length out.old))
            × (out.new ≡ out_of self.old frame.now out.old) }
        ensures step_means { Held self.old → StepMeans self.old frame.now out.old (shown self.new result) out.new }
        ensures refusal { OnErr result ((self.new ≡ self.old) × (out.new ≡ out.old)) }
    {
        let f = frames::read_frame(frame);
        let Append { log_number, sn } = self.judge(out.len(), &f)?;
        let mut reads = Items::new();
        for x in f.list.as_slice() {
            let key = usize::from(x.key);
            let cell = self.cells[key];
            note(&mut reads, *x, cell);
            self.cells[key] = cell_after(log_number, *x, cell);
        }
        self.ssn = sn;
        self.last_run = u32::from(log_number) + 1;
        let head = Head::ExecNotif {
            shard: self.own,
            log_number,
        };
        let notif = Frame { head, list: reads };
        Ok(frames::write_frame(notif, out))
    }
}
