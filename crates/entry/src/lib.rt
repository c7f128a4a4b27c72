// What a board keeps of a transaction: its operations, the shards that they touch, and the reads as they come in. Values
// only, no board is in sight. Shards are numbered 1..8; a set of them is one byte, shard j at bit j - 1.
// What each function means in the rules' words stands in specs/View.antt and is proved in proofs/Meaning.antt.
#![tactic(auto)]

ghost use Rattle.std.specs.Prelude.{◌≡◌, true, false, ◌≤◌, take};
ghost use Rattle.rules.specs.Lists.{within};
ghost use Rattle.entry.specs.Model.{bit_of, in_mask, insert_of, strike_of, is_empty_of, shard_number, touched_of, PicksBeside, part_on, gets_of, ComparesBy, same_operation, same_operations_of, same_write_of, fits_of, stored_of, answered_of, reads_held, list_of, no_entry, new_entry_of, heard_from_of, finished_of};

use frames::{Item, Items};

// An entry of the log. items: the operations, each at its place. reads: slot p has what the get at place p saw, once its
// shard was heard from; a slot without a read is zero. So reads stand by rising place, whichever answer came first.
// C lays it out, so count and items stand flat here; `list` gives them together.
#[repr(C)]
#[derive(Clone, Copy, Debug, PartialEq, Eq, Default)]
pub struct Entry {
    pub client: u8,
    pub number: u16,
    pub count: u8,
    pub items: [Item; 4],
    pub exe: bool,
    pub reads: [Item; 4],
    pub remaining: u8,
}

// ---- Sets of shards
// The set is a byte and no type of its own: C lays it out, in Entry (remaining) and in the board's record (touched).

#[tactic(auto, using(crate::proofs::Masks::range_is))]
fn is_shard(shard: u8) -> bool
    ensures { result ≡ within 1 8 shard }
{
    (1..=8).contains(&shard)
}

// Is the shard in the set? No set has a shard outside 1..8.
#[tactic(auto, using(crate::proofs::Bits::bit_tested), unfolding(crate::specs::Model::in_mask))]
pub fn in_mask(mask: u8, shard: u8) -> bool
    ensures { result ≡ in_mask mask shard }
{
    is_shard(shard) && mask & bit(shard) != 0
}

fn bit(shard: u8) -> u8
    requires { (1 ≤ shard) × (shard ≤ 8) }
    ensures { result ≡ bit_of shard }
{
    1 << (shard - 1)
}

// The set with the shard. There is no shard 0, nor one above 8.
#[tactic(auto, using(crate::proofs::Bits::bit_set), unfolding(frames::specs::Choosing::choosing, crate::specs::Model::insert_of))]
pub fn insert(mask: u8, shard: u8) -> u8
    ensures { result ≡ insert_of mask shard }
{
    if is_shard(shard) {
        mask | bit(shard)
    } else {
        mask
    }
}

// The set without the shard.
#[tactic(auto, using(crate::proofs::Bits::bit_cleared), unfolding(frames::specs::Choosing::choosing, crate::specs::Model::strike_of, crate::specs::Model::in_mask))]
pub fn strike(mask: u8, shard: u8) -> u8
    ensures { result ≡ strike_of mask shard }
{
    if is_shard(shard) {
        mask & !bit(shard)
    } else {
        mask
    }
}

// The set has no shard.
pub fn is_empty(mask: u8) -> bool
    ensures { result ≡ is_empty_of mask }
{
    mask == 0
}

// ---- Keys and shards

// "Key k belongs to shard (k mod m) + 1"; without shards it belongs to none, 0.
// 0 and no Option: shard_number, which the contract states, is a number, and touched_set and part_view are proved over it.
#[tactic(auto, unfolding(frames::specs::Choosing::choosing, crate::specs::Model::shard_number, rules::specs::Transactions::shard_of))]
pub fn shard_of(m: u8, key: u8) -> u8
    ensures { result ≡ shard_number m key }
{
    if m == 0 { 0 } else { key % m + 1 }
}

// The shards that the operations of the list touch.
#[tactic(auto, using(crate::proofs::Sets::joined_all))]
pub fn touched(m: u8, list: Items) -> u8
    ensures { result ≡ touched_of m list.count list.items }
{
    let mut mask = 0;
    for operation in list.as_slice() {
        mask = insert(mask, shard_of(m, operation.key));
    }
    mask
}

// ---- Parts of a list

// Those of ys that stand beside an item of the list that passes the test.
fn beside<F: Fn(Item) -> bool>(list: Items, ys: [Item; 4], passes: F) -> Items
    requires { F.IsAlwaysCallable passes }
    ensures { PicksBeside (F.post passes) (take list.count list.items) ys result }
{
    let mut part = Items::new();
    for (x, y) in list.as_slice().iter().zip(&ys) {
        if passes(*x) {
            part.push(*y);
        }
    }
    part
}

// The operations on one shard, their places those in the whole list: 004's T|j.
pub fn part_on(m: u8, shard: u8, list: Items) -> Items
    ensures { result ≡ part_on m shard list.count list.items }
{
    beside(list, list.items, |x| shard_of(m, x.key) == shard)
}

// The gets, in their order.
fn gets_of(list: Items) -> Items
    ensures { result ≡ gets_of list.count list.items }
{
    beside(list, list.items, |x| x.code == 0)
}

// ---- The same operations

// Two lists are as long, and agree item by item.
fn agree<F: Fn(Item, Item) -> bool>(a: Items, b: Items, same: F) -> bool
    requires { F.IsAlwaysCallable same }
    ensures { ComparesBy (F.post same) a b result }
{
    a.count == b.count
        && a.as_slice()
            .iter()
            .zip(b.as_slice())
            .all(|(x, y)| same(*x, *y))
}

// No `==`, since places are not compared.
fn same_operation(x: Item, y: Item) -> bool
    ensures { result ≡ same_operation x y }
{
    x.code == y.code && x.key == y.key && x.value == y.value
}

// The same codes, keys and values in the same order; an operation's place is its index.
pub fn same_operations(a: Items, b: Items) -> bool
    ensures { result ≡ same_operations_of a.count a.items b.count b.items }
{
    agree(a, b, same_operation)
}

// "the places of the entry's gets": read places are exactly those of the gets among the operations.
pub fn fits(operations: Items, reads: Items) -> bool
    ensures { result ≡ fits_of operations.count operations.items reads.count reads.items }
{
    agree(gets_of(operations), reads, |x, y| x.place == y.place)
}

// ---- Reads

// The reads with those of the list stored, each at its place; there is no place above 3.
pub fn stored(mut reads: [Item; 4], list: Items) -> [Item; 4]
    ensures { result ≡ stored_of reads list.count list.items }
{
    for read in list.as_slice() {
        let at = usize::from(read.place);
        // By index: tried with get_mut, and of what it lends a proof knows no element afterwards.
        if at < reads.len() {
            reads[at] = *read;
        }
    }
    reads
}

// A get whose shard was heard from.
fn answered(m: u8, left: u8, x: Item) -> bool
    ensures { result ≡ answered_of m left x }
{
    x.code == 0 && !in_mask(left, shard_of(m, x.key))
}

// ---- Entries

// No entry: what a free place of a log holds. It is the default, under the name that the promises have, with its slots named one by one: so the
// compiler sees that a log of them is zeros, and a board starts by one memset where it lies. By the default alone, or with the slots as `[none; 4]`,
// it makes the log twice on the stack first: 41,000 bytes, where include/register.h promises 1,024 at most (tests/c/stack.c finds that out).
pub fn no_entry() -> Entry
    ensures { result ≡ no_entry }
{
    let none = frames::no_item();
    let slots = [none, none, none, none];
    Entry {
        items: slots,
        reads: slots,
        ..Entry::default()
    }
}

// "append as PRE": no reads yet, and all shards that the keys touch remain.
// client and number apart, here and in same_write: C lays them out flat in the entry, and no type of the two is kept anywhere.
#[tactic(auto, unfolding(crate::specs::Model::new_entry_of))]
pub fn new_entry(m: u8, client: u8, number: u16, list: Items) -> Entry
    ensures { result ≡ new_entry_of m client number list.count list.items }
{
    let remaining = touched(m, list);
    let Items { count, items } = list;
    Entry {
        client,
        number,
        count,
        items,
        exe: false,
        reads: [frames::no_item(); 4],
        remaining,
    }
}

impl Entry {
    // The operations.
    pub fn list(&self) -> Items
        ensures { result ≡ list_of self.now }
    {
        Items {
            count: self.count,
            items: self.items,
        }
    }

    // Is this the entry of that client's number, with these operations?
    #[tactic(auto, unfolding(crate::specs::Model::same_write_of))]
    pub fn same_write(&self, client: u8, number: u16, list: Items) -> bool
        ensures { result ≡ same_write_of self.now client number list.count list.items }
    {
        self.client == client && self.number == number && same_operations(self.list(), list)
    }

    // The stored reads, by rising place: those of the gets whose shard remains no more.
    pub fn reads_of(&self, m: u8) -> Items
        ensures { result ≡ reads_held m self.now }
    {
        beside(self.list(), self.reads, |x| answered(m, self.remaining, x))
    }

    // "strike the shard from remaining, store the reads. When none remains: EXE"
    #[tactic(auto, unfolding(crate::specs::Model::heard_from_of))]
    pub fn heard_from(self, shard: u8, list: Items) -> Entry
        ensures { result ≡ heard_from_of self shard list.count list.items }
    {
        let remaining = strike(self.remaining, shard);
        Entry {
            exe: is_empty(remaining),
            reads: stored(self.reads, list),
            remaining,
            ..self
        }
    }

    // "EXE, store the reads, remaining empty"
    #[tactic(auto, unfolding(crate::specs::Model::finished_of))]
    pub fn finished(self, list: Items) -> Entry
        ensures { result ≡ finished_of self list.count list.items }
    {
        Entry {
            exe: true,
            reads: stored([frames::no_item(); 4], list),
            remaining: 0,
            ..self
        }
    }
}
