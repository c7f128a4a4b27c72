// What a bench input holds (01, "The bench program"): n and m, then records, each of an address byte and a frame. Here it is only taken apart.
//
// Each function's result is determined for every input by a function of specs/.
#![tactic(auto)]

ghost use Rattle.std.specs.Prelude.{◌≡◌, length};
ghost use Rattle.records.specs.Records.{usable_of, next_of, receiver_of};
ghost use Rattle.records.specs.Front.{part_length, front_of};

// "Bad or missing n or m: only `setup 11`." Beside board's and shard's own tests of n and m: no crate with code lies under the three.
pub fn usable(n: u8, m: u8) -> bool
    ensures { result ≡ usable_of n m }
{
    (2..=8).contains(&n) && (1..=8).contains(&m)
}

// The most bytes that the frame of a record has.
const LONGEST: usize = 36;

// What stands at the front of some bytes. An enum of three: a reader goes on after Need and stops after Cut, and bench_means' definitions are over
// these three.
#[derive(Clone, Copy, Debug, PartialEq, Eq)]
pub enum Next {
    // A record: its address, and where it ends. Its frame is what lies between.
    Record { address: u8, end: usize },
    // No whole record: they end within one, or there are none.
    Need,
    // A length over 36.
    Cut,
}

#[tactic(auto, using(crate::proofs::Records::next_laws))]
pub fn record_at(s: &[u8]) -> Next
    ensures { result ≡ next_of s.now }
{
    let [address, low, high, rest @ ..] = s else {
        return Next::Need;
    };
    let length = usize::from(u16::from_le_bytes([*low, *high]));
    if length > LONGEST {
        return Next::Cut;
    }
    if rest.len() < length {
        return Next::Need;
    }
    Next::Record {
        address: *address,
        end: 3 + length,
    }
}

// Whom an address names. Board i and shard i stand at i - 1. Nobody is one of three: 01 answers it with 2, and bench_means' definitions are over these
// three.
#[derive(Clone, Copy, Debug, PartialEq, Eq)]
pub enum Receiver {
    Board(usize),
    Shard(usize),
    Nobody,
}

// "1..8 boards, 17..24 shards 1..8". A board above n and a shard above m are nobody.
#[tactic(auto, using(crate::proofs::Records::names_laws))]
pub fn named(n: u8, m: u8, address: u8) -> Receiver
    ensures { result ≡ receiver_of n m address }
{
    match address {
        1..=8 if address <= n => Receiver::Board(usize::from(address) - 1),
        17..=24 if address - 16 <= m => Receiver::Shard(usize::from(address) - 17),
        _ => Receiver::Nobody,
    }
}

// The bytes from..end of s are moved to its front; how many they are. Where there is no such part nothing is moved, and 0, no Option, is
// answered: part_length, which docs/PROMISES.md names, is a number. The area is the caller's and the count is answered: nothing is allocated.
#[tactic(auto, using(crate::proofs::Front::front_laws))]
pub fn to_front(s: &mut [u8], from: usize, end: usize) -> usize
    ensures { (result ≡ part_length from end (length s.old)) × (s.new ≡ front_of from end s.old) }
{
    if from > end || end > s.len() {
        return 0;
    }
    s.copy_within(from..end, 0);
    end - from
}
