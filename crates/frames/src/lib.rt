// Frames of the board chain, read from a slice and written into an out area. Nothing is allocated, and each byte is looked at a bounded number of times.
#![tactic(auto)]

ghost use Rattle.std.specs.Prelude.{◌≡◌, ◌+◌, ◌*◌, ◌<◌, ◌≤◌, length};
ghost use Rattle.rules.specs.Frames.{two, byte_at, two_at, four_at, decode};
ghost use Rattle.frames.specs.Frames.{kind_of, is_bad, field_bytes, field_width, shape_of, width, item_bytes, list_bytes, len_of, ok_item, ok_items, ok_window, ok_head, valid, no_item, bad_frame, item_at, list_at, head_of, body_at, candidate_of, accept, read_front, read_frame, Writes, written_of, laid_of, end_of, laid_behind};
ghost use Rattle.frames.specs.Items.{in_list, empty_list, pushed_on};
ghost use Rattle.frames.specs.View.{answer_of, answer_to, meaning};

// The place of an entry in the log: "log number 0..255", two bytes in a frame.
pub type LogNumber = u16;

// One item of a list. An operation: code 0 get or 1 put, its place is its index. A placed operation: the same with its own place.
// A read: code is `present`, 0 or 1, and the key is 0.
// C lays it out, so the code is a number and no enum: a frame, or the caller's memory, may have one above 1, which `item_ok` refuses.
#[repr(C)]
#[derive(Clone, Copy, Debug, PartialEq, Eq, Default)]
pub struct Item {
    pub place: u8,
    pub code: u8,
    pub key: u8,
    pub value: u32,
}

// Up to four items in their order: the first count. In each list that is read or made here the slots behind them are zero.
// No ArrayVec of the kit: the count may be any byte, as in a frame, and what lies in the slots behind it is promised too (`empty_list`,
// `pushed_on`, `slots`).
#[derive(Clone, Copy, Debug, PartialEq, Eq, Default)]
pub struct Items {
    pub count: u8,
    pub items: [Item; 4],
}

impl Items {
    // The list without items.
    // `Items::default()` by the name for it that Rust's lists have.
    pub fn new() -> Items
        ensures { result ≡ empty_list }
    {
        Items::default()
    }

    // The items that the list has, and none of the slots behind them.
    pub fn as_slice(&self) -> &[Item]
        ensures { result.now ≡ in_list self.now }
    {
        let end = usize::from(self.count).min(4);
        &self.items[..end]
    }

    // One item more at the end; a full list stays as it is.
    #[tactic(auto, unfolding(crate::specs::Choosing::choosing, crate::specs::Items::pushed_on))]
    pub fn push(&mut self, x: Item)
        ensures { self.new ≡ pushed_on self.old x }
    {
        // By index: tried with `get_mut`, and the proof didn't close, since of an array it knows no element after that.
        let at = usize::from(self.count);
        if at < 4 {
            self.items[at] = x;
            self.count += 1;
        }
    }
}

// How an item lies in a frame.
#[derive(Clone, Copy, Debug, PartialEq, Eq)]
pub enum Shape {
    Operation,
    Placed,
    Read,
}

// The fields of each kind; Bad is refusal 1.
// Bad, and no Option of a Head: `frame_ok`, `write_frame` and `verdict::judge` promise an answer for it (laws `bad_bytes`, `bad_is_refused`).
#[derive(Clone, Copy, Debug, PartialEq, Eq)]
pub enum Head {
    Bad,
    Submit {
        client: u8,
        number: u16,
        ack: u16,
    },
    Forward {
        log_number: LogNumber,
        client: u8,
        number: u16,
        ack: u16,
    },
    ShardAppend {
        shard: u8,
        log_number: LogNumber,
        sn: u16,
    },
    ExecNotif {
        shard: u8,
        log_number: LogNumber,
    },
    Executed {
        log_number: LogNumber,
    },
    Response {
        client: u8,
        number: u16,
    },
}

// A frame: its fields and its list.
#[derive(Clone, Copy, Debug, PartialEq, Eq)]
pub struct Frame {
    pub head: Head,
    pub list: Items,
}

// The frame with which a slice begins, and where it ends.
#[derive(Clone, Copy, Debug, PartialEq, Eq)]
pub struct Front {
    pub frame: Frame,
    pub end: usize,
}

// The length field, which counts what follows it.
const LENGTH: usize = 2;

// What stands between the length and the body: the kind. Every length and place follows from this width.
const HEADER: usize = 2;

// The last value of each field that has fewer than its bytes could hold: "Sizes".
pub const LAST_CLIENT: u8 = 15;

const LAST_NUMBER: u16 = 65534;

const LAST_LOG_NUMBER: LogNumber = 255;

const LAST_SHARD: u8 = 8;

const LAST_SN: u16 = 256;

const LAST_PLACE: u8 = 3;

// ---- Numbers in a slice; past the end a byte counts as 0

// The bounds that the readers ask of a place only keep sums of places from wrapping.

fn byte(s: &[u8], i: usize) -> u8
    ensures { result ≡ byte_at s.now i }
{
    s.get(i).copied().unwrap_or(0)
}

// Two functions and no generic one: a number is made by its own type's `from_le_bytes`.
fn u16_at(s: &[u8], i: usize) -> u16
    requires { i < 4096 }
    ensures { result ≡ two_at s.now i }
{
    u16::from_le_bytes([byte(s, i), byte(s, i + 1)])
}

fn u32_at(s: &[u8], i: usize) -> u32
    requires { i < 4000 }
    ensures { result ≡ four_at s.now i }
{
    u32::from_le_bytes([byte(s, i), byte(s, i + 1), byte(s, i + 2), byte(s, i + 3)])
}

// ---- The table of kinds

impl Head {
    // The number by which a frame names its kind; 0 is none.
    // 0 and no Option: `kind_of`, by which the bytes of each head are stated, is a number.
    fn kind(self) -> u16
        ensures { result ≡ kind_of self }
    {
        match self {
            Head::Bad => 0,
            Head::Submit { .. } => 1,
            Head::Forward { .. } => 2,
            Head::ShardAppend { .. } => 3,
            Head::ExecNotif { .. } => 4,
            Head::Executed { .. } => 5,
            Head::Response { .. } => 6,
        }
    }

    // A refused frame has no kind, no fields and no bytes. matches! and no == Head::Bad: tried, and write_frame did not prove over what the derived ==
    // ensures, a case for each field.
    fn is_bad(self) -> bool
        ensures { result ≡ is_bad self }
    {
        matches!(self, Head::Bad)
    }

    // How the items of its list lie.
    fn shape(self) -> Shape
        ensures { result ≡ shape_of self }
    {
        match self {
            Head::Bad | Head::Submit { .. } | Head::Forward { .. } => Shape::Operation,
            Head::ShardAppend { .. } => Shape::Placed,
            Head::ExecNotif { .. } | Head::Executed { .. } | Head::Response { .. } => Shape::Read,
        }
    }

    // How many bytes the fields are.
    fn width(self) -> usize
        ensures { (result ≡ field_width self) × (result ≤ 7) }
    {
        match self {
            Head::Bad => 0,
            Head::Executed { .. } => 2,
            Head::ExecNotif { .. } | Head::Response { .. } => 3,
            Head::Submit { .. } | Head::ShardAppend { .. } => 5,
            Head::Forward { .. } => 7,
        }
    }
}

impl Shape {
    // How many bytes an item is.
    fn width(self) -> usize
        ensures { (result ≡ width self) × (result ≤ 7) }
    {
        match self {
            Shape::Operation | Shape::Read => 6,
            Shape::Placed => 7,
        }
    }
}

// The length field: header, fields, the count's byte and the items.
fn len_of(head: Head, count: u8) -> usize
    ensures { (result ≡ len_of head count) × (result ≤ 4096) }
{
    HEADER + head.width() + 1 + head.shape().width() * usize::from(count)
}

// ---- The tests

// Place and code in their ranges, and a put, or value 0.
fn item_ok(x: Item) -> bool
    ensures { result ≡ ok_item x }
{
    x.place <= LAST_PLACE && x.code <= 1 && (1 <= x.code || x.value == 0)
}

// The items of a list: each is right, and places rise strictly.
pub fn items_ok(list: Items) -> bool
    ensures { result ≡ ok_items list.count list.items }
{
    let items = list.as_slice();
    list.count <= 4
        && items.iter().all(|x| item_ok(*x))
        && items.is_sorted_by(|a, b| a.place < b.place)
}

fn window_ok(number: u16, ack: u16) -> bool
    ensures { result ≡ ok_window number ack }
{
    number <= LAST_NUMBER && ack <= number && number - ack <= 7
}

fn head_ok(head: Head, count: u8) -> bool
    ensures { result ≡ ok_head head count }
{
    match head {
        Head::Bad => false,
        Head::Submit {
            client,
            number,
            ack,
        } => 1 <= count && client <= LAST_CLIENT && window_ok(number, ack),
        Head::Forward {
            log_number,
            client,
            number,
            ack,
        } => 1 <= count
            && log_number <= LAST_LOG_NUMBER
            && client <= LAST_CLIENT
            && window_ok(number, ack),
        Head::ShardAppend {
            shard,
            log_number,
            sn,
        } => 1 <= count
            && (1..=LAST_SHARD).contains(&shard)
            && log_number <= LAST_LOG_NUMBER
            && (1..=LAST_SN).contains(&sn),
        Head::ExecNotif { shard, log_number } => (1..=LAST_SHARD).contains(&shard)
            && log_number <= LAST_LOG_NUMBER,
        Head::Executed { log_number } => log_number <= LAST_LOG_NUMBER,
        Head::Response { client, number } => client <= LAST_CLIENT && number <= LAST_NUMBER,
    }
}

// The rules of "Sizes" and "Frames" for a frame's values.
#[tactic(auto, unfolding(crate::specs::Frames::valid))]
pub fn frame_ok(f: Frame) -> bool
    ensures { result ≡ valid f }
{
    head_ok(f.head, f.list.count) && items_ok(f.list)
}

// ---- The reader

// An empty slot.
// `Item::default()` by the name that the promises have.
pub fn no_item() -> Item
    ensures { result ≡ no_item }
{
    Item::default()
}

// Refusal 1 as a frame.
#[tactic(auto, unfolding(crate::specs::Frames::bad_frame))]
pub fn bad_frame() -> Frame
    ensures { result ≡ bad_frame }
{
    Frame {
        head: Head::Bad,
        list: Items::new(),
    }
}

// Item i of a list, its bytes from `at` on.
// Each layout in full: no two of them have both code and value at the same places.
fn item_at(shape: Shape, i: u8, s: &[u8], at: usize) -> Item
    requires { at < 3000 }
    ensures { result ≡ item_at shape i s.now at }
{
    match shape {
        Shape::Operation => Item {
            place: i,
            code: byte(s, at),
            key: byte(s, at + 1),
            value: u32_at(s, at + 2),
        },
        Shape::Placed => Item {
            place: byte(s, at),
            code: byte(s, at + 1),
            key: byte(s, at + 2),
            value: u32_at(s, at + 3),
        },
        Shape::Read => Item {
            place: byte(s, at),
            code: byte(s, at + 1),
            key: 0,
            value: u32_at(s, at + 2),
        },
    }
}

// The list that stands at a place, its count first. At most four items are read, and what stands behind the list is not looked at.
#[tactic(auto, using(crate::proofs::Cases::slots_more), unfolding(crate::specs::Choosing::choosing))]
fn list_at(shape: Shape, s: &[u8], at: usize) -> Items
    requires { at < 1000 }
    ensures { result ≡ list_at shape s.now at }
{
    let count = byte(s, at);
    let mut items = [no_item(); 4];
    // By number: an item's place, its slot and its offset are all made of i. array::from_fn gives i too, and would test it against the count each time.
    for i in 0..count.min(4) {
        items[usize::from(i)] = item_at(shape, i, s, at + 1 + shape.width() * usize::from(i));
    }
    Items { count, items }
}

// "The two-byte kind decides the body's layout."
#[tactic(auto, unfolding(crate::specs::Choosing::choosing, crate::specs::Frames::head_of))]
fn head_of(s: &[u8], body: &[u8]) -> Head
    ensures { result ≡ head_of (two_at s.now 2) body.now }
{
    match u16_at(s, LENGTH) {
        1 => Head::Submit {
            client: byte(body, 0),
            number: u16_at(body, 1),
            ack: u16_at(body, 3),
        },
        2 => Head::Forward {
            log_number: u16_at(body, 0),
            client: byte(body, 2),
            number: u16_at(body, 3),
            ack: u16_at(body, 5),
        },
        3 => Head::ShardAppend {
            shard: byte(body, 0),
            log_number: u16_at(body, 1),
            sn: u16_at(body, 3),
        },
        4 => Head::ExecNotif {
            shard: byte(body, 0),
            log_number: u16_at(body, 1),
        },
        5 => Head::Executed {
            log_number: u16_at(body, 0),
        },
        6 => Head::Response {
            client: byte(body, 0),
            number: u16_at(body, 1),
        },
        _ => Head::Bad,
    }
}

// The only frame that the slice can begin with: the list stands behind the fields.
#[tactic(auto, using(crate::proofs::Cases::part), unfolding(crate::specs::Frames::candidate_of, crate::specs::Frames::listed))]
fn candidate(s: &[u8]) -> Frame
    requires { body_at ≤ length s.now }
    ensures { result ≡ candidate_of s.now }
{
    let body = &s[LENGTH + HEADER..];
    let head = head_of(s, body);
    let list = list_at(head.shape(), body, head.width());
    Frame { head, list }
}

// The frame where its rules hold, the length field is its own and its bytes are there.
#[tactic(auto, unfolding(crate::specs::Choosing::choosing, crate::specs::Frames::accept))]
fn accepted(frame: Frame, s: &[u8]) -> Option<Front>
    ensures { result ≡ accept frame s.now }
{
    let len = len_of(frame.head, frame.list.count);
    let field = usize::from(u16_at(s, 0));
    let end = len + LENGTH;
    if frame_ok(frame) && field == len && end <= s.len() {
        Some(Front { frame, end })
    } else {
        None
    }
}

// The frame with which the slice begins and where it ends, whatever follows it: laws `front_back` and `front_means`.
#[tactic(auto, using(crate::proofs::Cases::short), unfolding(crate::specs::Frames::read_front))]
pub fn read_front(s: &[u8]) -> Option<Front>
    ensures { result ≡ read_front s.now }
{
    if s.len() < LENGTH + HEADER {
        return None;
    }
    accepted(candidate(s), s)
}

// The frame that the slice is, or the refusal: "Nothing may follow a frame." Its number and its values are those of the rules' reading, and
// it is written as the bytes that it was read from: law `bytes_back`.
// A Frame and no Result: by its clause refusal 1 is a frame too, `bad_frame`.
pub fn read_frame(s: &[u8]) -> Frame
    ensures value { result ≡ read_frame s.now }
    ensures head_value { (answer_of result.head ≡ answer_to (decode s.now)) × (meaning result ≡ decode s.now) }
{
    match read_front(s) {
        Some(Front { frame, end }) if end == s.len() => frame,
        _ => bad_frame(),
    }
}

// ---- The writer

// An area, and how many of its bytes are written.
// The area is lent and no Vec or ArrayVec of its own: the bytes go where the caller has them, and nothing is allocated.
#[derive(Drop)]
struct Writer<'a> {
    out: &'a mut [u8],
    at: usize,
}

// Each method stores behind what is written, and only that.
impl Writer<'_> {
    #[tactic(auto, using(crate::proofs::Puts::put_part))]
    fn put(&mut self, bytes: &[u8])
        requires { self.old.at + length bytes.now ≤ length self.old.out.now }
        ensures { Writes self.old self.new bytes.now }
    {
        let end = self.at + bytes.len();
        self.out[self.at..end].copy_from_slice(bytes);
        self.at = end;
    }

    fn put16(&mut self, x: u16)
        requires { self.old.at + 2 ≤ length self.old.out.now }
        ensures { Writes self.old self.new (two x) }
    {
        self.put(&x.to_le_bytes());
    }

    // "0 get or 1 put (1), key (1), value (4; 0 for get)"; "A placed operation has its place 0..3 (1) before it."; "place (1),
    // present 0 or 1 (1), value (4; 0 if absent)"
    fn item(&mut self, shape: Shape, x: Item)
        requires { self.old.at + width shape ≤ length self.old.out.now }
        ensures { Writes self.old self.new (item_bytes shape x) }
    {
        match shape {
            Shape::Operation => self.put(&[x.code, x.key]),
            Shape::Placed => self.put(&[x.place, x.code, x.key]),
            Shape::Read => self.put(&[x.place, x.code]),
        }
        self.put(&x.value.to_le_bytes());
    }

    // The count and then as many items.
    fn list(&mut self, shape: Shape, list: &Items)
        requires few { list.now.count ≤ 4 }
        requires room { self.old.at + 1 + width shape * list.now.count ≤ length self.old.out.now }
        ensures { Writes self.old self.new (list_bytes shape list.now.count list.now.items) }
    {
        self.put(&[list.count]);
        for x in list.as_slice() {
            self.item(shape, *x);
        }
    }

    // The fields of each kind.
    fn fields(&mut self, head: Head)
        requires { self.old.at + field_width head ≤ length self.old.out.now }
        ensures { Writes self.old self.new (field_bytes head) }
    {
        match head {
            Head::Bad => {}
            Head::Submit {
                client,
                number,
                ack,
            } => {
                self.put(&[client]);
                self.put16(number);
                self.put16(ack);
            }
            Head::Forward {
                log_number,
                client,
                number,
                ack,
            } => {
                self.put16(log_number);
                self.put(&[client]);
                self.put16(number);
                self.put16(ack);
            }
            Head::ShardAppend {
                shard,
                log_number,
                sn,
            } => {
                self.put(&[shard]);
                self.put16(log_number);
                self.put16(sn);
            }
            Head::ExecNotif { shard, log_number } => {
                self.put(&[shard]);
                self.put16(log_number);
            }
            Head::Executed { log_number } => self.put16(log_number),
            Head::Response { client, number } => {
                self.put(&[client]);
                self.put16(number);
            }
        }
    }
}

// Writes the frame's bytes from the first byte of the out area on and returns how many these are. A refused frame has no bytes.
// Where the frame has more than four items or the room is too small it writes nothing and returns 0. The bytes are the rules' own and are
// read as the same frame: laws `writes_mean`, `record-bytes` and `frame_back`; what a caller with room gets: `writes` and `lays`.
// 0 and no Option where nothing is written: by `written_of`, which docs/PROMISES.md names, the answer is a number.
pub fn write_frame(f: Frame, out: &mut [u8]) -> usize
    ensures value { result ≡ written_of f (length out.old) }
    ensures out_after { out.new ≡ laid_of f out.old }
{
    let len = len_of(f.head, f.list.count);
    if f.head.is_bad() || 4 < f.list.count || out.len() < LENGTH + len {
        return 0;
    }
    let mut writer = Writer { out, at: 0 };
    writer.put16(len as u16);
    writer.put16(f.head.kind());
    writer.fields(f.head);
    writer.list(f.head.shape(), &f.list);
    writer.at
}

// The same behind the first `at` bytes, for frames back to back: returns where the frame's bytes end, and `at` where it writes nothing.
// Several in turn leave all their bytes from the first on and nothing else changed: `lays_behind`.
// `at` beside `out`, and `at` again where nothing is written: `end_of` and `laid_behind`, which docs/PROMISES.md names, are of the two.
#[tactic(auto, using(crate::proofs::Behind::laid, crate::proofs::Behind::end_small), unfolding(crate::specs::Choosing::choosing, crate::specs::Frames::end_of, crate::specs::Frames::laid_behind))]
pub fn write_behind(f: Frame, out: &mut [u8], at: usize) -> usize
    ensures value { result ≡ end_of f at (length out.old) }
    ensures out_after { out.new ≡ laid_behind f at out.old }
{
    if out.len() < at {
        return at;
    }
    let bytes = write_frame(f, &mut out[at..]);
    at + bytes
}
