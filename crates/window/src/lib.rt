// The window of a client session: the next number, and each outstanding number with its operations. What the methods mean in the rules' words
// is in specs/View.antt and proved in proofs/Means.antt.
#![tactic(auto)]

ghost use Rattle.std.specs.Prelude.{◌≡◌, ◌↔◌, ◌%◌, IsSome, IsTrue, OnErr};
ghost use Rattle.window.specs.Model.{waits, slot_of, is_outstanding, smallest_of, kept_of, list_in, answered_of, invoked_of, invoked_shown, fresh_window};

use frames::{Item, Items};
use refusal::Refusal;

// An outstanding number with its operations, as a frame carries them: count of them, 1 to 4, and zero behind these.
// A slot with count 0 is free, and is zero throughout (Slot::default). C lays the record out, so count and items stay flat, no Option of a list.
#[repr(C)]
#[derive(Clone, Copy, Debug, Default, PartialEq, Eq)]
pub struct Slot {
    pub number: u16,
    pub count: u8,
    pub items: [Item; 4],
}

// How far the numbers of a window reach.
const WINDOW: u16 = 8;

// A number's slot is number mod 8: next minus the smallest outstanding number is at most 8, so no two numbers want one slot.
// next is 65,535 when the numbers are used up: C lays this record out too, so the end of the numbers is a number and no Option.
#[repr(C)]
#[derive(Clone, Copy, Debug, Default, PartialEq, Eq)]
pub struct Window {
    pub next: u16,
    pub slots: [Slot; 8],
}

impl Slot {
    // Whether this number is outstanding here.
    fn waits(&self, number: u16) -> bool
        ensures { result ≡ waits self.now number }
    {
        self.number == number && self.count >= 1
    }
}

impl Window {
    // A window that has taken no number: Window::default() under the name that its promise has (fresh_window).
    #[tactic(auto, unfolding(crate::specs::Model::fresh_window))]
    pub fn new() -> Window
        ensures { result ≡ fresh_window }
    {
        Window::default()
    }

    // Where a number's slot is.
    fn place(number: u16) -> usize
        ensures { result ≡ number % 8 }
    {
        usize::from(number % WINDOW)
    }

    // A number's slot.
    fn slot_of(&self, number: u16) -> &Slot
        ensures { result.now ≡ slot_of self.now.slots number }
    {
        &self.slots[Window::place(number)]
    }

    // Whether this number is outstanding.
    #[tactic(auto, unfolding(crate::specs::Model::is_outstanding))]
    fn is_outstanding(&self, number: u16) -> bool
        ensures { result ≡ is_outstanding self.now.slots number }
    {
        self.slot_of(number).waits(number)
    }

    // "the smallest outstanding number"; the next one where nothing is outstanding. The oldest that the window reaches back to is 8 before next, or
    // the first. Means smallest of the rules: smallest_means.
    pub fn smallest_outstanding(&self) -> u16
        ensures { result ≡ smallest_of self.now }
    {
        (self.next.saturating_sub(WINDOW)..self.next)
            .find(|number| self.is_outstanding(*number))
            .unwrap_or(self.next)
    }

    // "the kept operations" of an outstanding number; none of any other number. Means operations_of of the rules: kept_means.
    #[tactic(auto, unfolding(frames::specs::Choosing::choosing, crate::specs::Model::is_outstanding, crate::specs::Model::kept_of, crate::specs::Model::list_in))]
    pub fn kept(&self, number: u16) -> Option<Items>
        ensures value { result ≡ list_in (kept_of self.now number) }
        ensures outstanding { IsSome result ↔ IsTrue (is_outstanding self.now.slots number) }
    {
        let slot = self.slot_of(number);
        if slot.waits(number) {
            Some(Items {
                count: slot.count,
                items: slot.items,
            })
        } else {
            None
        }
    }

    // "Invoke takes the next number, makes it outstanding". Refusals 10, 9; a refusal uses up no number.
    // Means invoked of the rules: invoked_means, invoked_held.
    #[tactic(auto, unfolding(frames::specs::Choosing::choosing, crate::specs::Model::invoked_of, crate::specs::Model::storing), using(crate::proofs::Means::smallest_below))]
    pub fn invoke(&mut self, list: Items) -> Result<u16, Refusal>
        ensures value { invoked_shown self.new result ≡ invoked_of self.old list.count list.items }
        ensures refusal { OnErr result (self.new ≡ self.old) }
    {
        let number = self.next;
        if number == u16::MAX {
            return Err(Refusal::NumbersUsedUp);
        }
        let reach = number - self.smallest_outstanding();
        if reach >= WINDOW {
            return Err(Refusal::WindowFull);
        }
        let Items { count, items } = list;
        self.slots[Window::place(number)] = Slot {
            number,
            count,
            items,
        };
        self.next += 1;
        Ok(number)
    }

    // "makes its number outstanding no more"; any other number changes nothing. Means answered of the rules: answered_means, answered_held.
    #[tactic(auto, unfolding(frames::specs::Choosing::choosing, crate::specs::Model::answered_of, crate::specs::Model::storing))]
    pub fn answered(&mut self, number: u16)
        ensures { self.new ≡ answered_of self.old number }
    {
        if self.is_outstanding(number) {
            self.slots[Window::place(number)] = Slot::default();
        }
    }
}
