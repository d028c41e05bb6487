// The shelf: a slot for each frame that waits in the merger, and one for the frame that is handed in. At most 16 positions wait, and each holds at most one
// frame of each stream: so 33 slots are enough, and the memory is constant. A slot's place is the number that the merger keeps for its frame.

#![tactic(auto)]

ghost use Rattle.std.specs.Prelude.{◌≡◌, true, false, not, ◌<◌, length, get_or, set, replicate, position};
ghost use Rattle.merging_shelf.specs.Slots.{shelf_slots, free_slot, used, IsSlot, empty_slot, taken_in, cleared_slots, count_free, count_freed};
ghost use Rattle.merging_shelf.specs.declared.Slot.{Slot};

use journal_rules::{Outcome, Tried};
use merger_rules::Freed;

// kept: `taken` beside the rest and no Option, by what may not change: `without` says that what was laid in a slot stays there when it is free again.
// A place for one frame: whether it is taken, what the decoder said of the frame, and its envelope.
#[derive(Clone, Copy)]
pub struct Slot {
    pub taken: bool,
    pub tried: Tried,
    pub envelope: [u8; 48],
}

// The slots. One that is free again keeps what was laid there until another frame is.
#[derive(Clone, Copy)]
pub struct Shelf {
    pub slots: [Slot; 33],
}

// Gives a shelf on which nothing lies.
pub fn empty() -> Shelf
    ensures { result ≡ record { slots = replicate shelf_slots empty_slot } }
{
    let tried = Tried {
        outcome: Outcome::Untried,
        corrected: 0,
    };
    let slot = Slot {
        taken: false,
        tried,
        envelope: [0; 48],
    };
    Shelf { slots: [slot; 33] }
}

// Finds the first slot that is not taken.
fn first_free(slots: &[Slot]) -> Option<usize>
    ensures { result ≡ position (λ (s : Slot). not s.taken) slots.now }
{
    slots.iter().position(|slot| !slot.taken)
}

// Finds the first free slot. There is one: the caller shows that not all are taken.
#[tactic(auto, using(crate::proofs::Shelving::first_found, crate::proofs::Shelving::free_within, crate::proofs::Shelving::free_is))]
pub fn free_slot(shelf: &Shelf) -> usize
    requires { used (taken_in shelf.now) < shelf_slots }
    ensures free { (result < shelf_slots) × (get_or (taken_in shelf.now) result false ≡ false) }
    ensures first { result ≡ free_slot (taken_in shelf.now) }
{
    first_free(&shelf.slots).unwrap()
}

// Lays a frame into a slot: its envelope, and what the decoder said of it.
pub fn with_frame(shelf: Shelf, slot: usize, tried: Tried, envelope: &[u8]) -> Shelf
    requires { (slot < shelf_slots) × (length envelope.now ≡ 48) }
    ensures { result ≡ record { slots = set shelf.slots slot (record { taken = true; tried = tried; envelope = envelope.now }) } }
{
    let mut next = shelf;
    let place = &mut next.slots[slot];
    place.taken = true;
    place.tried = tried;
    place.envelope.copy_from_slice(envelope);
    next
}

// Frees the slot whose number the merger gave back.
fn clear_slot(slots: &mut [Slot], free: Option<u64>)
    requires fact_1 { IsSlot free }
    requires fact_2 { length slots.old ≡ shelf_slots }
    ensures { slots.new ≡ cleared_slots free slots.old }
{
    if let Some(slot) = free {
        slots[slot as usize].taken = false;
    }
}

// Frees the slots whose numbers the merger gave back; what lies in them stays until another frame is laid there.
pub fn without(shelf: Shelf, freed: Freed) -> Shelf
    requires fact_1 { IsSlot freed.primary }
    requires fact_2 { IsSlot freed.alternate }
    ensures { result ≡ record { slots = cleared_slots freed.alternate (cleared_slots freed.primary shelf.slots) } }
{
    let mut next = shelf;
    clear_slot(&mut next.slots, freed.primary);
    clear_slot(&mut next.slots, freed.alternate);
    next
}

// Counts the numbers that a place gave back: one or none.
fn how_many_free(free: Option<u64>) -> u64
    ensures { result ≡ count_free free }
{
    u64::from(free.is_some())
}

// Counts the numbers that a position gave back: at most one for each stream.
pub fn how_many(freed: Freed) -> u64
    ensures { result ≡ count_freed freed }
{
    how_many_free(freed.primary) + how_many_free(freed.alternate)
}
