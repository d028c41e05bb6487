// Lays the record of a frame that the merger hands on into lent memory, with the gap before it.

#![tactic(auto)]

ghost use Rattle.std.specs.Prelude.{◌≡◌, [], ◌∷◌, ◌+◌, ◌≤◌, ◌<◌, length};
ghost use Rattle.merging_rules.specs.Piles.{freed_slot, envelope_for, framed_from, frames_out};
ghost use Rattle.merging_rules.specs.Works.{FramesLaid, WritableFrom, need_of};
ghost use Rattle.merging_shelf.specs.Slots.{shelf_slots, IsSlot};

use merger::chosen;
use merger_rules::{Freed, Release, Released};
use merging_shelf::Shelf;
use recorder_records::put_frame;
use recorder_rules::Laid;

// Gives the slot whose number a place gave back, and 0 where it gave back none.
fn slot_of(free: Option<u64>) -> usize
    requires { IsSlot free }
    ensures value { result ≡ freed_slot free }
    ensures few { result < shelf_slots }
{
    free.map_or(0, |slot| slot as usize)
}

// Gives the envelope of the stream that the merger names, itself and no copy, from the slots of the position that it gave back.
fn envelope_for(shelf: &Shelf, freed: Freed, alternate: bool) -> &[u8]
    requires fact_1 { IsSlot freed.primary }
    requires fact_2 { IsSlot freed.alternate }
    ensures result_value { result.now ≡ envelope_for freed «alternate» shelf.now.slots }
    ensures size { length result.now ≡ 48 }
{
    let primary = &shelf.slots[slot_of(freed.primary)].envelope;
    let other = &shelf.slots[slot_of(freed.alternate)].envelope;
    chosen(primary, other, alternate)
}

// Lays the record of a frame that is handed on, with the gap before it. What was said of it lies in the slot of its number.
fn put_release(shelf: Shelf, laid: Laid, freed: Freed, r: Release, out: &mut [u8]) -> Laid
    requires fact_1 { IsSlot freed.primary }
    requires fact_2 { IsSlot freed.alternate }
    requires fact_3 { WritableFrom shelf (Released.Frame r) }
    requires fact_4 { laid.size + 128 ≤ length out.old }
    ensures frames_laid { FramesLaid out.old out.new laid (framed_from shelf freed r ∷ []) result }
    ensures few { result.size ≤ laid.size + 128 }
{
    let envelope = envelope_for(&shelf, freed, r.alternate);
    let before = Laid {
        accepted: 0,
        ..laid
    };
    put_frame(
        before,
        r.figures,
        shelf.slots[r.number as usize].tried,
        envelope,
        out,
    )
}

// Lays what a release hands on, if it hands on a frame.
pub fn put_released(
    shelf: Shelf,
    laid: Laid,
    freed: Freed,
    answer: Released,
    out: &mut [u8],
) -> Laid
    requires fact_1 { IsSlot freed.primary }
    requires fact_2 { IsSlot freed.alternate }
    requires fact_3 { WritableFrom shelf answer }
    requires fact_4 { laid.size + need_of answer ≤ length out.old }
    ensures frames_laid { FramesLaid out.old out.new laid (frames_out shelf freed answer) result }
    ensures few { result.size ≤ laid.size + need_of answer }
{
    match answer {
        Released::Frame(r) => put_release(shelf, laid, freed, r, out),
        Released::PassedOver | Released::NothingReady => laid,
    }
}
