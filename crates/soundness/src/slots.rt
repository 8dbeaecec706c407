// The slots: "each slot is free once or with one plugin inside". Each is noted where it is met, at a plugin inside or in the free row, and
// none may be met twice. The row's slots are to stand in as many of its first places as are not 0: all after them are 0 then.
ghost use Rattle.std.specs.Prelude.{◌≡◌, ◌≤◌, ℕ, not, eqb};
ghost use Rattle.model.specs.Lists.{count};

use model::{INSIDE, MOST_SLOTS, Record, Slot};

// Which slots have been met: a bit for each of the slots 1 to 64. The slots above k count as met from the start.
#[derive(Clone, Copy)]
pub struct Slots {
    met: u64,
}

impl Slots {
    ghost use Rattle.soundness.specs.Slots.{AllMet, Noted, NotedOf, RowNoted, Table};

    // The slots of a gate with k slots, none of which has been met.
    pub fn none(k: u8) -> Slots
        requires { (1 ≤ k) × (k ≤ 64) }
        ensures { Table k result.met (λ s. 0) }
    {
        Slots {
            met: !(u64::MAX >> (MOST_SLOTS - k)),
        }
    }

    // Notes the slots in the free row. It answers no if the row has a number that is no slot, or a slot that was met before.
    pub fn note_row(&mut self, row: &[u8]) -> bool
        ensures { (k : ℕ) → (f : ℕ → ℕ) → Table k self.old.met f → RowNoted k f row.now result self.new.met }
    {
        // No `all`: tried, it left open what the slots are after it, since they are lent to its closure.
        for slot in row {
            if !self.note(Slot(*slot)) {
                return false;
            }
        }
        true
    }

    // Notes a slot. It answers no if there is no such slot or it was met before.
    fn note(&mut self, slot: Slot) -> bool
        ensures { Noted slot.0 self.old.met result self.new.met }
    {
        // The slot 0, which is none, goes round to 255.
        let at = slot.0.wrapping_sub(1);
        if at >= MOST_SLOTS {
            return false;
        }
        let noted = self.met | 1 << at;
        if noted == self.met {
            return false;
        }
        self.met = noted;
        true
    }

    // Notes the slot of a record: that of a plugin inside, and of no other, which is to have none.
    pub fn note_of(&mut self, record: Record) -> bool
        ensures { NotedOf «record».region «record».slot.0 self.old.met result self.new.met }
    {
        if record.region == INSIDE {
            self.note(record.slot)
        } else {
            record.slot == Slot::default()
        }
    }

    // Whether each slot has been met.
    pub fn all_met(&self) -> bool
        ensures { AllMet self.now.met result }
    {
        self.met == u64::MAX
    }
}

// How many places of the free row are not 0. (In a type no `usize::from` can be called: the cast loses nothing.)
pub fn places_used(free: &[u8; MOST_SLOTS as usize]) -> u8
    ensures { result ≡ count (λ x. not (eqb x 0)) free.now }
{
    free.iter().map(|place| u8::from(*place != 0)).sum()
}
