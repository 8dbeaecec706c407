// The row of free slots, in the 64 places of the words (in their number MOST_SLOTS is cast, as no `usize::from` can be called there): the slot returned longest ago is first, and 0 stands after the last.
ghost use Rattle.std.specs.Prelude.{◌≢◌, ◌≡◌, ℕ, ◌<◌, ◌≤◌, MatchOption, get_or, length};
ghost use Rattle.model.specs.Calls.{free_row, free_slots, head_slot, moved_up, returned};
ghost use Rattle.model.specs.Lists.{numbers_from};

use model::{MOST_SLOTS, Slot};

// A row of the words, of whose places only the first k can have slots. A call makes it of the words, which hold the places and k apart, and puts the places
// back there.
#[derive(Clone, Copy)]
pub struct FreeRow {
    pub places: [u8; MOST_SLOTS as usize],
    pub k: u8,
    ghost few: { k ≤ 64 },
}

impl FreeRow {
    // The places at opening: slots 1 to k, rising. A loop by places: over `iter_mut().zip(1..=k)` a proof does not learn what was
    // written, and `from_fn` would test each place against k and cast it.
    #[tactic(auto, using(crate::proofs::RowLaws::row_next), unfolding(model::specs::Lists::numbers_from))]
    pub fn rising(k: u8) -> [u8; MOST_SLOTS as usize]
        requires { k ≤ 64 }
        ensures { result ≡ free_row (numbers_from 1 k) }
    {
        let mut places = [0; MOST_SLOTS as usize];
        for i in 0..k {
            places[usize::from(i)] = i + 1;
        }
        places
    }

    // The slot that is given: the first of a row that is in order, which has only zeros where its first place is 0. It is sought among the
    // first k places, though it stands at place 0: a compiler that knew the place would take the words apart there in every call.
    pub fn first(self) -> Option<Slot>
        requires zeros { (j : ℕ) → self.k ≤ j → get_or self.places j 0 ≡ 0 }
        requires in_order { head_slot self.places ≡ 0 → (j : ℕ) → get_or self.places j 0 ≡ 0 }
        ensures { MatchOption result (head_slot self.places ≡ 0) (λ slot. (slot.0 ≡ head_slot self.places) × (1 ≤ slot.0)) }
    {
        let slots = &self.places[..usize::from(self.k)];
        slots.iter().copied().find(|slot| *slot != 0).map(Slot)
    }

    // The places after the first slot was given: every other place moves up by one, and the last is 0. Only the first k places can have slots, so
    // that only they are moved.
    pub fn moved_up(self) -> [u8; MOST_SLOTS as usize]
        requires { (j : ℕ) → self.k ≤ j → get_or self.places j 0 ≡ 0 }
        ensures { result ≡ moved_up self.places }
    {
        let mut places = [0; MOST_SLOTS as usize];
        if let Some((_, others)) = self.places[..usize::from(self.k)].split_first() {
            places[..others.len()].copy_from_slice(others);
        }
        places
    }

    // How many slots are free, of at most k: the places before the first 0.
    fn count(self) -> usize
        requires { length (free_slots self.places) ≤ self.k }
        ensures { result ≡ length (free_slots self.places) }
    {
        let end = usize::from(self.k);
        let slots = &self.places[..end];
        slots.iter().position(|slot| *slot == 0).unwrap_or(end)
    }

    // The places after a slot came back, which goes behind the last; 0 is no slot, and leaves the row. A slot needs one of the first k places, that
    // is not taken.
    pub fn put_back(self, slot: Slot) -> [u8; MOST_SLOTS as usize]
        requires { slot.0 ≢ 0 → length (free_slots self.places) < self.k }
        ensures { result ≡ returned self.places slot.0 }
    {
        let mut places = self.places;
        if slot != Slot(0) {
            places[self.count()] = slot.0;
        }
        places
    }
}
