// A list as five number slices, one for each field of a record. Slices that do not all have the length n are no list of the length n.
ghost use Rattle.model.specs.Slices.{length_is, lent, records};
ghost use Rattle.model.proofs.SliceLaws.{counted_records};

use crate::plugins::Plugins;
use model::{Colour, Record, Slot, Value};

#[derive(Clone, Copy)]
pub struct Columns<'a> {
    pub regions: &'a [u8],
    pub marks: &'a [u8],
    pub values: &'a [u16],
    pub colours: &'a [u8],
    pub slots: &'a [u8],
}

impl Plugins for Columns<'_> {
    type Record = Record;

    ghost items = { λ c. records c.regions.now c.marks.now c.values.now c.colours.now c.slots.now };

    ghost has_length = { λ c n. length_is (lent c.regions.now c.marks.now c.values.now c.colours.now c.slots.now) n };

    ghost counted = { λ c n. counted_records c.regions.now c.marks.now c.values.now c.colours.now c.slots.now n };

    #[tactic(auto, unfolding(model::specs::Slices::length_is))]
    fn has_length(self, n: u16) -> bool {
        let long = usize::from(n);
        self.regions.len() == long
            && self.marks.len() == long
            && self.values.len() == long
            && self.colours.len() == long
            && self.slots.len() == long
    }

    #[tactic(auto, using(model::proofs::SliceLaws::all_long, model::proofs::SliceLaws::records_at))]
    fn record(self, at: usize) -> Record {
        Record {
            region: self.regions[at],
            mark: self.marks[at],
            value: Value(self.values[at]),
            colour: Colour(self.colours[at]),
            slot: Slot(self.slots[at]),
        }
    }
}
