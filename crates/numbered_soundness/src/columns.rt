// The list that a host lends: one number slice for each field of a record. Slices that do not all have the length n are no list of the length n.
ghost use Rattle.numbered.specs.Slices.{numbered_length_is, numbered_lent, numbered_records};
ghost use Rattle.numbered.proofs.SliceLaws.{counted_records};

use lists::Plugins;
use numbered::NumberedRecord;

#[derive(Clone, Copy)]
pub struct NumberedColumns<'a> {
    pub regions: &'a [u8],
    pub marks: &'a [u8],
    pub tickets: &'a [u64],
}

impl Plugins for NumberedColumns<'_> {
    type Record = NumberedRecord;

    ghost items = { λ c. numbered_records c.regions.now c.marks.now c.tickets.now };

    ghost has_length = { λ c n. numbered_length_is (numbered_lent c.regions.now c.marks.now c.tickets.now) n };

    ghost counted = { λ c n. counted_records c.regions.now c.marks.now c.tickets.now n };

    #[tactic(auto, unfolding(numbered::specs::Slices::numbered_length_is))]
    fn has_length(self, n: u16) -> bool {
        let long = usize::from(n);
        self.regions.len() == long && self.marks.len() == long && self.tickets.len() == long
    }

    #[tactic(auto, using(numbered::proofs::SliceLaws::all_long, numbered::proofs::SliceLaws::records_at))]
    fn record(self, at: usize) -> NumberedRecord {
        NumberedRecord {
            region: self.regions[at],
            mark: self.marks[at],
            ticket: self.tickets[at],
        }
    }
}
