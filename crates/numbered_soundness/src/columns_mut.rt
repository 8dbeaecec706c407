// A list as three number slices that are all lent for writing.
ghost use Rattle.std.specs.Prelude.{◌≡◌};
ghost use Rattle.numbered_soundness.specs.Columns.{IsWithin, SameColumns, cleared, numbered_lent_in, set_numbered};

use crate::columns::NumberedColumns;
use numbered::NumberedRecord;

// A call that can change any field of a record is lent all three. Its slices are not those of `lists::ColumnsMut`, so it is a struct of its own, with the
// same methods.
#[derive(Drop)]
pub struct NumberedColumnsMut<'a> {
    pub regions: &'a mut [u8],
    pub marks: &'a mut [u8],
    pub tickets: &'a mut [u64],
}

impl NumberedColumnsMut<'_> {
    // The list, to be read.
    pub fn read(&self) -> NumberedColumns<'_>
        ensures regions { result.regions.now ≡ self.now.regions.now }
        ensures marks { result.marks.now ≡ self.now.marks.now }
        ensures tickets { result.tickets.now ≡ self.now.tickets.now }
    {
        NumberedColumns {
            regions: &*self.regions,
            marks: &*self.marks,
            tickets: &*self.tickets,
        }
    }

    // Writes a record at a place.
    pub fn write(&mut self, at: usize, record: NumberedRecord)
        requires { IsWithin at (numbered_lent_in self.old) }
        ensures written { numbered_lent_in self.new ≡ set_numbered (numbered_lent_in self.old) at «record» }
        ensures same { SameColumns self.old self.new }
    {
        self.regions[at] = record.region;
        self.marks[at] = record.mark;
        self.tickets[at] = record.ticket;
    }

    // Sets every plugin idle and unmarked.
    pub fn clear(&mut self)
        ensures cleared { numbered_lent_in self.new ≡ cleared (numbered_lent_in self.old) }
        ensures same { SameColumns self.old self.new }
    {
        self.regions.fill(0);
        self.marks.fill(0);
        self.tickets.fill(0);
    }
}
