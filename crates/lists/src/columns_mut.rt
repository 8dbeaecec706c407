// A list as five number slices that are all lent for writing.
ghost use Rattle.std.specs.Prelude.{◌≡◌};
ghost use Rattle.lists.specs.Columns.{IsWithin, SameColumns, cleared, lent_in, set_lent};

use crate::columns::Columns;
use model::Record;

// A call that can change any field of a record is lent all five. That they stay the same slices (`SameColumns`) stands in each contract: only so does a
// caller learn what its own slices hold.
#[derive(Drop)]
pub struct ColumnsMut<'a> {
    pub regions: &'a mut [u8],
    pub marks: &'a mut [u8],
    pub values: &'a mut [u16],
    pub colours: &'a mut [u8],
    pub slots: &'a mut [u8],
}

impl ColumnsMut<'_> {
    // The list, to be read.
    pub fn read(&self) -> Columns<'_>
        ensures regions { result.regions.now ≡ self.now.regions.now }
        ensures marks { result.marks.now ≡ self.now.marks.now }
        ensures values { result.values.now ≡ self.now.values.now }
        ensures colours { result.colours.now ≡ self.now.colours.now }
        ensures slots { result.slots.now ≡ self.now.slots.now }
    {
        Columns {
            regions: &*self.regions,
            marks: &*self.marks,
            values: &*self.values,
            colours: &*self.colours,
            slots: &*self.slots,
        }
    }

    // Writes a record at a place.
    pub fn write(&mut self, at: usize, record: Record)
        requires { IsWithin at (lent_in self.old) }
        ensures written { lent_in self.new ≡ set_lent (lent_in self.old) at «record» }
        ensures same { SameColumns self.old self.new }
    {
        self.regions[at] = record.region;
        self.marks[at] = record.mark;
        self.values[at] = record.value.0;
        self.colours[at] = record.colour.0;
        self.slots[at] = record.slot.0;
    }

    // Sets every plugin idle and unmarked.
    pub fn clear(&mut self)
        ensures cleared { lent_in self.new ≡ cleared (lent_in self.old) }
        ensures same { SameColumns self.old self.new }
    {
        self.regions.fill(0);
        self.marks.fill(0);
        self.values.fill(0);
        self.colours.fill(0);
        self.slots.fill(0);
    }
}
