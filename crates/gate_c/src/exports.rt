// The four exported functions: the words are one struct by value, the plugin list is five slices, which C passes apart.
ghost use Rattle.std.specs.Prelude.{◌≡◌};
ghost use Rattle.model.specs.declared.Call.TheVariants.{Place};
ghost use Rattle.lists.specs.Columns.{SameColumns, lent_in};
ghost use Rattle.model.specs.Slices.{Meets, alike_lent, call_lent, lent, open_lent};
ghost use Rattle.answers.specs.Answers.{comparison_numbers, numbers_of};
ghost use Rattle.gate_c.specs.Boundary.{Tells, letter_lent};

use answers::Shown;
use gate::{alike, open, perform, place_answer};
use lists::{Columns, ColumnsMut, Lending};
use model::{Call, Gate, Refusal, SlotAnswer};
use told::{Told, tell, unanswered};

// Open: the year, N plugins and k slots, the words of the new gate and its list. A refused open hands over words that are all 0 and leaves the list.
#[tactic(auto, using(told::proofs::NoGate::default_words))]
#[unsafe(no_mangle)]
pub extern "C" fn slot_gate_open(
    year: u64,
    n: u64,
    k: u64,
    regions: &mut [u8],
    marks: &mut [u8],
    values: &mut [u16],
    colours: &mut [u8],
    slots: &mut [u8],
) -> Told
    ensures { let before = lent regions.old marks.old values.old colours.old slots.old in
        let after = lent regions.new marks.new values.new colours.new slots.new in
        Tells (open_lent year n k before) result after }
{
    let mut list = ColumnsMut {
        regions,
        marks,
        values,
        colours,
        slots,
    };
    tell(Gate::default(), open(year, n, k, &mut list))
}

// The call of plugin p that a letter names, on words and a list that are lent for writing.
#[tactic(auto, unfolding(crate::specs::Boundary::letter_lent))]
#[inline(always)]
fn call_named(
    letter: u8,
    g: &mut Gate,
    list: &mut ColumnsMut,
    p: u64,
) -> Result<SlotAnswer, Refusal>
    ensures meets { Meets (letter_lent letter g.old (lent_in list.old) p) g.new result (lent_in list.new) }
    ensures same { SameColumns list.old list.new }
{
    perform(Call::try_from(letter)?, g, list, p)
}

// Take, look, leave, place, stop or wake, by its letter, of plugin p. A refused call leaves words and list as they were; a letter that
// names no call is refused as 8.
#[unsafe(no_mangle)]
pub extern "C" fn slot_gate_call(
    letter: u8,
    g: Gate,
    regions: &mut [u8],
    marks: &mut [u8],
    values: &mut [u16],
    colours: &mut [u8],
    slots: &mut [u8],
    p: u64,
) -> Told
    ensures { let before = lent regions.old marks.old values.old colours.old slots.old in
        let after = lent regions.new marks.new values.new colours.new slots.new in
        Tells (letter_lent letter g before p) result after }
{
    let mut list = ColumnsMut {
        regions,
        marks,
        values,
        colours,
        slots,
    };
    let mut told = unanswered(g);
    let answer = call_named(letter, &mut told.gate, &mut list, p);
    told.shown = Shown::from(answer);
    told
}

// Place, which only reads: what the letter P answers.
#[unsafe(no_mangle)]
pub extern "C" fn slot_gate_place(
    g: Gate,
    regions: &[u8],
    marks: &[u8],
    values: &[u16],
    colours: &[u8],
    slots: &[u8],
    p: u64,
) -> Shown
    ensures { let list = lent regions.now marks.now values.now colours.now slots.now in
        result ≡ numbers_of (call_lent Place g list p).answer }
{
    Shown::from(place_answer(g, regions, marks, values, colours, slots, p))
}

// Alike: whether two gates, of whatever years, have the same N and k, each plugin the same region, stop mark and validity, and the tickets not
// yet valid the same order.
#[tactic(auto, unfolding(model::specs::Slices::alike_lent))]
#[unsafe(no_mangle)]
pub extern "C" fn slot_gate_alike(
    first: Gate,
    regions: &[u8],
    marks: &[u8],
    values: &[u16],
    colours: &[u8],
    slots: &[u8],
    second: Gate,
    regions2: &[u8],
    marks2: &[u8],
    values2: &[u16],
    colours2: &[u8],
    slots2: &[u8],
) -> Shown
    ensures { let list = lent regions.now marks.now values.now colours.now slots.now in
        let other = lent regions2.now marks2.now values2.now colours2.now slots2.now in
        result ≡ comparison_numbers (alike_lent first list second other) }
{
    let list = Columns {
        regions,
        marks,
        values,
        colours,
        slots,
    };
    let other = Columns {
        regions: regions2,
        marks: marks2,
        values: values2,
        colours: colours2,
        slots: slots2,
    };
    let one = Lending { gate: &first, list };
    let another = Lending {
        gate: &second,
        list: other,
    };
    Shown::from(alike(one, another))
}
