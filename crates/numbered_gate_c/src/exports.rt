// The three exported functions: the words are one struct by value, the plugin list is three slices, which C passes apart.
ghost use Rattle.std.specs.Prelude.{◌≡◌};
ghost use Rattle.model.specs.declared.Call.TheVariants.{Place};
ghost use Rattle.numbered.specs.Slices.{call_numbered_lent, numbered_lent, open_numbered_lent};
ghost use Rattle.numbered_gate.specs.Decides.{Returns};
ghost use Rattle.numbered_gate_c.specs.Boundary.{NumberedTells, letter_numbered_lent, numbered_numbers};
ghost use Rattle.numbered_soundness.specs.Columns.{SameColumns, numbered_lent_in};

use crate::told::{NumberedShown, NumberedTold, tell};
use model::{Call, Refusal};
use numbered::{NumberedGate, NumberedReply};
use numbered_gate::{open, perform, place};
use numbered_soundness::NumberedColumnsMut;

// Open: N plugins and k slots, the words of the new gate and its list. A refused open hands over words that are all 0 and leaves the list.
#[unsafe(no_mangle)]
pub extern "C" fn numbered_gate_open(
    n: u64,
    k: u64,
    regions: &mut [u8],
    marks: &mut [u8],
    tickets: &mut [u64],
) -> NumberedTold
    ensures { let before = numbered_lent regions.old marks.old tickets.old in
        let after = numbered_lent regions.new marks.new tickets.new in
        NumberedTells (open_numbered_lent n k before) result after }
{
    let mut list = NumberedColumnsMut {
        regions,
        marks,
        tickets,
    };
    tell(NumberedGate::default(), open(n, k, &mut list))
}

// The call of plugin p that a letter names, over the list that this export is lent.
#[tactic(auto, unfolding(crate::specs::Boundary::letter_numbered_lent))]
fn call_named(
    letter: u8,
    g: NumberedGate,
    list: &mut NumberedColumnsMut,
    p: u64,
) -> Result<NumberedReply, Refusal>
    ensures meets { Returns (letter_numbered_lent letter g (numbered_lent_in list.old) p) g result (numbered_lent_in list.new) }
    ensures same { SameColumns list.old list.new }
{
    perform(Call::try_from(letter)?, g, list, p)
}

// Take, look, leave, place, stop or wake, by its letter, of plugin p. A refused call leaves words and list as they were; a letter that names no
// call is refused as 8.
#[unsafe(no_mangle)]
pub extern "C" fn numbered_gate_call(
    letter: u8,
    g: NumberedGate,
    regions: &mut [u8],
    marks: &mut [u8],
    tickets: &mut [u64],
    p: u64,
) -> NumberedTold
    ensures { let before = numbered_lent regions.old marks.old tickets.old in
        let after = numbered_lent regions.new marks.new tickets.new in
        NumberedTells (letter_numbered_lent letter g before p) result after }
{
    let mut list = NumberedColumnsMut {
        regions,
        marks,
        tickets,
    };
    tell(g, call_named(letter, g, &mut list, p))
}

// Place, which only reads: what the letter P answers.
#[unsafe(no_mangle)]
pub extern "C" fn numbered_gate_place(
    g: NumberedGate,
    regions: &[u8],
    marks: &[u8],
    tickets: &[u64],
    p: u64,
) -> NumberedShown
    ensures { let list = numbered_lent regions.now marks.now tickets.now in
        result ≡ numbered_numbers (call_numbered_lent Place g list p).answer }
{
    NumberedShown::from(place(g, regions, marks, tickets, p).map(|reply| reply.answer))
}
