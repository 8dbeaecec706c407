// The three exported functions: the words are one struct by value, the plugin list is a slice of records.
ghost use Rattle.std.specs.Prelude.{◌≡◌};
ghost use Rattle.model.specs.Opening.{open_gate};
ghost use Rattle.model.specs.Alike.{alike};
ghost use Rattle.answers.specs.Answers.{comparison_numbers};
ghost use Rattle.records.specs.Promise.{Fulfils};
ghost use Rattle.records_c.specs.Boundary.{Tells, letter_called};

use answers::Shown;
use model::{Call, Gate, Record, Refusal, SlotAnswer};
use told::{Told, tell, unanswered};

// Open: the year, N plugins and k slots, the words of the new gate and its list. A refused open hands over words that are all 0 and leaves the list.
#[tactic(auto, using(told::proofs::NoGate::default_words))]
#[unsafe(no_mangle)]
pub extern "C" fn slot_gate_records_open(year: u64, n: u64, k: u64, list: &mut [Record]) -> Told
    ensures { Tells (open_gate year n k list.old) result list.new }
{
    tell(Gate::default(), records::open(year, n, k, list))
}

// The call that a letter names, of plugin p, over the words and the list that it is lent; or the refusal of a letter that names none.
#[tactic(auto, unfolding(crate::specs::Boundary::letter_called))]
fn call_named(letter: u8, g: &mut Gate, list: &mut [Record], p: u64) -> Result<SlotAnswer, Refusal>
    ensures { Fulfils (letter_called letter g.old list.old p) g.new result list.new }
{
    let call = Call::try_from(letter)?;
    records::perform(call, g, list, p)
}

// Take, look, leave, place, stop or wake, by its letter, of plugin p. A refused call leaves words and list as they were; a letter that
// names no call is refused as 8.
#[unsafe(no_mangle)]
pub extern "C" fn slot_gate_records_call(letter: u8, g: Gate, list: &mut [Record], p: u64) -> Told
    ensures { Tells (letter_called letter g list.old p) result list.new }
{
    let mut told = unanswered(g);
    let answer = call_named(letter, &mut told.gate, list, p);
    told.shown = Shown::from(answer);
    told
}

// Alike: whether two gates, of whatever years, have the same N and k, each plugin the same region, stop mark and validity, and the tickets not
// yet valid the same order.
#[unsafe(no_mangle)]
pub extern "C" fn slot_gate_records_alike(
    first: Gate,
    list: &[Record],
    second: Gate,
    other: &[Record],
) -> Shown
    ensures { result ≡ comparison_numbers (alike first list.now second other.now) }
{
    Shown::from(records::alike(first, list, second, other))
}
