// The numbered gate's take, look, leave, stop and wake, exported. C passes the three slices apart; only what the call can change is lent for
// writing. Each does what the function of its name in numbered_gate does, and a refusal leaves words and list as they were.
ghost use Rattle.std.specs.Prelude.{◌≡◌};
ghost use Rattle.model.specs.Replies.{answer_of, words_after};
ghost use Rattle.model.specs.declared.Call.TheVariants.{Leave, Look, Stop, Take, Wake};
ghost use Rattle.numbered.specs.Slices.{call_numbered_lent, numbered_lent};
ghost use Rattle.forms_c.specs.Numbers.{NumberedTells, numbered_told_of};

use answers::Kind;
use model::{Answer, Refusal, words_and_answer};
use numbered::{NumberedGate, NumberedReply};

// The words to keep for the next call, and what the answer shows. What it does not have is 0. It is laid out as what numbered_gate_c hands over,
// and stands beside that since no crate stands on a static library.
#[repr(C)]
#[derive(Clone, Copy, Default)]
pub struct NumberedTold {
    pub gate: NumberedGate,
    pub number: u8,
    pub kind: u8,
    pub yes: u8,
    pub ticket: u64,
    pub place: u64,
}

// What a call returned, handed over: no `From`, since it takes the words too. After a refusal the words are those that were given, g.
fn tell(g: NumberedGate, returned: Result<NumberedReply, Refusal>) -> NumberedTold
    ensures { result ≡ numbered_told_of (words_after g returned) (answer_of returned) }
{
    let (gate, answer) = words_and_answer(g, returned);
    let told = NumberedTold {
        gate,
        ..NumberedTold::default()
    };
    match answer {
        Ok(Answer::Took(ticket)) => NumberedTold {
            kind: Kind::Ticket as u8,
            ticket,
            ..told
        },
        Ok(Answer::Looked(yes)) => NumberedTold {
            kind: Kind::YesOrNo as u8,
            yes: u8::from(yes),
            ..told
        },
        Ok(Answer::Placed(place)) => NumberedTold {
            kind: Kind::Place as u8,
            place,
            ..told
        },
        Ok(Answer::Done) => NumberedTold {
            kind: Kind::Done as u8,
            ..told
        },
        Err(refusal) => NumberedTold {
            number: u8::from(refusal),
            kind: Kind::Refused as u8,
            ..told
        },
    }
}

// Plugin p takes the next ticket.
#[unsafe(no_mangle)]
pub extern "C" fn numbered_gate_passed_take(
    g: NumberedGate,
    regions: &mut [u8],
    marks: &[u8],
    tickets: &mut [u64],
    p: u64,
) -> NumberedTold
    ensures { let before = numbered_lent regions.old marks.now tickets.old in
        let after = numbered_lent regions.new marks.now tickets.new in
        NumberedTells (call_numbered_lent Take g before p) result after }
{
    tell(g, numbered_gate::take(g, regions, marks, tickets, p))
}

// Whether plugin p may go inside.
#[unsafe(no_mangle)]
pub extern "C" fn numbered_gate_passed_look(
    g: NumberedGate,
    regions: &mut [u8],
    marks: &[u8],
    tickets: &[u64],
    p: u64,
) -> NumberedTold
    ensures { let before = numbered_lent regions.old marks.now tickets.now in
        let after = numbered_lent regions.new marks.now tickets.now in
        NumberedTells (call_numbered_lent Look g before p) result after }
{
    tell(g, numbered_gate::look(g, regions, marks, tickets, p))
}

// Plugin p gives back its slot, or its turn.
#[unsafe(no_mangle)]
pub extern "C" fn numbered_gate_passed_leave(
    g: NumberedGate,
    regions: &mut [u8],
    marks: &[u8],
    tickets: &mut [u64],
    p: u64,
) -> NumberedTold
    ensures { let before = numbered_lent regions.old marks.now tickets.old in
        let after = numbered_lent regions.new marks.now tickets.new in
        NumberedTells (call_numbered_lent Leave g before p) result after }
{
    tell(g, numbered_gate::leave(g, regions, marks, tickets, p))
}

// Plugin p halts.
#[unsafe(no_mangle)]
pub extern "C" fn numbered_gate_passed_stop(
    g: NumberedGate,
    regions: &[u8],
    marks: &mut [u8],
    tickets: &[u64],
    p: u64,
) -> NumberedTold
    ensures { let before = numbered_lent regions.now marks.old tickets.now in
        let after = numbered_lent regions.now marks.new tickets.now in
        NumberedTells (call_numbered_lent Stop g before p) result after }
{
    tell(g, numbered_gate::stop(g, regions, marks, tickets, p))
}

// Plugin p goes on.
#[unsafe(no_mangle)]
pub extern "C" fn numbered_gate_passed_wake(
    g: NumberedGate,
    regions: &[u8],
    marks: &mut [u8],
    tickets: &[u64],
    p: u64,
) -> NumberedTold
    ensures { let before = numbered_lent regions.now marks.old tickets.now in
        let after = numbered_lent regions.now marks.new tickets.now in
        NumberedTells (call_numbered_lent Wake g before p) result after }
{
    tell(g, numbered_gate::wake(g, regions, marks, tickets, p))
}
