// Look, stop and wake with the words passed by value, exported. C passes the five slices apart; only what the call can change is lent for writing.
ghost use Rattle.model.specs.declared.Call.TheVariants.{Look, Stop, Wake};
ghost use Rattle.model.specs.Slices.{call_lent, lent};
ghost use Rattle.forms_c.specs.Numbers.{Tells};

use model::Gate;
use told::{Told, tell};

// Whether plugin p may go inside, as gate::look has it. A refusal leaves words and list as they were.
#[unsafe(no_mangle)]
pub extern "C" fn slot_gate_passed_look(
    g: Gate,
    regions: &mut [u8],
    marks: &[u8],
    values: &[u16],
    colours: &[u8],
    slots: &mut [u8],
    p: u64,
) -> Told
    ensures { let before = lent regions.old marks.now values.now colours.now slots.old in
        let after = lent regions.new marks.now values.now colours.now slots.new in
        Tells (call_lent Look g before p) result after }
{
    tell(g, gate::look(g, regions, marks, values, colours, slots, p))
}

// Sets plugin p's stop mark, as gate::stop has it. A refusal leaves words and list as they were.
#[unsafe(no_mangle)]
pub extern "C" fn slot_gate_passed_stop(
    g: Gate,
    regions: &[u8],
    marks: &mut [u8],
    values: &[u16],
    colours: &[u8],
    slots: &[u8],
    p: u64,
) -> Told
    ensures { let before = lent regions.now marks.old values.now colours.now slots.now in
        let after = lent regions.now marks.new values.now colours.now slots.now in
        Tells (call_lent Stop g before p) result after }
{
    tell(g, gate::stop(g, regions, marks, values, colours, slots, p))
}

// Clears plugin p's stop mark, as gate::wake has it. A refusal leaves words and list as they were.
#[unsafe(no_mangle)]
pub extern "C" fn slot_gate_passed_wake(
    g: Gate,
    regions: &[u8],
    marks: &mut [u8],
    values: &[u16],
    colours: &[u8],
    slots: &[u8],
    p: u64,
) -> Told
    ensures { let before = lent regions.now marks.old values.now colours.now slots.now in
        let after = lent regions.now marks.new values.now colours.now slots.now in
        Tells (call_lent Wake g before p) result after }
{
    tell(g, gate::wake(g, regions, marks, values, colours, slots, p))
}
