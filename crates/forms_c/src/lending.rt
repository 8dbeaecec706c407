// Take and leave on a lent gate, exported. C passes the five slices apart.
ghost use Rattle.model.specs.declared.Call.TheVariants.{Leave, Take};
ghost use Rattle.model.specs.Slices.{call_lent, lent};
ghost use Rattle.forms_c.specs.Numbers.{Answered};

use answers::Shown;
use model::Gate;

// Plugin p takes the next ticket, as in_place::take has it. A refusal leaves words and list as they were.
#[unsafe(no_mangle)]
pub extern "C" fn slot_gate_in_place_take(
    g: &mut Gate,
    regions: &mut [u8],
    marks: &[u8],
    values: &mut [u16],
    colours: &mut [u8],
    slots: &[u8],
    p: u64,
) -> Shown
    ensures { let before = lent regions.old marks.now values.old colours.old slots.now in
        let after = lent regions.new marks.now values.new colours.new slots.now in
        Answered (call_lent Take g.old before p) result g.new after }
{
    Shown::from(in_place::take(g, regions, marks, values, colours, slots, p))
}

// Plugin p gives its slot back, as in_place::leave has it. A refusal leaves words and list as they were.
#[unsafe(no_mangle)]
pub extern "C" fn slot_gate_in_place_leave(
    g: &mut Gate,
    regions: &mut [u8],
    marks: &[u8],
    values: &mut [u16],
    colours: &mut [u8],
    slots: &mut [u8],
    p: u64,
) -> Shown
    ensures { let before = lent regions.old marks.now values.old colours.old slots.old in
        let after = lent regions.new marks.now values.new colours.new slots.new in
        Answered (call_lent Leave g.old before p) result g.new after }
{
    Shown::from(in_place::leave(g, regions, marks, values, colours, slots, p))
}
