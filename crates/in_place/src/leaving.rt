// Leave on a lent gate. The slices come one by one, as the call of crate gate takes them.
ghost use Rattle.model.specs.Slices.{Meets, call_lent, lent};
ghost use Rattle.model.specs.declared.Call.TheVariants.{Leave};

use model::{Gate, Refusal, SlotAnswer};

// Plugin p gives back its slot or its turn and is idle, its ticket gone; VALID and the counts move in the lent gate, and the slot is the
// last of its free ones. It is refused as gate::leave is, and a refusal leaves words and list as they were.
pub fn leave(
    g: &mut Gate,
    regions: &mut [u8],
    marks: &[u8],
    values: &mut [u16],
    colours: &mut [u8],
    slots: &mut [u8],
    p: u64,
) -> Result<SlotAnswer, Refusal>
    ensures { let before = lent regions.old marks.now values.old colours.old slots.old in
        let after = lent regions.new marks.now values.new colours.new slots.new in
        Meets (call_lent Leave g.old before p) g.new result after }
{
    let reply = gate::leave(*g, regions, marks, values, colours, slots, p)?;
    Ok(reply.leave_in(g))
}
