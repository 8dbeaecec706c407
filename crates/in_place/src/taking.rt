// Take on a lent gate. The slices come one by one, as the call of crate gate takes them.
ghost use Rattle.model.specs.Slices.{Meets, call_lent, lent};
ghost use Rattle.model.specs.declared.Call.TheVariants.{Take};

use model::{Gate, Refusal, SlotAnswer};

// Plugin p takes the next ticket, which is the answer, and waits; ISSUE moves in the lent gate. It is refused as gate::take is, and a
// refusal leaves words and list as they were.
pub fn take(
    g: &mut Gate,
    regions: &mut [u8],
    marks: &[u8],
    values: &mut [u16],
    colours: &mut [u8],
    slots: &[u8],
    p: u64,
) -> Result<SlotAnswer, Refusal>
    ensures { let before = lent regions.old marks.now values.old colours.old slots.now in
        let after = lent regions.new marks.now values.new colours.new slots.now in
        Meets (call_lent Take g.old before p) g.new result after }
{
    let reply = gate::take(*g, regions, marks, values, colours, slots, p)?;
    Ok(reply.leave_in(g))
}
