// The calls that name a plugin, on the lent slices. Each is refused as 2 if the list's length is not N, as 3 if words and list are not sound and as 4 if
// there is no plugin p; then the call on p's record decides. A refusal leaves words and list as they were.
//
// A call that is named is lent all three slices for writing; each of the others those fields that it can change, and no other, so that its slices come
// one by one, and each puts its list together itself. Place, which changes none, is called as the others are. Stop and wake differ in the call that each promises.
ghost use Rattle.model.specs.declared.Call.TheVariants.{Leave, Look, Place, Stop, Take, Wake};
ghost use Rattle.numbered.specs.Slices.{call_numbered_lent, numbered_lent};
ghost use Rattle.numbered_gate.specs.Decides.{Returns};
ghost use Rattle.numbered_soundness.specs.Columns.{SameColumns, numbered_lent_in};

use crate::deciding::decide;
use model::{Call, Refusal};
use numbered::{NumberedGate, NumberedReply};
use numbered_soundness::{NumberedColumns, NumberedColumnsMut};

// The call of plugin p that is named.
pub fn perform(
    name: Call,
    g: NumberedGate,
    list: &mut NumberedColumnsMut,
    p: u64,
) -> Result<NumberedReply, Refusal>
    ensures meets { Returns (call_numbered_lent name g (numbered_lent_in list.old) p) g result (numbered_lent_in list.new) }
    ensures same { SameColumns list.old list.new }
{
    let (at, (record, reply)) = decide(name, g, list.read(), p)?;
    list.write(at, record);
    Ok(reply)
}

// Plugin p takes the next ticket.
pub fn take(
    g: NumberedGate,
    regions: &mut [u8],
    marks: &[u8],
    tickets: &mut [u64],
    p: u64,
) -> Result<NumberedReply, Refusal>
    ensures { let before = numbered_lent regions.old marks.now tickets.old in
        let after = numbered_lent regions.new marks.now tickets.new in
        Returns (call_numbered_lent Take g before p) g result after }
{
    let list = NumberedColumns {
        regions,
        marks,
        tickets,
    };
    let (at, (record, reply)) = decide(Call::Take, g, list, p)?;
    regions[at] = record.region;
    tickets[at] = record.ticket;
    Ok(reply)
}

// Whether plugin p may go inside.
pub fn look(
    g: NumberedGate,
    regions: &mut [u8],
    marks: &[u8],
    tickets: &[u64],
    p: u64,
) -> Result<NumberedReply, Refusal>
    ensures { let before = numbered_lent regions.old marks.now tickets.now in
        let after = numbered_lent regions.new marks.now tickets.now in
        Returns (call_numbered_lent Look g before p) g result after }
{
    let list = NumberedColumns {
        regions,
        marks,
        tickets,
    };
    let (at, (record, reply)) = decide(Call::Look, g, list, p)?;
    regions[at] = record.region;
    Ok(reply)
}

// Plugin p gives back its slot, or its turn.
pub fn leave(
    g: NumberedGate,
    regions: &mut [u8],
    marks: &[u8],
    tickets: &mut [u64],
    p: u64,
) -> Result<NumberedReply, Refusal>
    ensures { let before = numbered_lent regions.old marks.now tickets.old in
        let after = numbered_lent regions.new marks.now tickets.new in
        Returns (call_numbered_lent Leave g before p) g result after }
{
    let list = NumberedColumns {
        regions,
        marks,
        tickets,
    };
    let (at, (record, reply)) = decide(Call::Leave, g, list, p)?;
    regions[at] = record.region;
    tickets[at] = record.ticket;
    Ok(reply)
}

// How many returns plugin p still waits for.
pub fn place(
    g: NumberedGate,
    regions: &[u8],
    marks: &[u8],
    tickets: &[u64],
    p: u64,
) -> Result<NumberedReply, Refusal>
    ensures { let list = numbered_lent regions.now marks.now tickets.now in
        Returns (call_numbered_lent Place g list p) g result list }
{
    let list = NumberedColumns {
        regions,
        marks,
        tickets,
    };
    let (_, (_, reply)) = decide(Call::Place, g, list, p)?;
    Ok(reply)
}

// Plugin p halts.
pub fn stop(
    g: NumberedGate,
    regions: &[u8],
    marks: &mut [u8],
    tickets: &[u64],
    p: u64,
) -> Result<NumberedReply, Refusal>
    ensures { let before = numbered_lent regions.now marks.old tickets.now in
        let after = numbered_lent regions.now marks.new tickets.now in
        Returns (call_numbered_lent Stop g before p) g result after }
{
    let list = NumberedColumns {
        regions,
        marks,
        tickets,
    };
    let (at, (record, reply)) = decide(Call::Stop, g, list, p)?;
    marks[at] = record.mark;
    Ok(reply)
}

// Plugin p goes on.
pub fn wake(
    g: NumberedGate,
    regions: &[u8],
    marks: &mut [u8],
    tickets: &[u64],
    p: u64,
) -> Result<NumberedReply, Refusal>
    ensures { let before = numbered_lent regions.now marks.old tickets.now in
        let after = numbered_lent regions.now marks.new tickets.now in
        Returns (call_numbered_lent Wake g before p) g result after }
{
    let list = NumberedColumns {
        regions,
        marks,
        tickets,
    };
    let (at, (record, reply)) = decide(Call::Wake, g, list, p)?;
    marks[at] = record.mark;
    Ok(reply)
}
