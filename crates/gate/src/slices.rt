// The calls that name a plugin, over five number slices. `perform`, whichever of them it is, is lent all five for writing; each of the others those fields
// that it can change, and no other, so that its slices come one by one, and each puts its list together itself; place, which changes none, is called as the others are. Stop and wake differ
// in the call that each promises.
ghost use Rattle.model.specs.Replies.{answer_of, words_after};
ghost use Rattle.model.specs.Slices.{Meets, call_lent, lent};
ghost use Rattle.model.specs.declared.Call.TheVariants.{Leave, Look, Place, Stop, Take, Wake};
ghost use Rattle.gate.specs.Decides.{DecidesLent, RepliesLent};
ghost use Rattle.lists.specs.Columns.{SameColumns, lent_in};

use crate::deciding::decide;
use lists::{Columns, ColumnsMut};
use model::{Call, Gate, Record, Refusal, Reply, SlotAnswer, SlotEffect, SlotReply};

// What a call decides of a list that is lent as five slices. It is inlined, as are `decide`, `called`, `perform`
// and who calls it in `gate_c`: across a call, a result is copied each time, which a look at N 3 shows.
#[tactic(auto, using(crate::proofs::LentLaws::decides_lent))]
#[inline(always)]
fn decide_slices(
    name: Call,
    g: &mut Gate,
    list: Columns,
    p: u64,
) -> Result<(usize, SlotEffect), Refusal>
    ensures { DecidesLent name g.old (lent list.entry.regions.now list.entry.marks.now list.entry.values.now list.entry.colours.now list.entry.slots.now) p g.new result }
{
    decide(name, g, list, p)
}

// The call of plugin p that is named, on words that are lent. A refusal leaves words and list as they were.
#[inline(always)]
pub fn perform(
    name: Call,
    g: &mut Gate,
    list: &mut ColumnsMut,
    p: u64,
) -> Result<SlotAnswer, Refusal>
    ensures meets { Meets (call_lent name g.old (lent_in list.old) p) g.new result (lent_in list.new) }
    ensures same { SameColumns list.old list.new }
{
    let (at, effect) = decide_slices(name, g, list.read(), p)?;
    list.write(at, effect.record);
    Ok(effect.answer)
}

// What a call decides where the words are not lent: the place of the record that changes, that record, and the reply.
fn replied(
    name: Call,
    g: Gate,
    list: Columns,
    p: u64,
) -> Result<(usize, (Record, SlotReply)), Refusal>
    ensures { RepliesLent name g (lent list.entry.regions.now list.entry.marks.now list.entry.values.now list.entry.colours.now list.entry.slots.now) p result }
{
    let mut gate = g;
    let (at, effect) = decide_slices(name, &mut gate, list, p)?;
    let answer = effect.answer;
    Ok((at, (effect.record, Reply { gate, answer })))
}

// Plugin p takes the next ticket, which the answer carries, and waits. After 2, 3 and 4 it is refused as 5 if p is stopped and as 6 if
// p is not idle; a refusal leaves words and list as they were.
#[tactic(auto, using(crate::proofs::FormLaws::take_form))]
pub fn take(
    g: Gate,
    regions: &mut [u8],
    marks: &[u8],
    values: &mut [u16],
    colours: &mut [u8],
    slots: &[u8],
    p: u64,
) -> Result<SlotReply, Refusal>
    ensures { let before = lent regions.old marks.now values.old colours.old slots.now in
        let after = lent regions.new marks.now values.new colours.new slots.now in
        Meets (call_lent Take g before p) (words_after g result) (answer_of result) after }
{
    let list = Columns {
        regions,
        marks,
        values,
        colours,
        slots,
    };
    let (at, (record, reply)) = replied(Call::Take, g, list, p)?;
    regions[at] = record.region;
    values[at] = record.value.0;
    colours[at] = record.colour.0;
    Ok(reply)
}

// Whether plugin p may go inside: yes puts it inside and gives it the first free slot, which the answer carries; no changes nothing and is not
// a refusal. Each carries the rule that applied. After 2, 3 and 4 it is refused as 5 if p is stopped and as 6 if p is not waiting; a refusal leaves
// words and list as they were.
#[tactic(auto, using(crate::proofs::FormLaws::look_form))]
pub fn look(
    g: Gate,
    regions: &mut [u8],
    marks: &[u8],
    values: &[u16],
    colours: &[u8],
    slots: &mut [u8],
    p: u64,
) -> Result<SlotReply, Refusal>
    ensures { let before = lent regions.old marks.now values.now colours.now slots.old in
        let after = lent regions.new marks.now values.now colours.now slots.new in
        Meets (call_lent Look g before p) (words_after g result) (answer_of result) after }
{
    let list = Columns {
        regions,
        marks,
        values,
        colours,
        slots,
    };
    let (at, (record, reply)) = replied(Call::Look, g, list, p)?;
    regions[at] = record.region;
    slots[at] = record.slot.0;
    Ok(reply)
}

// Plugin p gives its slot back, which goes behind the last free one, or, if it waits and its ticket is valid, its turn, with which no slot comes
// back. It is idle then, its ticket and its slot gone: VALID moves, and the counts follow. After 2, 3 and 4 it is refused as 5 if p is stopped, as
// 6 if p is idle and as 9 if p waits and its ticket is not valid; a refusal leaves words and list as they were.
#[tactic(auto, using(crate::proofs::FormLaws::leave_form))]
pub fn leave(
    g: Gate,
    regions: &mut [u8],
    marks: &[u8],
    values: &mut [u16],
    colours: &mut [u8],
    slots: &mut [u8],
    p: u64,
) -> Result<SlotReply, Refusal>
    ensures { let before = lent regions.old marks.now values.old colours.old slots.old in
        let after = lent regions.new marks.now values.new colours.new slots.new in
        Meets (call_lent Leave g before p) (words_after g result) (answer_of result) after }
{
    let list = Columns {
        regions,
        marks,
        values,
        colours,
        slots,
    };
    let (at, (record, reply)) = replied(Call::Leave, g, list, p)?;
    regions[at] = record.region;
    values[at] = record.value.0;
    colours[at] = record.colour.0;
    slots[at] = record.slot.0;
    Ok(reply)
}

// Sets plugin p's stop mark; its ticket and its region remain. After 2, 3 and 4 it is refused as 5 if p is stopped already; a refusal
// leaves words and list as they were.
#[tactic(auto, using(crate::proofs::FormLaws::stop_form))]
pub fn stop(
    g: Gate,
    regions: &[u8],
    marks: &mut [u8],
    values: &[u16],
    colours: &[u8],
    slots: &[u8],
    p: u64,
) -> Result<SlotReply, Refusal>
    ensures { let before = lent regions.now marks.old values.now colours.now slots.now in
        let after = lent regions.now marks.new values.now colours.now slots.now in
        Meets (call_lent Stop g before p) (words_after g result) (answer_of result) after }
{
    let list = Columns {
        regions,
        marks,
        values,
        colours,
        slots,
    };
    let (at, (record, reply)) = replied(Call::Stop, g, list, p)?;
    marks[at] = record.mark;
    Ok(reply)
}

// Clears plugin p's stop mark. After 2, 3 and 4 it is refused as 7 if p is not stopped; a refusal leaves words and list as they were.
#[tactic(auto, using(crate::proofs::FormLaws::wake_form))]
pub fn wake(
    g: Gate,
    regions: &[u8],
    marks: &mut [u8],
    values: &[u16],
    colours: &[u8],
    slots: &[u8],
    p: u64,
) -> Result<SlotReply, Refusal>
    ensures { let before = lent regions.now marks.old values.now colours.now slots.now in
        let after = lent regions.now marks.new values.now colours.now slots.now in
        Meets (call_lent Wake g before p) (words_after g result) (answer_of result) after }
{
    let list = Columns {
        regions,
        marks,
        values,
        colours,
        slots,
    };
    let (at, (record, reply)) = replied(Call::Wake, g, list, p)?;
    marks[at] = record.mark;
    Ok(reply)
}

// How many returns plugin p still waits for: 0 if its turn has come, 1 for the first in line. After 2, 3 and 4 it is refused as 5 if p is
// stopped and as 6 if p is not waiting. It changes nothing.
#[tactic(auto, using(crate::proofs::FormLaws::place_form))]
pub fn place(
    g: Gate,
    regions: &[u8],
    marks: &[u8],
    values: &[u16],
    colours: &[u8],
    slots: &[u8],
    p: u64,
) -> Result<SlotReply, Refusal>
    ensures { let list = lent regions.now marks.now values.now colours.now slots.now in
        Meets (call_lent Place g list p) (words_after g result) (answer_of result) list }
{
    let list = Columns {
        regions,
        marks,
        values,
        colours,
        slots,
    };
    let (_, (_, reply)) = replied(Call::Place, g, list, p)?;
    Ok(reply)
}

// The same, and only the answer: a place changes no word.
#[tactic(auto, using(crate::proofs::FormLaws::place_answers))]
pub fn place_answer(
    g: Gate,
    regions: &[u8],
    marks: &[u8],
    values: &[u16],
    colours: &[u8],
    slots: &[u8],
    p: u64,
) -> Result<SlotAnswer, Refusal>
    ensures { let list = lent regions.now marks.now values.now colours.now slots.now in
        Meets (call_lent Place g list p) g result list }
{
    place(g, regions, marks, values, colours, slots, p).map(|reply| reply.answer)
}
