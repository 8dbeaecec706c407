// The pass over the list: it counts the records in their bins, keeps the held tickets that are none of the places after VALID, and notes the
// slots. What is left of soundness is then read off the bins, the kept tickets and the slots.
ghost use Rattle.std.specs.Prelude.{◌≡◌, ◌≤◌, ◌<◌, ◌-◌, true};
ghost use Rattle.model.specs.Sound.{sound};
ghost use Rattle.soundness.specs.Pass.{PassAsks};

use crate::others::Others;
use crate::slots::{Slots, places_used};
use lists::Plugins;
use model::{Gate, Record};
use ranges::Lead;
use tally::{Class, IDLE_BIN, class_of_record, each_one, equal_bins, subtract_spare};

// The most records of a list that is read before the free row is: no more than it takes to note a long row.
const SHORT_LIST: u16 = 8;

// Whether the list is sound, where the words pass their tests and `lead` is what is read of them. It is lent empty bins, at least one for each
// place after VALID beside those of the colours and of the idle records; ROOM is for as many other tickets as there can be.
pub fn list_is_sound<L: Plugins<Record = Record>, const ROOM: usize, const RESIDUES: usize>(
    g: &Gate,
    lead: Lead,
    bins: &mut [u8],
    list: &L,
) -> bool
    requires words { PassAsks g.now lead bins.old }
    requires room { (lead.k - lead.ahead ≤ ROOM) × (ROOM ≤ 64) }
    requires residues { (0 < RESIDUES) × (RESIDUES ≤ 256) }
    requires long { L.has_length list.now g.now.n ≡ true }
    ensures { result ≡ sound g.now (L.items list.now) }
{
    // A copy, so that a compiler need not read anew where the list lies at each turn.
    let list = *list;
    // "All other held tickets number k, less d if d is positive."
    let number = usize::from(u16::from(lead.k) - lead.ahead);
    // The slots that have been met. The free row of a long list is noted first, so that a wrong row is answered before the list is read; that of a
    // short list last, so that a record which breaks a clause by itself is answered before.
    let mut slots = Slots::none(lead.k);
    let row = &g.free[..usize::from(places_used(&g.free))];
    let early = if g.n > SHORT_LIST { row.len() } else { 0 };
    if !slots.note_row(&row[..early]) {
        return false;
    }
    // The other held tickets met so far.
    let mut others = Others::<ROOM, RESIDUES>::new();
    // A list is read by its places: an iterator over it would be a type with this counter inside.
    for i in 0..usize::from(g.n) {
        let record = list.record(i);
        let Some(class) = class_of_record(record, lead) else {
            return false;
        };
        // The slot is noted in each arm: where the class tells that the plugin is not inside, a compiler then leaves out that test.
        match class {
            Class::Idle => {
                if !slots.note_of(record) {
                    return false;
                }
            }
            Class::Place(j) => {
                if !slots.note_of(record) {
                    return false;
                }
                // "No two records hold one ticket": of the places after VALID.
                let at = IDLE_BIN + usize::from(j);
                if bins[at] != 0 {
                    return false;
                }
                bins[at] = 1;
            }
            Class::Other => {
                if !slots.note_of(record) {
                    return false;
                }
                if others.len() == number {
                    return false;
                }
                // "No two records hold one ticket": of the others.
                if !others.insert(record.ticket()) {
                    return false;
                }
                bins[usize::from(record.colour.0)] += 1;
            }
        }
    }
    if others.len() != number {
        return false;
    }
    // "If d is negative, each of the −d places after VALID up to ISSUE is held."
    if !each_one(&bins[IDLE_BIN + 1..][..usize::from(lead.behind)]) {
        return false;
    }
    // What is left of the counts without their spare places is what the bins have.
    let Some(left) = subtract_spare(g.counts, lead) else {
        return false;
    };
    if !equal_bins(&left, bins) {
        return false;
    }
    // What is left of the free row.
    if !slots.note_row(&row[early..]) {
        return false;
    }
    if !slots.all_met() {
        return false;
    }
    // "If d is 0 or less, VALID's own ticket is held."
    lead.ahead != 0 || others.contains(lead.valid)
}
