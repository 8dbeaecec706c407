// The whole check: first the words, then the pass over the list.
ghost use Rattle.std.specs.Prelude.{◌≡◌, ◌≤◌, ◌<◌, ◌+◌, ◌-◌, true};
ghost use Rattle.model.specs.Sound.{sound};
ghost use Rattle.soundness.specs.Pass.{IsRead};

use crate::others::{FEW_OTHERS, FEW_RESIDUES, MOST_OTHERS, MOST_RESIDUES};
use crate::pass::list_is_sound;
use lists::{Lending, Plugins};
use model::{Gate, Record};
use ranges::{Lead, lead_in_range, lead_of, words_in_range};
use tally::{FEW_BINS, FEW_PLACES, MOST_BINS};

// The pass with BINS bins. They are made here, so that those of a branch that isn't taken are not cleared.
fn bins_are_sound<
    L: Plugins<Record = Record>,
    const BINS: usize,
    const ROOM: usize,
    const RESIDUES: usize,
>(g: &Gate, lead: Lead, list: &L) -> bool
    requires read { IsRead g.now lead }
    requires bins { (65 + lead.behind < BINS) × (BINS ≤ 1090) }
    requires room { (lead.k - lead.ahead ≤ ROOM) × (ROOM ≤ 64) }
    requires residues { (0 < RESIDUES) × (RESIDUES ≤ 256) }
    requires long { L.has_length list.now g.now.n ≡ true }
    ensures { result ≡ sound g.now (L.items list.now) }
{
    list_is_sound::<L, ROOM, RESIDUES>(g, lead, &mut [0; BINS], list)
}

// Whether the words and the list are sound, by every clause of "A sound gate" and of the slots. The caller lends a list of N records; nothing
// else is asked of the words or the list. Few bins and, with these, a little room for other tickets, where they are enough, are sooner cleared.
#[tactic(auto, using(crate::proofs::Verdict::unsound_lead, crate::proofs::Verdict::unsound_words))]
pub fn is_sound<L: Plugins<Record = Record>>(lent: &Lending<'_, Gate, L>) -> bool
    requires { L.has_length lent.now.list lent.now.gate.now.n ≡ true }
    ensures { result ≡ sound lent.now.gate.now (L.items lent.now.list) }
{
    let Lending { gate: g, list } = lent;
    if !words_in_range(g) {
        return false;
    }
    let lead = lead_of(g);
    if !lead_in_range(g.n, lead) {
        return false;
    }
    if lead.behind > FEW_PLACES {
        return bins_are_sound::<L, MOST_BINS, MOST_OTHERS, MOST_RESIDUES>(g, lead, list);
    }
    // "All other held tickets number k, less d if d is positive."
    if usize::from(u16::from(lead.k) - lead.ahead) > FEW_OTHERS {
        return bins_are_sound::<L, FEW_BINS, MOST_OTHERS, MOST_RESIDUES>(g, lead, list);
    }
    bins_are_sound::<L, FEW_BINS, FEW_OTHERS, FEW_RESIDUES>(g, lead, list)
}
