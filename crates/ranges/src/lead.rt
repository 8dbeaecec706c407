// The lead: how far VALID is ahead of ISSUE, or behind it, and what else the pass over the list reads of the words.
ghost use Rattle.std.specs.Prelude.{◌≡◌, ◌-◌, true, ◌&&◌, leb};
ghost use Rattle.model.specs.Steps.{val};
ghost use Rattle.model.specs.Sound.{ahead, behind, words_in_range};
ghost use Rattle.ranges.specs.Lead.{Apart, leads_anew, lead_of};

use crate::range::short_block_size;
use model::{Gate, Ticket};
use steps::{first_value, leads};

// What the pass reads of the words: the first value and the size of the block, k, ISSUE and VALID, how many places VALID is ahead of ISSUE and
// how many behind it (one of the two is 0; they are two numbers, since the clauses take each by itself, and none is negative), and whether VALID leads in a colour of its own. Its bounds (`LeadBounds`) are no invariant:
// `lead_in_range` answers for every lead. The block is two numbers: a struct of them would be one more `Block`, beside the one of the definitions.
#[derive(Clone, Copy)]
pub struct Lead {
    pub first: u16,
    pub size: u16,
    pub k: u8,
    pub issue: Ticket,
    pub valid: Ticket,
    pub ahead: u16,
    pub behind: u16,
    pub anew: bool,
}

// How many places VALID (v) is ahead of ISSUE (i), and how many behind it, in blocks of m places.
#[tactic(auto, unfolding(model::specs::Sound::ahead, model::specs::Sound::behind))]
fn places_apart(m: u16, i: Ticket, v: Ticket) -> (u16, u16)
    requires { Apart m (val i) (val v) }
    ensures { (result.0 ≡ ahead m i v) × (result.1 ≡ behind m i v) }
{
    let from = i.value.0;
    let to = v.value.0;
    if i.colour == v.colour {
        (to.saturating_sub(from), from.saturating_sub(to))
    } else if to < from {
        (to + m - from, 0)
    } else {
        (0, from + m - to)
    }
}

// Whether VALID (v) leads ISSUE (i) and their colours differ.
fn leads_anew(i: Ticket, v: Ticket) -> bool
    ensures { result ≡ leads_anew i v }
{
    leads(v, i) && i.colour != v.colour
}

// What the pass reads of words that are in range.
#[tactic(auto, using(crate::proofs::RangeLaws::words_most, crate::proofs::LeadLaws::lead_asks), unfolding(crate::specs::Lead::lead_of))]
pub fn lead_of(g: &Gate) -> Lead
    requires { words_in_range g.now ≡ true }
    ensures { result ≡ lead_of g.now }
{
    let size = short_block_size(g.year, g.n, g.k);
    let (ahead, behind) = places_apart(size, g.issue, g.valid);
    Lead {
        first: first_value(g.year),
        size,
        k: g.k,
        issue: g.issue,
        valid: g.valid,
        ahead,
        behind,
        anew: leads_anew(g.issue, g.valid),
    }
}

// Whether the lead is in range: VALID is at most k places ahead, and at most N − k behind (0 if N is not above k).
pub fn lead_in_range(n: u16, lead: Lead) -> bool
    ensures { result ≡ (leb lead.ahead lead.k && leb lead.behind (n - lead.k)) }
{
    let k = u16::from(lead.k);
    lead.ahead <= k && lead.behind <= n.saturating_sub(k)
}
