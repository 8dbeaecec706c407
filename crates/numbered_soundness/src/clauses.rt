// The sentences of soundness about the words, the records and the held tickets.
ghost use Rattle.std.specs.Prelude.{◌≡◌, suc, ◌-◌, ◌+◌, ◌<◌, ◌&&◌, drop, true};
ghost use Rattle.model.specs.Lists.{all, any, count, numbers_from};
ghost use Rattle.numbered.specs.Slices.{numbered_length_is};
ghost use Rattle.numbered.specs.Sound.{awaits_number, has_ticket, held_distinct, holds_number, last_valid_held, later_awaited, lead_within_bounds, not_above_valid, valid_number_k};
ghost use Rattle.numbered_soundness.specs.Columns.{numbered_in, records_in};
ghost use Rattle.numbered_soundness.specs.Records.{held_last, record_passes};

use crate::columns::NumberedColumns;
use lists::Plugins;
use model::{IDLE, INSIDE, STOPPED, WAITING};
use numbered::{NumberedGate, NumberedRecord};

// Whether VALID is at most k tickets ahead of ISSUE, and at most N less k behind it.
#[tactic(auto, unfolding(numbered::specs::Sound::lead_within_bounds))]
pub fn lead_within_bounds(g: NumberedGate) -> bool
    ensures { result ≡ lead_within_bounds g }
{
    let ahead = g.valid.saturating_sub(g.issue);
    let behind = g.issue.saturating_sub(g.valid);
    ahead <= u64::from(g.k) && behind <= u64::from(g.n.saturating_sub(u16::from(g.k)))
}

// Whether a record's region and mark are in range, its ticket is 0 if it is idle, and not above ISSUE if it is not. By a `match` on the region one test of
// the ticket is made; of an `if` a compiler made both and then chose, and an idle list took half as long again.
#[tactic(auto, unfolding(crate::specs::Records::record_passes))]
fn record_passes(g: NumberedGate, plugin: NumberedRecord) -> bool
    ensures { result ≡ record_passes g plugin }
{
    plugin.mark <= STOPPED
        && match plugin.region {
            IDLE => plugin.ticket == 0,
            WAITING | INSIDE => plugin.ticket <= g.issue,
            _ => false,
        }
}

// Whether a record holds a ticket.
fn holds(plugin: NumberedRecord, ticket: u64) -> bool
    ensures { result ≡ holds_number ticket plugin }
{
    plugin.region != IDLE && plugin.ticket == ticket
}

// Whether it does, and its plugin waits.
fn awaits(plugin: NumberedRecord, ticket: u64) -> bool
    ensures { result ≡ awaits_number ticket plugin }
{
    plugin.region == WAITING && plugin.ticket == ticket
}

// Whether it holds a ticket that is not above VALID.
fn holds_valid(g: NumberedGate, plugin: NumberedRecord) -> bool
    ensures { result ≡ (has_ticket plugin && not_above_valid g plugin.ticket) }
{
    plugin.region != IDLE && plugin.ticket <= g.valid
}

// The words, with a list of N records, of which the other sentences are said. It is no `Lending`, which says nothing of the length. What it counts and seeks
// is a method for each test: one that took the test as a closure would need clauses that say as much as these methods. Those that are asked for each ticket
// read all records, or all after one, with no early return and no branch, so that a compiler can compare many at a time.
#[derive(Clone, Copy)]
pub struct Lent<'a> {
    pub gate: &'a NumberedGate,
    pub list: NumberedColumns<'a>,
    ghost long: { numbered_length_is (numbered_in list) gate.now.n ≡ true },
}

impl Lent<'_> {
    // Whether each record passes the sentences about one.
    pub fn records_pass(&self) -> bool
        ensures { result ≡ all (record_passes self.now.gate.now) (records_in self.now.list) }
    {
        (0..usize::from(self.gate.n)).all(|at| record_passes(*self.gate, self.list.record(at)))
    }

    // Whether a record holds a ticket.
    fn is_held(&self, ticket: u64) -> bool
        ensures { result ≡ any (holds_number ticket) (records_in self.now.list) }
    {
        (0..usize::from(self.gate.n)).any(|at| holds(self.list.record(at), ticket))
    }

    // Whether a waiting plugin's does.
    fn is_awaited(&self, ticket: u64) -> bool
        ensures { result ≡ any (awaits_number ticket) (records_in self.now.list) }
    {
        (0..usize::from(self.gate.n)).fold(false, |found, at| {
            found | awaits(self.list.record(at), ticket)
        })
    }

    // How many of the records from a place on hold a ticket.
    fn count_held(&self, from: usize, ticket: u64) -> usize
        ensures { result ≡ count (holds_number ticket) (drop from (records_in self.now.list)) }
    {
        (from..usize::from(self.gate.n))
            .map(|at| usize::from(holds(self.list.record(at), ticket)))
            .sum()
    }

    // Whether a record's ticket, if it holds one, is held by none after it.
    #[tactic(auto, unfolding(crate::specs::Records::held_last))]
    fn is_held_last(&self, at: usize) -> bool
        requires { at < self.now.gate.now.n }
        ensures { result ≡ held_last (records_in self.now.list) at }
    {
        let plugin = self.list.record(at);
        plugin.region == IDLE || self.count_held(at, plugin.ticket) <= 1
    }

    // Whether the held tickets are distinct.
    pub fn held_distinct(&self) -> bool
        ensures { result ≡ held_distinct (records_in self.now.list) }
    {
        (0..usize::from(self.gate.n)).all(|at| self.is_held_last(at))
    }

    // Whether every ticket after one up to another is held by a waiting plugin.
    fn all_awaited(&self, after: u64, last: u64) -> bool
        ensures { result ≡ all (λ t. any (awaits_number t) (records_in self.now.list)) (numbers_from (suc after) (last - after)) }
    {
        (after..last).all(|before| self.is_awaited(before + 1))
    }

    // Whether every ticket after VALID up to ISSUE is.
    #[tactic(auto, unfolding(numbered::specs::Sound::later_awaited))]
    pub fn later_awaited(&self) -> bool
        ensures { result ≡ later_awaited self.now.gate.now (records_in self.now.list) }
    {
        self.all_awaited(self.gate.valid, self.gate.issue)
    }

    // How many tickets not above VALID are held.
    fn count_valid(&self) -> usize
        ensures { result ≡ count (λ r. has_ticket r && not_above_valid self.now.gate.now r.ticket) (records_in self.now.list) }
    {
        (0..usize::from(self.gate.n))
            .map(|at| usize::from(holds_valid(*self.gate, self.list.record(at))))
            .sum()
    }

    // Whether k tickets not above VALID are held or unissued.
    #[tactic(auto, unfolding(numbered::specs::Sound::valid_number_k))]
    pub fn valid_number_k(&self) -> bool
        ensures { result ≡ valid_number_k self.now.gate.now (records_in self.now.list) }
    {
        let unissued = self.gate.valid.saturating_sub(self.gate.issue);
        let k = u64::from(self.gate.k);
        // The cast widens: std has no From of a usize for it.
        unissued <= k && self.count_valid() as u64 == k - unissued
    }

    // Whether ticket VALID is held, if VALID is not above ISSUE.
    #[tactic(auto, unfolding(numbered::specs::Sound::last_valid_held))]
    pub fn last_valid_held(&self) -> bool
        ensures { result ≡ last_valid_held self.now.gate.now (records_in self.now.list) }
    {
        self.gate.valid > self.gate.issue || self.is_held(self.gate.valid)
    }
}
