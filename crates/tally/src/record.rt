// One record by itself: whether it breaks a clause that speaks of single records, and if not, in which bin it is counted.
ghost use Rattle.std.specs.Prelude.{◌≡◌};
ghost use Rattle.ranges.specs.Lead.{LeadBounds};
ghost use Rattle.tally.specs.Bins.{HasClass, top_value};

use crate::place::{place_colour, places_after};
use model::{Colour, IDLE, INSIDE, Record, STOPPED, Ticket, WAITING};
use ranges::Lead;

// The highest value that a held ticket of a colour may have, in blocks whose last value is `last`: "A held ticket of ISSUE's colour has a value
// not above ISSUE's."
#[tactic(auto, unfolding(crate::specs::Bins::top_value))]
fn top_value(colour: Colour, issue: Ticket, last: u16) -> u16
    ensures { result ≡ top_value colour.0 issue last }
{
    if colour == issue.colour {
        issue.value.0
    } else {
        last
    }
}

// What a record is that breaks no clause by itself: it is idle; it holds a place after VALID, the j-th; or it holds another ticket.
#[derive(Clone, Copy, Debug, PartialEq, Eq)]
pub enum Class {
    Idle,
    Place(u16),
    Other,
}

// What a record is, whatever its slot; nothing if it breaks a clause by itself. A place after VALID is found before what it does not need is
// tested: most tickets of a full gate are such places.
#[tactic(auto, using(crate::proofs::BinLaws::mark_high, crate::proofs::BinLaws::below_first, crate::proofs::BinLaws::above_top, crate::proofs::BinLaws::region_high, crate::proofs::BinLaws::colour_high))]
pub fn class_of_record(record: Record, lead: Lead) -> Option<Class>
    requires { LeadBounds lead }
    ensures { HasClass lead «record» result }
{
    if record.mark > STOPPED {
        return None;
    }
    if record.region == IDLE {
        if record.ticket() != Ticket::default() {
            return None;
        }
        return Some(Class::Idle);
    }
    let last = lead.first + lead.size - 1;
    if record.value.0 < lead.first || record.value.0 > top_value(record.colour, lead.issue, last) {
        return None;
    }
    let j = places_after(lead.size, lead.valid.value, record.value);
    if j <= lead.behind
        && record.colour == place_colour(record.value, lead.valid, lead.issue.colour)
    {
        // "No plugin inside holds one of those places after VALID."
        if record.region != WAITING {
            return None;
        }
        return Some(Class::Place(j));
    }
    if record.region > INSIDE || record.colour.0 > lead.k {
        return None;
    }
    // "If VALID leads and the colours differ, no held ticket has VALID's colour."
    if lead.anew && record.colour == lead.valid.colour {
        return None;
    }
    Some(Class::Other)
}
