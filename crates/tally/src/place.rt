// The places after a word: how far a value lies after another, and which colour a place has. No list of places is built.
ghost use Rattle.std.specs.Prelude.{◌≡◌};
ghost use Rattle.ranges.specs.Lead.{Apart};
ghost use Rattle.tally.specs.Places.{place_colour, places_after};

use model::{Colour, Ticket, Value};

// How many places the value `to` lies after the value `from`, in a block of m places: it wraps where `to` is not the larger.
#[tactic(auto, unfolding(crate::specs::Places::places_after))]
pub fn places_after(m: u16, from: Value, to: Value) -> u16
    requires { Apart m from.0 to.0 }
    ensures { result ≡ places_after m from.0 to.0 }
{
    if from < to {
        to.0 - from.0
    } else {
        to.0 + m - from.0
    }
}

// The colour of the place that has the value v, among fewer than M places after u: u's own in u's block, and then c.
#[tactic(auto, unfolding(crate::specs::Places::place_colour))]
pub fn place_colour(v: Value, u: Ticket, c: Colour) -> Colour
    ensures { result.0 ≡ place_colour v.0 u c.0 }
{
    if u.value < v { u.colour } else { c }
}
