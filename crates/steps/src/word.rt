// The gate's two words, ISSUE and VALID: which leads, and how one moves.
ghost use Rattle.std.specs.Prelude.{◌≡◌};
ghost use Rattle.model.specs.Steps.{leads, block_of, moved};

use crate::block::{block_size, first_value};
use crate::colour::new_colour;
use model::{Gate, Ticket, Value};

// A leads B: with equal colours, when A's value is at least B's; with different colours, when A's value is below B's.
#[tactic(auto, unfolding(model::specs::Steps::leads))]
pub fn leads(a: Ticket, b: Ticket) -> bool
    ensures { result ≡ leads a b }
{
    if a.colour == b.colour {
        a.value >= b.value
    } else {
        a.value < b.value
    }
}

// Where the word `a` moves, `other` being the other word: a take moves ISSUE, a leave moves VALID. Inside its block its value goes
// up by 1. From the block's last value it goes to the first, with a new colour if it leads, else with the other word's colour.
#[tactic(auto, using(crate::proofs::Laws::block_fits, crate::proofs::Laws::block_some), unfolding(model::specs::Steps::moved))]
pub fn moved(g: &Gate, a: Ticket, other: Ticket) -> Ticket
    ensures { result ≡ moved (block_of g.now) g.now a other }
{
    let first = first_value(g.year);
    let last = u32::from(first) + block_size(g.year, g.n, g.k) - 1;
    if u32::from(a.value.0) < last {
        return Ticket {
            value: Value(a.value.0 + 1),
            ..a
        };
    }
    let colour = if leads(a, other) {
        new_colour(g, a.colour)
    } else {
        other.colour
    };
    Ticket {
        value: Value(first),
        colour,
    }
}
