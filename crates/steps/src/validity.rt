// What VALID says of a ticket: which rule decides whether it is valid, its distance from VALID, and the returns until it is valid.
ghost use Rattle.std.specs.Prelude.{◌≡◌, ◌<◌};
ghost use Rattle.model.specs.Steps.{InBlock, block_of, is_valid, distance, returns};
ghost use Rattle.model.specs.Rules.{rule_of, rule_says};

use crate::block::block_size;
use crate::colour::count;
use model::{Gate, Rule, Ticket};

// The validity test, with the rule that applies: if the ticket has VALID's colour, whether its value is above VALID's, with both values; else
// whether its colour is counted, with its count.
#[tactic(auto, unfolding(model::specs::Rules::rule_of))]
pub fn rule_of(g: &Gate, t: Ticket) -> Rule
    ensures { result ≡ rule_of g.now t }
{
    let Ticket { value, colour } = t;
    let last = g.valid.value;
    if colour == g.valid.colour {
        if value <= last {
            Rule::NotAbove(value, last)
        } else {
            Rule::Above(value, last)
        }
    } else {
        let counted = count(g, colour);
        if counted > 0 {
            Rule::Counted(colour, counted)
        } else {
            Rule::NotCounted(colour, counted)
        }
    }
}

// Whether a rule says yes.
pub fn says_yes(rule: Rule) -> bool
    ensures { result ≡ rule_says rule }
{
    matches!(rule, Rule::NotAbove(..) | Rule::Counted(..))
}

// Whether a ticket is valid: the rule that applies says so.
#[tactic(auto, unfolding(model::specs::Steps::is_valid, model::specs::Rules::rule_of))]
pub fn is_valid(g: &Gate, t: Ticket) -> bool
    ensures { result ≡ is_valid g.now t }
{
    says_yes(rule_of(g, t))
}

// The distance of a ticket from VALID, where both values are of the block: from VALID's value up to the ticket's, by the block's end if the
// ticket's is the smaller. It is the remainder of the ticket's value + M − VALID's value by M, so that it fits in 16 bits.
#[tactic(auto, using(crate::proofs::Laws::block_fits, crate::proofs::Laws::distance_up, crate::proofs::Laws::distance_round, crate::proofs::Laws::distance_fits))]
pub fn distance(g: &Gate, t: Ticket) -> u32
    requires { InBlock (block_of g.now) t × InBlock (block_of g.now) g.now.valid }
    ensures is { result ≡ distance g.now t }
    ensures fits { result < 65536 }
{
    let value = u32::from(t.value.0);
    let from = u32::from(g.valid.value.0);
    if value < from {
        let size = block_size(g.year, g.n, g.k);
        value + size - from
    } else {
        value - from
    }
}

// The returns until a ticket is valid: 0 if it is, else its distance.
#[tactic(auto, unfolding(model::specs::Steps::returns_in))]
pub fn returns_until_valid(g: &Gate, t: Ticket) -> u16
    requires { InBlock (block_of g.now) t × InBlock (block_of g.now) g.now.valid }
    ensures { result ≡ returns g.now t }
{
    let d = distance(g, t) as u16;
    if is_valid(g, t) { 0 } else { d }
}
