// Colours: the count of one, the one after it, whether one is free, and the new colour of a word that goes on to a new block.
ghost use Rattle.std.specs.Prelude.{◌≡◌, get_or};
ghost use Rattle.model.specs.Steps.{next_colour, free_colour, new_colour};

use model::{Colour, Gate};

// The count of a colour: 0 for a colour above 64, which has none.
pub fn count(g: &Gate, c: Colour) -> u8
    ensures { result ≡ get_or g.now.counts c.0 0 }
{
    g.counts.get(usize::from(c.0)).copied().unwrap_or(0)
}

// The colour after c: upward, and from k on to 0.
#[tactic(auto, unfolding(model::specs::Steps::next_colour))]
pub fn next_colour(k: u8, c: Colour) -> Colour
    ensures { result.0 ≡ next_colour k c.0 }
{
    if c.0 < k { Colour(c.0 + 1) } else { Colour(0) }
}

// Whether a word may get this colour anew: it is neither ISSUE's nor VALID's, and its count is 0.
#[tactic(auto, unfolding(model::specs::Steps::free_colour))]
pub fn is_free(g: &Gate, c: Colour) -> bool
    ensures { result ≡ free_colour g.now c.0 }
{
    c != g.issue.colour && c != g.valid.colour && count(g, c) == 0
}

// The new colour of a word of the colour c: the first that is free, going upward from c. The k other colours are looked at; where
// none of them is free, the answer is the last.
#[tactic(auto, using(crate::proofs::Laws::scan_next), unfolding(model::specs::Steps::scan, model::specs::Steps::new_colour))]
pub fn new_colour(g: &Gate, c: Colour) -> Colour
    ensures { result.0 ≡ new_colour g.now c.0 }
{
    let mut at = c;
    for _ in 0..g.k {
        at = next_colour(g.k, at);
        if is_free(g, at) {
            return at;
        }
    }
    at
}
