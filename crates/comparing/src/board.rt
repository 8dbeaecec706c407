// Two boards compared: where each plugin stands, that is its region, its stop mark and the returns until its ticket is valid. Slots are not
// compared.
ghost use Rattle.std.specs.Prelude.{◌≡◌, true};
ghost use Rattle.comparing.specs.Boards.{Readable, same_first};
ghost use Rattle.model.specs.Board.{same_standing};
ghost use Rattle.model.specs.Sound.{sound};
ghost use Rattle.model.specs.Steps.{block_of};

use lists::{Lending, Plugins};
use model::{Gate, IDLE, Record};
use steps::returns_until_valid;

// Whether a plugin stands in both gates alike, by its record r in the gate g and s in h. An idle one waits for no return.
#[tactic(auto, unfolding(model::specs::Board::same_standing))]
fn same_standing(g: &Gate, r: Record, h: &Gate, s: Record) -> bool
    requires { Readable g.now r × Readable h.now s }
    ensures { result ≡ same_standing (block_of g.now) g.now r (block_of h.now) h.now s }
{
    r.region == s.region
        && r.mark == s.mark
        && (r.region == IDLE
            || returns_until_valid(g, r.ticket()) == returns_until_valid(h, s.ticket()))
}

// Whether each of the first N plugins stands in both gates alike: one pass over the two lists, which looks at no two plugins together.
#[tactic(auto, using(crate::proofs::BoardLaws::below_next), unfolding(model::specs::Lists::all_below))]
pub fn same_board<L: Plugins<Record = Record>, M: Plugins<Record = Record>>(
    first: &Lending<'_, Gate, L>,
    second: &Lending<'_, Gate, M>,
) -> bool
    requires first_long { L.has_length first.now.list first.now.gate.now.n ≡ true }
    requires second_long { M.has_length second.now.list first.now.gate.now.n ≡ true }
    requires first_sound { sound first.now.gate.now (L.items first.now.list) ≡ true }
    requires second_sound { sound second.now.gate.now (M.items second.now.list) ≡ true }
    ensures { result ≡ same_first first.now.gate.now.n first.now.gate.now (L.items first.now.list) second.now.gate.now (M.items second.now.list) }
{
    // No `all`: its closure does not learn what is known here, that both lists have N records and are sound, and would have to require all
    // four again.
    for i in 0..usize::from(first.gate.n) {
        let (r, s) = (first.list.record(i), second.list.record(i));
        if !same_standing(first.gate, r, second.gate, s) {
            return false;
        }
    }
    true
}
