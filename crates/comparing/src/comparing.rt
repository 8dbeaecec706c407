// Alike: whether two gates will answer alike.
ghost use Rattle.std.specs.Prelude.{◌≡◌};
ghost use Rattle.comparing.specs.Boards.{alikes};

use crate::board::same_board;
use lists::{Lending, Plugins};
use model::{Gate, Record, Refusal};
use soundness::is_sound;

// Whether two gates are alike: N and k are equal, each plugin has the same region and stop mark in both, each that holds a ticket the same
// validity, and the tickets not yet valid have the same order. It is refused as 2 if the first list's length is not its word N, then if the
// second's is not; then as 3 if the first gate is not sound, then if the second is not.
#[tactic(auto, using(crate::proofs::AlikeLaws::one_pass), unfolding(model::specs::Alike::alike, model::specs::Board::same_board))]
pub fn alike<L: Plugins<Record = Record>, M: Plugins<Record = Record>>(
    first: Lending<'_, Gate, L>,
    second: Lending<'_, Gate, M>,
) -> Result<bool, Refusal>
    ensures { let g = first.entry.gate.now in
        let h = second.entry.gate.now in
        let list = first.entry.list in
        let other = second.entry.list in
        result ≡ alikes (L.has_length list g.n) g (L.items list) (M.has_length other h.n) h (M.items other) }
{
    let (g, h) = (first.gate, second.gate);
    if !first.list.has_length(g.n) || !second.list.has_length(h.n) {
        return Err(Refusal::WrongLength);
    }
    if !is_sound(&first) || !is_sound(&second) {
        return Err(Refusal::NotSound);
    }
    Ok(g.n == h.n && g.k == h.k && same_board(&first, &second))
}
