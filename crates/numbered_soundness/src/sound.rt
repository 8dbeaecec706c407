// The whole check, sentence by sentence.
ghost use Rattle.std.specs.Prelude.{◌≡◌, true};
ghost use Rattle.numbered.specs.Slices.{numbered_length_is};
ghost use Rattle.numbered.specs.Sound.{sound_numbered};
ghost use Rattle.numbered_soundness.specs.Columns.{numbered_in, records_in};

use crate::clauses::{Lent, lead_within_bounds};
use crate::columns::NumberedColumns;
use model::sizes_in_range;
use numbered::NumberedGate;

// Whether the words and the list are sound, by every sentence of A.9. The caller lends a list of N records; nothing else is asked of the words or the list.
// It is not inlined: among what its callers keep, the loops over the list had no register for all that they read.
#[inline(never)]
#[tactic(auto, using(crate::proofs::Verdict::sound_as_tested), unfolding(numbered::specs::Sound::sizes_allowed))]
pub fn is_sound(g: &NumberedGate, list: NumberedColumns) -> bool
    requires { numbered_length_is (numbered_in list) g.now.n ≡ true }
    ensures { result ≡ sound_numbered g.now (records_in list.entry) }
{
    let lent = Lent { gate: g, list };
    sizes_in_range(u64::from(g.n), u64::from(g.k))
        && lead_within_bounds(*g)
        && lent.records_pass()
        && lent.valid_number_k()
        && lent.last_valid_held()
        && lent.later_awaited()
        && lent.held_distinct()
}
