// Open: the words and the list of a new numbered gate.
ghost use Rattle.numbered.specs.Calls.{no_numbered_gate};
ghost use Rattle.numbered.specs.Slices.{open_numbered_lent};
ghost use Rattle.numbered_gate.specs.Decides.{Returns};
ghost use Rattle.numbered_soundness.specs.Columns.{SameColumns, numbered_lent_in};

use lists::Plugins;
use model::{Answer, Refusal, Reply, sizes_in_range};
use numbered::{NumberedGate, NumberedReply};
use numbered_soundness::NumberedColumnsMut;

// Opens a gate of N plugins and k slots over a list of N records, all of which it sets idle and unmarked: ISSUE is 0 and VALID k. It is refused
// as 1 if N is not 1 to 1,024 or k not 1 to 64, and as 2 if the list's length is not N; a refusal leaves the list, and gives no words.
#[tactic(auto, using(numbered::proofs::IsSoundNumbered::sizes_use, numbered::proofs::SliceLaws::all_long, crate::proofs::OpenLaws::idle_lent), unfolding(numbered::specs::Slices::open_numbered_lent, numbered::specs::Sound::sizes_allowed))]
pub fn open(n: u64, k: u64, list: &mut NumberedColumnsMut) -> Result<NumberedReply, Refusal>
    ensures meets { Returns (open_numbered_lent n k (numbered_lent_in list.old)) no_numbered_gate result (numbered_lent_in list.new) }
    ensures same { SameColumns list.old list.new }
{
    if !sizes_in_range(n, k) {
        return Err(Refusal::OutOfRange);
    }
    // Both are in range, so they fit.
    let plugins = n as u16;
    let slots = k as u8;
    if !list.read().has_length(plugins) {
        return Err(Refusal::WrongLength);
    }
    list.clear();
    Ok(Reply {
        gate: NumberedGate {
            n: plugins,
            k: slots,
            issue: 0,
            valid: k,
        },
        answer: Answer::Done,
    })
}
