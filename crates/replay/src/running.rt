// The calls, one after the other.
ghost use Rattle.std.specs.Prelude.{◌≡◌, length, true};
ghost use Rattle.model.specs.Letters.{is_letter, steps_of};
ghost use Rattle.model.specs.Lists.{all};
ghost use Rattle.lists.specs.Columns.{SameColumns, lent_in};
ghost use Rattle.results.specs.Results.{has_room};
ghost use Rattle.results.specs.Slices.{SameSlices, lists_of};
ghost use Rattle.replay.specs.Running.{Runs};

use answers::Shown;
use gate::perform;
use lists::ColumnsMut;
use model::{Call, Gate};
use results::ResultSlices;

// Runs the calls on a gate and a list, each on what the one before left, and writes the result of each. The words that the last call
// leaves are returned.
#[tactic(auto, using(crate::proofs::RunLaws::call_at, crate::proofs::RunLaws::room_next, crate::proofs::RunLaws::run_starts, results::proofs::RoomLaws::room_use))]
pub fn run_calls(
    g: Gate,
    calls: &[u8],
    plugins: &[u64],
    list: &mut ColumnsMut,
    results: &mut ResultSlices,
) -> Gate
    requires named { all is_letter calls.now ≡ true }
    requires room { has_room (length calls.now) plugins.now (lists_of results.old) ≡ true }
    ensures runs { let blank = lists_of results.old in
        let written = lists_of results.new in
        Runs g (lent_in list.old) (steps_of calls.now plugins.now) blank result (lent_in list.new) written }
    ensures same_columns { SameColumns list.old list.new }
    ensures same_slices { SameSlices results.old results.new }
{
    let mut words = g;
    for (i, (&letter, &p)) in calls.iter().zip(plugins).enumerate() {
        let call = Call::try_from(letter).unwrap();
        let answer = perform(call, &mut words, list, p);
        results.write(i, Shown::from(answer));
    }
    words
}
