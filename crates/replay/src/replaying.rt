// The replay: checks, the open, the calls.
ghost use Rattle.lists.specs.Columns.{SameColumns, lent_in};
ghost use Rattle.replay.specs.Replay.{Replays};
ghost use Rattle.results.specs.Slices.{SameSlices, lists_of};

use crate::not_replayed::NotReplayed;
use crate::running::run_calls;
use gate::open;
use letters::all_letters;
use lists::ColumnsMut;
use model::Gate;
use results::ResultSlices;

// Opens a gate of n plugins and k slots by the algorithm of a year over the list that is lent, and runs the calls on it: for
// each a letter of `calls` and a plugin number of `plugins`, which are two slices since C passes them so. For call i it writes the number, yes as 1 or no as 0, the place, the ticket's
// value and colour, the slot that a yes gave, and the number of a look's rule and what the rule compared, at i of the nine slices; what an
// answer does not have is 0. What it so writes and leaves is what the plain queue gives for the same open and calls, the slots are those of
// the slot rule, and the tickets and rules are what the gate's steps prescribe. Unless there is room for every result, every letter names
// a call and the open is accepted, nothing is written. Else the words that the last call left are returned.
#[tactic(auto, using(crate::proofs::ReplayLaws::too_short, crate::proofs::ReplayLaws::no_such_call, crate::proofs::ReplayLaws::refused, crate::proofs::ReplayLaws::ran))]
pub fn replay(
    year: u64,
    n: u64,
    k: u64,
    calls: &[u8],
    plugins: &[u64],
    list: &mut ColumnsMut,
    results: &mut ResultSlices,
) -> Result<Gate, NotReplayed>
    ensures replays { let blank = lists_of results.old in
        let written = lists_of results.new in
        Replays year n k calls.now plugins.now (lent_in list.old) blank result (lent_in list.new) written }
    ensures same_columns { SameColumns list.old list.new }
    ensures same_slices { SameSlices results.old results.new }
{
    if !results.has_room(calls, plugins) {
        return Err(NotReplayed::TooShort);
    }
    if !all_letters(calls) {
        return Err(NotReplayed::NoSuchCall);
    }
    let opened = open(year, n, k, list)?;
    Ok(run_calls(opened.gate, calls, plugins, list, results))
}
