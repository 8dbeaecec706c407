// The host's gate words and its list, which has room for the largest one.
ghost use Rattle.std.specs.Prelude.{◌≡◌, ◌≤◌, false, length, true};
ghost use Rattle.driver.specs.Playing.{after_call, after_open};
ghost use Rattle.driver.specs.Store.{Did, host_of, in_range};

use arrayvec::ArrayVec;
use model::{
    Call, Colour, Gate, MOST_PLUGINS, Record, Refusal, Slot, SlotAnswer, Value, YEAR_1989,
    sizes_in_range,
};

// The most records that a list has, as many as the largest gate has plugins. The cast widens: a constant can't call `usize::from`.
const MOST: usize = MOST_PLUGINS as usize;

// The default is the host that "starts with all words 0 and an empty list".
#[derive(Default, Drop)]
pub struct Host {
    pub gate: Gate,
    pub list: ArrayVec<Record, MOST>,
}

// Gives a list n records, those that come to it idle, where N and k are in range.
fn resize(list: &mut ArrayVec<Record, MOST>, n: u16, k: u16)
    ensures within { in_range n k ≡ true → length list.new.items ≡ n }
    ensures beyond { in_range n k ≡ false → list.new.items ≡ list.old.items }
{
    if sizes_in_range(u64::from(n), u64::from(k)) {
        set_size(list, usize::from(n));
    }
}

// Idle records, as many as a list has at most.
const IDLE: [Record; MOST] = [Record {
    region: 0,
    mark: 0,
    value: Value(0),
    colour: Colour(0),
    slot: Slot(0),
}; MOST];

// Gives a list so many records: those that come to it are idle, and are copied all at once.
fn set_size(list: &mut ArrayVec<Record, MOST>, size: usize)
    requires { size ≤ 1024 }
    ensures { length list.new.items ≡ size }
{
    list.truncate(size);
    let missing = size - list.len();
    let _ = list.try_extend_from_slice(&IDLE[..missing]);
}

impl Host {
    // A call of plugin p on the host's gate and list.
    #[tactic(auto, unfolding(crate::specs::Playing::after_call))]
    pub fn call(&mut self, call: Call, p: u16) -> Result<SlotAnswer, Refusal>
        ensures { Did (after_call call p (host_of self.old)) (host_of self.new) result }
    {
        let list = self.list.as_mut_slice();
        records::perform(call, &mut self.gate, list, u64::from(p))
    }

    // An open of n plugins and k slots, by the algorithm of 1989, which is lent the host's own list: of n records where N and k are in range, since it is
    // then accepted and sets them all idle; else as it is, since whatever list it is lent is left then.
    // "a refused open leaves the gate and list it had".
    pub fn open(&mut self, n: u16, k: u16) -> Result<SlotAnswer, Refusal>
        ensures { Did (after_open n k (host_of self.old)) (host_of self.new) result }
    {
        resize(&mut self.list, n, k);
        let reply = records::open(
            u64::from(YEAR_1989),
            u64::from(n),
            u64::from(k),
            self.list.as_mut_slice(),
        )?;
        Ok(reply.leave_in(&mut self.gate))
    }
}
