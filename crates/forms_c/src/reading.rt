// Next call, exported.
ghost use Rattle.model.specs.Schedule.{next_call};
ghost use Rattle.forms_c.specs.Numbers.{Noted};

use crate::numbers::note;

// What a part of a schedule begins with, as schedule::next_call has it: `line` gets the answer as numbers (0 end, 1 open, 2 a call, 3 no
// line; the call's letter; an open's N and k, or a call's plugin), and the length of the rest is returned.
#[unsafe(no_mangle)]
pub extern "C" fn slot_gate_next_line(part: &[u8], line: &mut [u64; 4]) -> usize
    ensures { Noted (next_call part.now).answer (next_call part.now).rest result line.new }
{
    let next = schedule::next_call(part);
    note(next.answer, next.rest, line)
}
