// One line of a schedule: performed on the host's gate and list, and printed.
ghost use Rattle.std.specs.Prelude.{◌+◌, ◌≤◌};
ghost use Rattle.arrayvec.specs.ArrayVec.{array_vec_len};
ghost use Rattle.driver.specs.Playing.{turn};
ghost use Rattle.driver.specs.Store.{Turned, host_of, line_room};

use crate::host::Host;
use answers::number_of;
use arrayvec::ArrayVec;
use model::Line;
use transcript::{CallLine, OpenLine, put};

// "An open prints `O N k` and its number." "Each call gives a line: letter, plugin, number, answer, ISSUE, VALID".
#[tactic(auto, unfolding(crate::specs::Playing::turn))]
pub fn perform_line<const N: usize>(line: Line, host: &mut Host, out: &mut ArrayVec<u8, N>)
    requires { array_vec_len out.old + line_room ≤ N }
    ensures { Turned (turn line (host_of host.old)) out.old.items out.new.items (host_of host.new) }
{
    match line {
        Line::Open(n, k) => {
            let number = number_of(host.open(n, k));
            put(out, OpenLine { n, k, number });
        }
        Line::Plugin(call, plugin) => {
            let answer = host.call(call, plugin);
            put(
                out,
                CallLine {
                    call,
                    plugin,
                    answer,
                    issue: host.gate.issue,
                    valid: host.gate.valid,
                },
            );
        }
    }
}
