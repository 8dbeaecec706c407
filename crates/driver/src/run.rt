// A whole schedule, from its bytes to the bytes of its transcript.
ghost use Rattle.std.specs.Prelude.{◌≡◌, ◌+◌, ◌*◌, ◌≤◌, [], length};
ghost use Rattle.driver.specs.Playing.{first_host, played, transcript};
ghost use Rattle.driver.specs.Store.{line_room};

use crate::host::Host;
use crate::turn::perform_line;
use arrayvec::ArrayVec;
use model::NotALine;
use schedule::next_call;
use transcript::put_word;

// The longest schedule, 64 KiB.
pub const MOST_INPUT: usize = 65536;

// The longest transcript: a line of at least 4 bytes prints at most 50, which is less than 13 for each byte, and a bad line is the last.
pub const MOST_PRINTED: usize = 13 * MOST_INPUT + 50;

// Every line of a schedule in turn, as far as its end or the first bad line, which prints `bad`. It asks for room for the transcript.
fn play<const N: usize>(schedule: &[u8], out: &mut ArrayVec<u8, N>)
    requires empty { out.old.items ≡ [] }
    requires room { 13 * length schedule.now + line_room ≤ N }
    ensures { out.new.items ≡ played first_host schedule.now }
{
    let mut host = Host::default();
    let mut part = schedule;
    // How many lines there are is known only when they are read.
    loop {
        let next = next_call(part);
        match next.answer {
            Ok(None) => return,
            Ok(Some(line)) => {
                perform_line(line, &mut host, out);
                part = next.rest;
            }
            Err(NotALine) => {
                put_word(out, b"bad");
                return;
            }
        }
    }
}

// What gaterun prints for an input: its transcript, or only `long` if it is longer than 64 KiB. What the buffer held before is not kept.
#[tactic(auto, using(crate::proofs::PlayLaws::prints_long, crate::proofs::PlayLaws::prints_played))]
pub fn print_run(input: &[u8], out: &mut ArrayVec<u8, MOST_PRINTED>)
    ensures { out.new.items ≡ transcript input.now }
{
    out.clear();
    if input.len() > MOST_INPUT {
        put_word(out, b"long");
        return;
    }
    play(input, out);
}
