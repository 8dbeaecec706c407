// One line of the grammar: `O N k`, or a letter, one space and a plugin number, then a line feed.
ghost use Rattle.schedule.specs.Reading.{call_read, ended, line_read, open_read};
ghost use Rattle.schedule.specs.Rest.{Reads};

use crate::field::read_field;
use model::{Call, Line};

// The line that was read before a text, if a line feed ends it, and the rest of the text.
#[tactic(auto, unfolding(crate::specs::Reading::ended))]
fn ended(line: Line, text: &[u8]) -> Option<(Line, &[u8])>
    ensures { Reads (ended line text.now) text.entry result }
{
    let [b'\n', rest @ ..] = text else {
        return None;
    };
    Some((line, rest))
}

// A call's line, after its letter.
#[tactic(auto, unfolding(crate::specs::Reading::call_read))]
fn read_call(call: Call, text: &[u8]) -> Option<(Line, &[u8])>
    ensures { Reads (call_read call text.now) text.entry result }
{
    let (plugin, rest) = read_field(text)?;
    ended(Line::Plugin(call, plugin), rest)
}

// An open's line, after its letter.
#[tactic(auto, unfolding(crate::specs::Reading::open_read))]
fn read_open(text: &[u8]) -> Option<(Line, &[u8])>
    ensures { Reads (open_read text.now) text.entry result }
{
    let (n, rest) = read_field(text)?;
    let (k, rest) = read_field(rest)?;
    ended(Line::Open(n, k), rest)
}

// The line that a part begins with, and the rest of the part. The first byte decides which call is read, and what follows.
#[tactic(auto, using(crate::proofs::LineLaws::line_call, crate::proofs::LineLaws::line_open, crate::proofs::LineLaws::line_past, crate::proofs::LineLaws::line_none))]
pub fn read_line(part: &[u8]) -> Option<(Line, &[u8])>
    ensures { Reads (line_read part.now) part.entry result }
{
    let [letter, rest @ ..] = part else {
        return None;
    };
    match letter {
        b'O' => read_open(rest),
        letter => read_call(Call::try_from(*letter).ok()?, rest),
    }
}
