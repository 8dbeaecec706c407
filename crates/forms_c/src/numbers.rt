// What next call hands over as numbers: a line of a schedule, with the length of the rest.
ghost use Rattle.std.specs.Prelude.{◌≡◌};
ghost use Rattle.forms_c.specs.Numbers.{Noted, line_numbers};

use model::{Line, NotALine};

// The kinds of a line. C reads a kind as a number.
enum Kind {
    End,
    Open,
    Plugin,
    Bad,
}

// What next call answers as numbers: its kind, its letter, and its two arguments, each 0 where there is none.
fn numbers_of(answer: Result<Option<Line>, NotALine>) -> [u64; 4]
    ensures { result ≡ line_numbers answer }
{
    match answer {
        Ok(None) => [Kind::End as u64, 0, 0, 0],
        Ok(Some(Line::Open(n, k))) => [Kind::Open as u64, 0, u64::from(n), u64::from(k)],
        Ok(Some(Line::Plugin(call, p))) => [
            Kind::Plugin as u64,
            u64::from(u8::from(call)),
            u64::from(p),
            0,
        ],
        Err(NotALine) => [Kind::Bad as u64, 0, 0, 0],
    }
}

// The length of the rest; `line` gets the answer as numbers.
pub fn note(answer: Result<Option<Line>, NotALine>, rest: &[u8], line: &mut [u64; 4]) -> usize
    ensures { Noted answer rest.now result line.new }
{
    *line = numbers_of(answer);
    rest.len()
}
