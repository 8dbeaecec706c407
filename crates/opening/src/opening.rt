// Open: the words of a new gate.
ghost use Rattle.std.specs.Prelude.{◌≡◌, ◌≤◌};
ghost use Rattle.model.specs.Opening.{open_in_range, opening};
ghost use Rattle.model.specs.Steps.{overfull};
ghost use Rattle.opening.specs.Opens.{opens};

use lists::Plugins;
use model::{COLOURS, Colour, Gate, Refusal, Ticket, Value, YEAR_1979, YEAR_1989, sizes_in_range};
use steps::{FreeRow, first_value};

// Whether N, k and the year are in range.
#[tactic(auto, unfolding(model::specs::Opening::open_in_range, model::specs::Steps::is_year))]
fn open_in_range(year: u64, n: u64, k: u64) -> bool
    ensures { result ≡ open_in_range year n k }
{
    let known = year == u64::from(YEAR_1979) || year == u64::from(YEAR_1989);
    sizes_in_range(n, k) && known
}

// Whether the year is 1979 and k is not below N.
#[tactic(auto, unfolding(model::specs::Steps::overfull))]
fn is_overfull(year: u64, n: u64, k: u64) -> bool
    ensures { result ≡ overfull year n k }
{
    year == u64::from(YEAR_1979) && n <= k
}

// The words at opening: ISSUE is the block's first value, VALID k places after it, both of colour 0; the count of colour 0 is k, and slots 1 to
// k are free, in rising order.
fn opening_words(year: u16, n: u16, k: u8) -> Gate
    requires { k ≤ 64 }
    ensures { result ≡ opening year n k }
{
    // In a size no `usize::from` can be called: the cast loses nothing.
    let mut counts = [0; COLOURS as usize];
    counts[0] = k;
    let first = first_value(year);
    let last = first + u16::from(k);
    Gate {
        year,
        n,
        k,
        issue: Ticket {
            value: Value(first),
            colour: Colour(0),
        },
        valid: Ticket {
            value: Value(last),
            colour: Colour(0),
        },
        counts,
        free: FreeRow::rising(k),
    }
}

// The words of a gate of N plugins and k slots by the algorithm of a year, 1979 or 1989, for a list of N records. It is refused as 1 if N is not 1 to
// 1,024, k not 1 to 64 or the year another one, as 10 if the year is 1979 and k is not below N, and as 2 if the list's length is not N.
#[tactic(auto, unfolding(crate::specs::Opens::opens))]
pub fn open<L: Plugins>(year: u64, n: u64, k: u64, list: L) -> Result<Gate, Refusal>
    ensures { result ≡ opens year n k (L.has_length list n) }
{
    if !open_in_range(year, n, k) {
        return Err(Refusal::OutOfRange);
    }
    if is_overfull(year, n, k) {
        return Err(Refusal::TooManySlots);
    }
    // All three are in range, so they fit.
    let plugins = n as u16;
    if !list.has_length(plugins) {
        return Err(Refusal::WrongLength);
    }
    Ok(opening_words(year as u16, plugins, k as u8))
}
