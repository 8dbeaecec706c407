// The clauses on ranges, of the words: "N, k, values, colours, slots .. are in range", and the year is one that words may have. That "counts above
// colour k are 0" follows from these and from the clause on counts, which is tested of all 65 (the crate `tally`).
ghost use Rattle.std.specs.Prelude.{◌≡◌, ◌≤◌};
ghost use Rattle.model.specs.Steps.{year_block};
ghost use Rattle.model.specs.Sound.{ticket_in_range, words_in_range, year_in_range};
ghost use Rattle.ranges.specs.Range.{block_from};

use model::{Gate, Ticket, YEAR_1979, YEAR_1989, sizes_in_range};
use steps::{block_size, first_value};

// The block size of a gate whose N and k are in range: at most 1,025, so that a u16 holds it.
#[tactic(auto, using(crate::proofs::RangeLaws::size_most))]
pub fn short_block_size(year: u16, n: u16, k: u8) -> u16
    requires { (n ≤ 1024) × (k ≤ 64) }
    ensures { result ≡ (year_block year n k).size }
{
    // It fits: N and k are in range.
    block_size(year, n, k) as u16
}

// Whether words may have this year: 1989, or 1979 with k below N.
#[tactic(auto, unfolding(model::specs::Sound::year_in_range))]
fn year_in_range(year: u16, n: u16, k: u8) -> bool
    ensures { result ≡ year_in_range year n k }
{
    year == YEAR_1979 && u16::from(k) < n || year == YEAR_1989
}

// Whether a ticket's value is one of the m from `first` on, and its colour not above k.
#[tactic(auto, unfolding(model::specs::Sound::ticket_in_range))]
fn ticket_in_range(t: Ticket, first: u16, m: u16, k: u8) -> bool
    requires { (first ≤ 1) × (m ≤ 1025) }
    ensures { result ≡ ticket_in_range (block_from first m) k t }
{
    first <= t.value.0 && t.value.0 < first + m && t.colour.0 <= k
}

// Whether N, k, the year, ISSUE and VALID are in range.
#[tactic(auto, using(crate::proofs::RangeLaws::size_most), unfolding(model::specs::Sound::words_range_in))]
pub fn words_in_range(g: &Gate) -> bool
    ensures { result ≡ words_in_range g.now }
{
    if !sizes_in_range(u64::from(g.n), u64::from(g.k)) {
        return false;
    }
    let first = first_value(g.year);
    let m = short_block_size(g.year, g.n, g.k);
    year_in_range(g.year, g.n, g.k)
        && ticket_in_range(g.issue, first, m, g.k)
        && ticket_in_range(g.valid, first, m, g.k)
}
