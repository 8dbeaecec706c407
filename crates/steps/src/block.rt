// The block of a gate, by its year: 1989's values run 0 to M − 1, 1979's 1 to N.
ghost use Rattle.std.specs.Prelude.{◌≡◌, ℕ, ◌≤◌};
ghost use Rattle.model.specs.Steps.{year_block};

use model::YEAR_1979;

// The first value.
#[tactic(auto, unfolding(model::specs::Steps::year_block, model::specs::Steps::block1979, model::specs::Steps::block))]
pub fn first_value(year: u16) -> u16
    ensures { (result ≤ 1) × ((n k : ℕ) → result ≡ (year_block year n k).first) }
{
    if year == YEAR_1979 { 1 } else { 0 }
}

// How many values there are: under 1979 N, under 1989 the block size M, 1 + the larger of k and N − k, so 1 + k when N is below k. It is at
// most 65,536, which no u16 holds.
#[tactic(auto, unfolding(model::specs::Steps::year_block, model::specs::Steps::block1979, model::specs::Steps::block, model::specs::Steps::block_size))]
pub fn block_size(year: u16, n: u16, k: u8) -> u32
    ensures { result ≡ (year_block year n k).size }
{
    let plugins = u32::from(n);
    let slots = u32::from(k);
    if year == YEAR_1979 {
        plugins
    } else {
        let others = plugins.saturating_sub(slots);
        1 + slots.max(others)
    }
}
