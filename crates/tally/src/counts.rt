// "The count of a colour is its held tickets outside those places, plus its places after ISSUE up to VALID where d is positive." The
// test is in two steps: the spare places are taken from the counts, and what is left of each count is then to be what its colour's bin has.
ghost use Rattle.std.specs.Prelude.{◌≡◌, ◌≤◌, eqb, length};
ghost use Rattle.model.specs.Lists.{all, all_below};
ghost use Rattle.ranges.specs.Lead.{LeadBounds};
ghost use Rattle.tally.specs.Counts.{SpareSubtracted, bin_is};

// As in bins.rt, sizes are cast in types.
use model::COLOURS;
use ranges::Lead;

// What is left of the counts without their spare places, if each count has as many.
#[tactic(auto, using(crate::proofs::CountLaws::near_short, crate::proofs::CountLaws::far_short, crate::proofs::CountLaws::less_both), unfolding(crate::specs::Counts::spare_within))]
pub fn subtract_spare(
    mut counts: [u8; COLOURS as usize],
    lead: Lead,
) -> Option<[u8; COLOURS as usize]>
    requires { LeadBounds lead }
    ensures { SpareSubtracted lead counts result }
{
    // How many of the places after ISSUE up to VALID are in ISSUE's block; the others are in VALID's.
    let within = lead
        .ahead
        .min(lead.first + lead.size - 1 - lead.issue.value.0);
    let issue = usize::from(lead.issue.colour.0);
    let valid = usize::from(lead.valid.colour.0);
    // Both fit: VALID is at most k ahead, and k at most 64.
    counts[issue] = counts[issue].checked_sub(within as u8)?;
    counts[valid] = counts[valid].checked_sub((lead.ahead - within) as u8)?;
    Some(counts)
}

// Whether each of 65 numbers is what its colour's bin has. It reads them all, with no early return, so that a compiler can compare many
// at a time: slices compared by `==`, tried, cost 8 ns more, which a look at N 64 with k 64 has not to spare.
pub fn equal_bins(left: &[u8; COLOURS as usize], bins: &[u8]) -> bool
    requires { 65 ≤ length bins.now }
    ensures { result ≡ all_below (bin_is left.now bins.now) 65 }
{
    left.iter()
        .zip(bins)
        .fold(true, |equal, (count, bin)| equal & (*count == *bin))
}

// Whether each of these bins has one record. No `all`: tried, it made a look at N 1,024 a sixth slower.
pub fn each_one(bins: &[u8]) -> bool
    ensures { result ≡ all (λ x. eqb x 1) bins.now }
{
    bins.iter().fold(true, |each, bin| each & (*bin == 1))
}
