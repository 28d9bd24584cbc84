ghost use Rattle.std.specs.Prelude.{◌≡◌, IfOk, MatchBool};
ghost use Rattle.std.specs.Result.{result_err};
ghost use Rattle.flows.specs.Choices.{Within, Passable, WorstCase};
ghost use Rattle.flows.specs.Loads.{counts, fault, worst_of, judged, no_load, load};

use crate::rule::UseRule;
use crate::source::FactorSource;
use terms::{MOST_POWER, Refusal};

// The rights that one load can sum up: as many as a book has serials.
pub const MOST_RIGHTS: usize = 1_000_000;

// A right as a limit sees it: with the limit's mark of its pair of areas.
#[derive(Clone, Copy, Debug, PartialEq, Eq)]
pub struct RightAtLimit {
    pub power: u32,
    pub injection: u32,
    pub withdrawal: u32,
    pub first: u32,
    pub last: u32,
    // Beside it stands no value: a right that is not marked loads nothing.
    pub marked: bool,
}

impl RightAtLimit {
    // Whether the limit counts the right in the month: the month is valid, and the pair is marked.
    fn counts(&self, month: u32) -> bool
        ensures { result ≡ counts month self.now }
    {
        (self.first..=self.last).contains(&month) && self.marked
    }
}

// The worst flow of the right at a place of the list, 0 where the limit does not count it.
// Source, rule, month and limit come apart, as the public calls take them: a struct of them would serve this function alone.
fn worst_of<S: FactorSource, R: UseRule>(
    source: &S,
    rule: &R,
    month: u32,
    limit: u32,
    place: usize,
    right: &RightAtLimit,
) -> Result<i64, Refusal>
    ensures value { let means = S.FactorSource.means source.now in result ≡ judged (fault means month limit place right.now) (worst_of means (R.UseRule.worst rule.now) month limit right.now) }
{
    if right.power > MOST_POWER {
        return Err(Refusal::BadLine { place });
    }
    if !right.counts(month) {
        return Ok(0);
    }
    let factor = source
        .factor(month, limit, right.injection, right.withdrawal)
        .ok_or(Refusal::NoFactor {
            place,
            month,
            limit,
        })?;
    Ok(rule.worst_flow(right.power, factor))
}

// The load of a limit in a month: the sum of the worst flows of the rights.
pub fn worst_load<S: FactorSource, R: UseRule>(
    source: &S,
    rule: &R,
    month: u32,
    limit: u32,
    rights: &[RightAtLimit],
) -> Result<i64, Refusal>
    ensures value { let means = S.FactorSource.means source.now in result ≡ judged (no_load means month limit rights.now) (load means (R.UseRule.worst rule.now) month limit rights.now) }
    ensures worst { IfOk result (λ sum. WorstCase (S.FactorSource.means source.now) (R.UseRule.allowed rule.now) month limit rights.now sum) }
{
    if rights.len() > MOST_RIGHTS {
        return Err(Refusal::NoRoom);
    }
    let mut sum: i64 = 0;
    for (i, right) in rights.iter().enumerate() {
        sum += worst_of(source, rule, month, limit, i + 1, right)?;
    }
    Ok(sum)
}

// Whether every choice of uses keeps the flow at a limit in a month within a bound.
pub fn within_bound<S: FactorSource, R: UseRule>(
    source: &S,
    rule: &R,
    month: u32,
    limit: u32,
    rights: &[RightAtLimit],
    bound: i64,
) -> Result<bool, Refusal>
    ensures refusal { result_err result ≡ no_load (S.FactorSource.means source.now) month limit rights.now }
    ensures choices { let means = S.FactorSource.means source.now in let allowed = R.UseRule.allowed rule.now in IfOk result (λ yes. MatchBool yes (Within means allowed month limit rights.now bound) (Passable means allowed month limit rights.now bound)) }
{
    let sum = worst_load(source, rule, month, limit, rights)?;
    Ok(sum <= bound)
}
