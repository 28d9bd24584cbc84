ghost use Rattle.book.specs.Forms.{FormDecides};
ghost use Rattle.book.specs.Findings.{FindingsHold, RunsHold};

use flows::{FactorSource, UseRule};

// The findings hold of every calendar, every new book and every list of calls, for this source and this rule.
pub(crate) fn findings_stand<S: FactorSource, R: UseRule>(source: &S, rule: &R)
    ensures form { FormDecides }
    ensures lived { FindingsHold (S.FactorSource.means source.now) (R.UseRule.worst rule.now) (R.UseRule.allowed rule.now) }
    ensures runs { RunsHold (S.FactorSource.means source.now) (R.UseRule.worst rule.now) (R.UseRule.allowed rule.now) }
{}
