ghost use Rattle.std.specs.Prelude.{◌≡◌, ℕ, ◌+◌, ◌<◌, not, length, MatchResult, ◌==◌, slice_index_or};
ghost use Rattle.terms.specs.Tables.{held};
ghost use Rattle.calendar.specs.Rows.{row_mark};
ghost use Rattle.calendar.specs.Figures.{figures, limit_count};
ghost use Rattle.calendar.specs.Matrix.{FirstStray, flow_at, GoodReferences, NoStray, pair_flow};

use super::{Calendar, LIMITS};
use crate::parts::RelationRow;
use crate::reference::Reference;
use terms::{Refusal, Table};

// What a matrix is built from: a calendar, and reference rights with the flow of each at every limit in turn, in kilowatts.
#[derive(Clone, Copy)]
pub(super) struct Study<'a> {
    calendar: &'a Calendar,
    references: &'a [Reference],
    flows: &'a [i32],
    ghost good: { GoodReferences (figures calendar.now) references.now flows.now },
}

impl<'a> Study<'a> {
    // These, if a matrix can be built from them.
    pub(super) fn new(
        calendar: &'a Calendar,
        references: &'a [Reference],
        flows: &'a [i32],
    ) -> Result<Study<'a>, Refusal>
        ensures { MatchResult result (λ s. (s.calendar.now ≡ calendar.now) × (s.references.now ≡ references.now) × (s.flows.now ≡ flows.now)) (λ e. (e ≡ Refusal.References) × (GoodReferences (figures calendar.now) references.now flows.now → ⊥)) }
    {
        let fits = (1..=terms::MOST_REFERENCES).contains(&references.len())
            && references
                .iter()
                .all(|reference| reference.pair().is_some())
            && flows.len() == references.len() * calendar.limits.len();
        if !fits {
            return Err(Refusal::References);
        }
        Ok(Study {
            calendar,
            references,
            flows,
        })
    }

    // The flow of the reference at a place at the limit at a place, both from 0: the flows are read by reference and limit.
    fn flow(&self, reference: usize, limit: usize) -> i32
        requires here { reference < length self.now.references.now }
        requires there { limit < limit_count (figures self.now.calendar.now) }
        ensures { result ≡ flow_at self.now.flows.now (limit_count (figures self.now.calendar.now)) reference (limit + 1) }
    {
        self.flows[reference * self.calendar.limits.len() + limit]
    }

    // Refuses the first reference that strays, at the first limit at which it does.
    pub(super) fn check_strays(&self) -> Result<(), Refusal>
        ensures { MatchResult result (λ _. NoStray (figures self.now.calendar.now) self.now.references.now self.now.flows.now) (λ e. (i limit : ℕ) × FirstStray (figures self.now.calendar.now) self.now.references.now self.now.flows.now i limit × (e ≡ Refusal.Stray (i + 1) limit)) }
    {
        for (place, reference) in self.references.iter().enumerate() {
            for (at, limit) in self.calendar.limits.as_slice().iter().enumerate() {
                if limit.strays(*reference, self.flow(place, at)) {
                    return Err(Refusal::Stray {
                        place: place + 1,
                        limit: at as u32 + 1,
                    });
                }
            }
        }
        Ok(())
    }

    // A pair's flow at the limit at a place: the sum of what counts of its references' flows there.
    fn pair_flow(&self, at: usize, pair: u32) -> u64
        requires { at < limit_count (figures self.now.calendar.now) }
        ensures { result ≡ pair_flow (figures self.now.calendar.now) self.now.references.now self.now.flows.now (at + 1) pair }
    {
        let limit = self.calendar.limits.as_slice()[at];
        let mut sum = 0;
        for (place, reference) in self.references.iter().enumerate() {
            if reference.is_of(pair) {
                sum += u64::from(limit.counted(*reference, self.flow(place, at)));
            }
        }
        sum
    }

    // The marks of the limit at a place: the pairs that have flow there.
    fn row(&self, at: usize) -> RelationRow
        requires { at < limit_count (figures self.now.calendar.now) }
        ensures { (pair : ℕ) → pair < 30 → row_mark result.bits pair ≡ not (pair_flow (figures self.now.calendar.now) self.now.references.now self.now.flows.now (at + 1) pair == 0) }
    {
        let mut row = RelationRow::default();
        for pair in 0..terms::PAIRS {
            if self.pair_flow(at, pair) != 0 {
                row = row.with_mark(pair);
            }
        }
        row
    }

    // The marks of every limit in turn.
    pub(super) fn rows(&self) -> Table<RelationRow, LIMITS>
        ensures count { length (held result) ≡ limit_count (figures self.now.calendar.now) }
        ensures marks { (at pair : ℕ) (none : RelationRow) → at < length (held result) → pair < 30 → row_mark (slice_index_or (held result) at none).bits pair ≡ not (pair_flow (figures self.now.calendar.now) self.now.references.now self.now.flows.now (at + 1) pair == 0) }
    {
        let mut rows = Table::new(RelationRow::default());
        for at in 0..self.calendar.limits.len() {
            rows.push(self.row(at)).unwrap();
        }
        rows
    }
}
