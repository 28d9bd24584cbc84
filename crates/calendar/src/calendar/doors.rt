ghost use Rattle.std.specs.Prelude.{◌≡◌, ◌+◌, ◌<◌, ◌≤◌};
ghost use Rattle.calendar.specs.Figures.{figures, HasLimit, HasNode, limit_count, limit_figures, limit_of, month_figures, month_of, node_count, node_figures, node_of};
ghost use Rattle.calendar.specs.Questions.{AnswersOne};
ghost use Rattle.calendar.specs.Values.{IsMonth};

use super::{Calendar, Limit, Month, Node};
use terms::Refusal;

// The place of a month in a year's arrays.
pub(super) fn month_place(month: u32) -> Result<usize, Refusal>
    ensures { AnswersOne (IsMonth month) (λ i. (i + 1 ≡ month) × (i < 12)) result }
{
    if !(1..=terms::MONTHS).contains(&month) {
        return Err(Refusal::CalendarValue);
    }
    Ok(month as usize - 1)
}

impl Calendar {
    // How many nodes there are.
    pub fn node_count(&self) -> u32
        ensures value { result ≡ node_count (figures self.now) }
        ensures bound { result ≤ 64 }
    {
        self.nodes.len() as u32
    }

    // How many limits there are.
    pub fn limit_count(&self) -> u32
        ensures value { result ≡ limit_count (figures self.now) }
        ensures bound { result ≤ 48 }
    {
        self.limits.len() as u32
    }

    // The node of this number.
    pub(super) fn node(&self, node: u32) -> Result<Node, Refusal>
        ensures { AnswersOne (HasNode (figures self.now) node) (λ n. node_figures n ≡ node_of (figures self.now) node) result }
    {
        let found = self
            .nodes
            .as_slice()
            .get(node as usize)
            .ok_or(Refusal::CalendarValue)?;
        Ok(*found)
    }

    // The limit of this number.
    pub(super) fn limit(&self, limit: u32) -> Result<Limit, Refusal>
        ensures { AnswersOne (HasLimit (figures self.now) limit) (λ l. limit_figures l ≡ limit_of (figures self.now) limit) result }
    {
        let place = (limit as usize)
            .checked_sub(1)
            .ok_or(Refusal::CalendarValue)?;
        let found = self
            .limits
            .as_slice()
            .get(place)
            .ok_or(Refusal::CalendarValue)?;
        Ok(*found)
    }

    // The month of this number.
    pub(super) fn month(&self, month: u32) -> Result<Month, Refusal>
        ensures { AnswersOne (IsMonth month) (λ m. month_figures m ≡ month_of (figures self.now) month) result }
    {
        Ok(self.months[month_place(month)?])
    }
}
