ghost use Rattle.std.specs.Prelude.{◌≡◌, ◌<◌, IfOk};
ghost use Rattle.calendar.specs.Figures.{area_of, figures, HasLimit, HasNode, hours as hours_of, limit_of, marked, pay_day, price as price_of, value as value_of};
ghost use Rattle.calendar.specs.InRange.{InRange};
ghost use Rattle.calendar.specs.Questions.{Answers, AnswersOne};
ghost use Rattle.calendar.specs.Values.{IsHours, IsMonth, IsPayDay, IsPrice, IsRow, IsValue};

use super::Calendar;
use super::doors::month_place;
use crate::kinds::{Direction, LimitKind};
use terms::{Area, Refusal};

impl Calendar {
    // Nothing in a calendar is beyond its range, whatever was called on it. This is so by its types: there is nothing to do.
    pub fn stays_in_range(&self)
        ensures { InRange (figures self.now) }
    {}

    // A node's area.
    pub fn area(&self, node: u32) -> Result<Area, Refusal>
        ensures { AnswersOne (HasNode (figures self.now) node) (λ a. a.number ≡ area_of (figures self.now) node) result }
    {
        Ok(self.node(node)?.area)
    }

    // A node's price in a month, in thousandths of a dollar for a megawatt-hour.
    pub fn price(&self, node: u32, month: u32) -> Result<i32, Refusal>
        ensures value { Answers (HasNode (figures self.now) node × IsMonth month) (price_of (figures self.now) node month) result }
        ensures range { IfOk result IsPrice }
    {
        let node = self.node(node)?;
        Ok(node.prices[month_place(month)?].thousandths)
    }

    // The hours of a month.
    pub fn hours(&self, month: u32) -> Result<u32, Refusal>
        ensures value { Answers (IsMonth month) (hours_of (figures self.now) month) result }
        ensures range { IfOk result IsHours }
    {
        Ok(self.month(month)?.hours.number)
    }

    // The day on which a month's instalments are due.
    pub fn pay_day(&self, month: u32) -> Result<u32, Refusal>
        ensures value { Answers (IsMonth month) (pay_day (figures self.now) month) result }
        ensures range { IfOk result IsPayDay }
    {
        Ok(self.month(month)?.pay_day.number)
    }

    // What a limit bounds.
    pub fn limit_kind(&self, limit: u32) -> Result<LimitKind, Refusal>
        ensures { Answers (HasLimit (figures self.now) limit) (limit_of (figures self.now) limit).kind result }
    {
        Ok(self.limit(limit)?.kind)
    }

    // A limit's area.
    pub fn limit_area(&self, limit: u32) -> Result<Area, Refusal>
        ensures { AnswersOne (HasLimit (figures self.now) limit) (λ a. a.number ≡ (limit_of (figures self.now) limit).area) result }
    {
        Ok(self.limit(limit)?.area)
    }

    // Which way a limit bounds flow.
    pub fn limit_direction(&self, limit: u32) -> Result<Direction, Refusal>
        ensures { Answers (HasLimit (figures self.now) limit) (limit_of (figures self.now) limit).direction result }
    {
        Ok(self.limit(limit)?.direction)
    }

    // A limit's value in a month, in kilowatts. It has the shape of `price`, and another figure and range in its contract.
    pub fn value(&self, limit: u32, month: u32) -> Result<u32, Refusal>
        ensures value { Answers (HasLimit (figures self.now) limit × IsMonth month) (value_of (figures self.now) limit month) result }
        ensures range { IfOk result IsValue }
    {
        let limit = self.limit(limit)?;
        Ok(limit.values[month_place(month)?].number)
    }

    // A limit's relation row: bit j is the mark of pair j.
    pub fn relation(&self, limit: u32) -> Result<u32, Refusal>
        ensures value { Answers (HasLimit (figures self.now) limit) (limit_of (figures self.now) limit).row result }
        ensures range { IfOk result IsRow }
    {
        Ok(self.limit(limit)?.row.bits)
    }

    // Whether a limit's row marks a pair.
    pub fn mark(&self, limit: u32, pair: u32) -> Result<bool, Refusal>
        ensures { Answers (HasLimit (figures self.now) limit × (pair < 30)) (marked (figures self.now) limit pair) result }
    {
        let limit = self.limit(limit)?;
        if pair >= terms::PAIRS {
            return Err(Refusal::CalendarValue);
        }
        Ok(limit.row.mark(pair))
    }
}
