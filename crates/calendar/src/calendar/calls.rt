ghost use Rattle.std.specs.Prelude.{◌≡◌, ℕ, map, slice_index};
ghost use Rattle.calendar.specs.Figures.{figures, limit_figures};
ghost use Rattle.calendar.specs.Calls.{AddsLimit, AddsNode, empty_figures, LimitFits, NumberedLimit, SetsHours, SetsPayDay, SetsPrice, SetsRelation};
ghost use Rattle.calendar.specs.Questions.{AnswersOne};
ghost use Rattle.calendar.specs.Values.{IsValue};

use super::doors::month_place;
use super::{Calendar, Limit, Month, Node};
use crate::kinds::{Direction, LimitKind};
use crate::parts::{Capacity, Hours, PayDay, Price, RelationRow};
use terms::{Area, Refusal, Table};

impl Calendar {
    // No nodes, no limits, and months without hours and pay days.
    pub fn new() -> Calendar
        ensures { figures result ≡ empty_figures }
    {
        // what fills the rows beyond the nodes and limits says nothing, in area 1
        let area = Area::new(1).unwrap();
        let node = Node {
            area,
            prices: [Price::default(); 12],
        };
        let limit = Limit {
            kind: LimitKind::Export,
            area,
            direction: Direction::Southward,
            values: [Capacity::default(); 12],
            row: RelationRow::default(),
        };
        Calendar {
            nodes: Table::new(node),
            limits: Table::new(limit),
            months: [Month::default(); 12],
        }
    }

    // Adds a node in this area, with no prices yet, and answers its number.
    pub fn add_node(&mut self, area: u32) -> Result<u32, Refusal>
        ensures { AddsNode self.old area result self.new }
    {
        let area = Area::new(area).ok_or(Refusal::CalendarValue)?;
        let node = self.node_count();
        let added = Node {
            area,
            prices: [Price::default(); 12],
        };
        self.nodes.push(added).map_err(|_| Refusal::CalendarFull)?;
        Ok(node)
    }

    // Sets a node's price in a month.
    pub fn set_price(&mut self, node: u32, month: u32, price: i64) -> Result<(), Refusal>
        ensures { SetsPrice self.old node month price result self.new }
    {
        let mut changed = self.node(node)?;
        let month = month_place(month)?;
        changed.prices[month] = Price::try_from(price)?;
        self.nodes.set(node as usize, changed).unwrap();
        Ok(())
    }

    // Adds a limit with these monthly values in kilowatts and no marks yet, and answers its number.
    // Kind and direction are plain numbers, so that the calendar refuses one that names none.
    pub fn add_limit(
        &mut self,
        kind: u32,
        area: u32,
        direction: u32,
        values: [u32; 12],
    ) -> Result<u32, Refusal>
        ensures { AddsLimit self.old kind area direction values result self.new }
    {
        let added = Limit::numbered(kind, area, direction, values)?;
        self.limits.push(added).map_err(|_| Refusal::CalendarFull)?;
        Ok(self.limit_count())
    }

    // Sets the hours of a month.
    pub fn set_hours(&mut self, month: u32, hours: u32) -> Result<(), Refusal>
        ensures { SetsHours self.old month hours result self.new }
    {
        let place = month_place(month)?;
        self.months[place].hours = Hours::try_from(hours)?;
        Ok(())
    }

    // Sets the day on which a month's instalments are due.
    pub fn set_pay_day(&mut self, month: u32, day: u32) -> Result<(), Refusal>
        ensures { SetsPayDay self.old month day result self.new }
    {
        let place = month_place(month)?;
        self.months[place].pay_day = PayDay::try_from(day)?;
        Ok(())
    }

    // Sets a limit's relation row whole: bit j is the mark of pair j.
    pub fn set_relation(&mut self, limit: u32, row: u32) -> Result<(), Refusal>
        ensures { SetsRelation self.old limit row result self.new }
    {
        let mut changed = self.limit(limit)?;
        changed.row = RelationRow::try_from(row)?;
        self.limits.set(limit as usize - 1, changed).unwrap();
        Ok(())
    }
}

impl Limit {
    // The limit of these numbers, with no marks: kind and direction come as plain numbers, as `add_limit` takes them.
    fn numbered(kind: u32, area: u32, direction: u32, values: [u32; 12]) -> Result<Limit, Refusal>
        ensures { AnswersOne (LimitFits kind area direction values) (λ l. NumberedLimit kind area direction values (limit_figures l)) result }
    {
        Ok(Limit {
            kind: LimitKind::try_from(kind)?,
            area: Area::new(area).ok_or(Refusal::CalendarValue)?,
            direction: Direction::try_from(direction)?,
            values: capacities(values)?,
            row: RelationRow::default(),
        })
    }
}

// These values, as what a limit lets pass. By a loop: `try_map` is several times slower.
fn capacities(values: [u32; 12]) -> Result<[Capacity; 12], Refusal>
    ensures { AnswersOne ((k : ℕ) → IsValue (slice_index values k)) (λ cs. map (λ c. c.number) cs ≡ values) result }
{
    let mut capacities = [Capacity::default(); 12];
    for (place, value) in values.iter().enumerate() {
        capacities[place] = Capacity::try_from(*value)?;
    }
    Ok(capacities)
}
