ghost use Rattle.std.specs.Prelude.{◌≡◌, ◌*◌, ◌<◌, ◌≤◌};
ghost use Rattle.terms.specs.Ranges.{most_nodes, most_limits};
ghost use Rattle.calendar.specs.Values.{IsArea, IsPrice, IsValue};
ghost use Rattle.calendar.specs.Figures.{figures, node_count, limit_count};
ghost use Rattle.calendar.specs.Calls.{with_node, with_limit};
ghost use Rattle.demonstration.specs.Calendars.{priced_node, full_limit, months_alone, worked_calendar};

use calendar::{Calendar, Direction, LimitKind};
use terms::MONTHS;

// A mark for each of the thirty pairs.
const ALL_PAIRS: u32 = 0x3fff_ffff;

// The calendar of the worked example.
pub fn calendar() -> Calendar
    ensures { figures result ≡ worked_calendar }
{
    let mut calendar = with_months();
    add_node(&mut calendar, 1, 50_000);
    add_node(&mut calendar, 2, 60_000);
    add_node(&mut calendar, 3, 60_000);
    add_limit(
        &mut calendar,
        LimitKind::Export,
        Direction::Southward,
        300_000,
    );
    add_limit(
        &mut calendar,
        LimitKind::Import,
        Direction::Northward,
        200_000,
    );
    calendar
}

// A calendar whose months have their hours and pay days, without nodes and limits.
fn with_months() -> Calendar
    ensures { figures result ≡ months_alone }
{
    let mut calendar = Calendar::new();
    for month in 1..=MONTHS {
        calendar.set_hours(month, 744).unwrap();
        calendar.set_pay_day(month, pay_day(month)).unwrap();
    }
    calendar
}

// The day on which a month's instalments are due.
fn pay_day(month: u32) -> u32
    requires { month ≤ 12 }
    ensures { result ≡ 10 * month }
{
    10 * month
}

// Adds a node in this area, with this price in every month.
fn add_node(calendar: &mut Calendar, area: u32, price: i64)
    requires area { IsArea area }
    requires price { IsPrice price }
    requires room { node_count (figures calendar.old) < most_nodes }
    ensures { figures calendar.new ≡ with_node (figures calendar.old) (priced_node area price) }
{
    let node = calendar.add_node(area).unwrap();
    for month in 1..=MONTHS {
        calendar.set_price(node, month, price).unwrap();
    }
}

// Adds a limit of area 1, with this value in every month and all marks.
fn add_limit(calendar: &mut Calendar, kind: LimitKind, direction: Direction, value: u32)
    requires value { IsValue value }
    requires room { limit_count (figures calendar.old) < most_limits }
    ensures { figures calendar.new ≡ with_limit (figures calendar.old) (full_limit kind direction value) }
{
    let limit = calendar
        .add_limit(kind.into(), 1, direction.into(), [value; 12])
        .unwrap();
    calendar.set_relation(limit, ALL_PAIRS).unwrap();
}
