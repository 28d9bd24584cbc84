ghost use Rattle.std.specs.Prelude.{◌≡◌, true};
ghost use Rattle.calendar.specs.Figures.{figures};
ghost use Rattle.book.specs.Lines.{nodes_stand, months_stand, amounts_stand, line_stands, reaches_floor, line_fault};
ghost use Rattle.book.specs.Refusing.{told};

use crate::marks::pair_of;
use calendar::Calendar;
use money::{MonthSpan, Transfer};
use submission::Line;
use terms::{HOLDERS, MOST_OFFER, MOST_POWER, Refusal};

// A calendar and a line stay two: the first is the book's, the second the caller's, and each check reads both once.

// Whether both nodes are there, in different areas.
fn nodes_stand(calendar: &Calendar, line: &Line) -> bool
    ensures { result ≡ nodes_stand (figures calendar.now) line.now }
{
    pair_of(calendar, line).is_some()
}

// Whether the months are months of the year, the first not after the last.
fn months_stand(line: &Line) -> bool
    ensures { result ≡ months_stand line.now }
{
    MonthSpan::new(line.first, line.last).is_some()
}

// Whether power, offer and charge are in their ranges.
fn amounts_stand(line: &Line) -> bool
    ensures { result ≡ amounts_stand line.now }
{
    1 <= line.power
        && line.power <= MOST_POWER
        && line.offer <= MOST_OFFER
        && line.charge <= line.offer
}

// Whether the line's numbers are all in order.
fn line_stands(calendar: &Calendar, line: &Line) -> bool
    ensures { result ≡ line_stands (figures calendar.now) line.now }
{
    (line.holder as usize) < HOLDERS
        && nodes_stand(calendar, line)
        && months_stand(line)
        && amounts_stand(line)
}

// Whether the offer of a line that stands reaches its floor.
fn reaches_floor(calendar: &Calendar, line: &Line) -> bool
    requires { line_stands (figures calendar.now) line.now ≡ true }
    ensures { result ≡ reaches_floor (figures calendar.now) line.now }
{
    let Some(months) = MonthSpan::new(line.first, line.last) else {
        return false;
    };
    let transfer = Transfer {
        injection: line.injection,
        withdrawal: line.withdrawal,
        power: line.power,
        months,
    };
    transfer.reached_by(calendar, line.offer).unwrap_or(false)
}

// The fault of the line at a place by itself: its numbers, then its offer.
pub(crate) fn check_line(calendar: &Calendar, place: usize, line: &Line) -> Result<(), Refusal>
    ensures { result ≡ told (line_fault (figures calendar.now) place line.now) }
{
    if !line_stands(calendar, line) {
        return Err(Refusal::BadLine { place });
    }
    if !reaches_floor(calendar, line) {
        return Err(Refusal::BelowFloor { place });
    }
    Ok(())
}
