ghost use Rattle.std.specs.Prelude.{◌≡◌, true, false, MatchOption};
ghost use Rattle.terms.specs.Pairs.{number_of};
ghost use Rattle.calendar.specs.Figures.{figures};
ghost use Rattle.book.specs.Lines.{nodes_stand};
ghost use Rattle.book.specs.Loads.{valid as valid_in, pair_of as pair_number_of, marks as marks_of, counts_in};

use calendar::Calendar;
use submission::Line;
use terms::Pair;

// Whether a month is one of the line's term.
fn valid(month: u32, line: &Line) -> bool
    ensures { result ≡ valid_in month line.now }
{
    (line.first..=line.last).contains(&month)
}

// The pair of the areas of the line's nodes, where both nodes are there, in different areas.
pub(crate) fn pair_of(calendar: &Calendar, line: &Line) -> Option<Pair>
    ensures { MatchOption result (nodes_stand (figures calendar.now) line.now ≡ false) (λ p. (nodes_stand (figures calendar.now) line.now ≡ true) × (number_of p ≡ pair_number_of (figures calendar.now) line.now)) }
{
    let injection = calendar.area(line.injection).ok()?;
    let withdrawal = calendar.area(line.withdrawal).ok()?;
    Pair::new(injection, withdrawal)
}

// Whether a limit marks the pair of areas of the line's nodes.
fn marks(calendar: &Calendar, limit: u32, line: &Line) -> bool
    ensures { result ≡ marks_of (figures calendar.now) limit line.now }
{
    let Some(pair) = pair_of(calendar, line) else {
        return false;
    };
    calendar.mark(limit, pair.number()).unwrap_or(false)
}

// Whether a limit counts the line in a month: the month is of its term, and the limit marks its pair.
pub(crate) fn counts(calendar: &Calendar, month: u32, limit: u32, line: &Line) -> bool
    ensures { result ≡ counts_in (figures calendar.now) month limit line.now }
{
    valid(month, line) && marks(calendar, limit, line)
}
