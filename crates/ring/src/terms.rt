// The 24 terms: a mark across the ring, and outside it a block of three lines (the name; the day's name and number; the time).
ghost use Rattle.std.specs.Prelude.{◌<◌};

use crate::circle::Circle;
use crate::names::{StemAndBranch, TERMS};
use crate::numbers::{Clock, Day};
use crate::page::Page;
use std::fmt;
use std::fmt::Write;
use sun::TermRecord;

const FIFTEEN_DEGREES: u64 = 3_240_000_000_000;

// How a term is drawn.
struct Style {
    // where the mark begins, from the middle
    inner: u16,
    width: u8,
    // of the name, where it is not the picture's own
    fill: &'static str,
}

// The mark of a solstice or an equinox is longer and broader, and its name red.
const SOLSTICE_OR_EQUINOX: Style = Style {
    inner: 3_000,
    width: 3,
    fill: " fill='#9c2a1f'",
};

const OTHER: Style = Style {
    inner: 3_160,
    width: 2,
    fill: "",
};

fn style_of(k: usize) -> Style {
    if k % 6 == 0 {
        SOLSTICE_OR_EQUINOX
    } else {
        OTHER
    }
}

// The block's own zero is its middle.
fn marked_and_named(page: &mut Page, circle: &Circle, k: usize, name: &str) -> fmt::Result
    requires { k < 24 }
{
    let arc = k as u64 * FIFTEEN_DEGREES;
    let Style { inner, width, fill } = style_of(k);
    let from = circle.point(arc, inner);
    let to = circle.point(arc, 3_460);
    writeln!(
        page,
        "<path d='M{from}L{to}' stroke='#9c2a1f' stroke-width='{width}'/>"
    )?;
    let block = circle.oval_point(arc, 4_200, 4_080);
    writeln!(
        page,
        "<g transform='translate({block})'>\n<text y='-11' font-size='27' font-weight='600'{fill}>{name}</text>"
    )
}

fn day_and_time(page: &mut Page, day_zero: StemAndBranch, found: &TermRecord) -> fmt::Result {
    let name = day_zero.after(found.day);
    let day = Day::of(found.day).ok_or(fmt::Error)?;
    let time = Clock::of(found.minute).ok_or(fmt::Error)?;
    writeln!(
        page,
        "<text y='13'>{name} <tspan font-size='16' fill='#6d6358'>{day}</tspan></text>\n<text y='36'>{time}</text></g>"
    )
}

// `day_zero` is day 0's name.
pub(crate) fn terms(
    page: &mut Page,
    circle: &Circle,
    day_zero: StemAndBranch,
    found: &[TermRecord; 24],
) -> fmt::Result {
    for (k, (name, record)) in TERMS.iter().zip(found).enumerate() {
        marked_and_named(page, circle, k, name)?;
        day_and_time(page, day_zero, record)?;
    }
    Ok(())
}
