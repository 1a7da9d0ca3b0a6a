// Inside the ring: the year by its name and number, the mean solstice, day 0 with its duty mansion, and the legend.
use crate::names::{StemAndBranch, mansion};
use crate::numbers::{Clock, YearNumber};
use crate::page::Page;
use std::fmt;
use std::fmt::Write;
use sun::Year;

// A day is a thousand million parts, and a fraction of it fewer.
const DAY: u64 = 1_000_000_000;

// 1684, N = 0, is a 甲子 year.
pub(crate) fn year(page: &mut Page, n: i64, number: YearNumber) -> fmt::Result {
    let name = StemAndBranch(0).after(n);
    writeln!(
        page,
        "<text x='500' y='452' font-size='92' font-weight='600'>{name}</text>"
    )?;
    match number {
        YearNumber::Common(y) => writeln!(page, "<text x='500' y='520' font-size='44'>{y}</text>"),
        YearNumber::BeforeCommon(y) => writeln!(
            page,
            "<text x='500' y='520' font-size='44'>{y}<tspan font-size='26'> before the common era</tspan></text>"
        ),
    }
}

// `day_zero` is day 0's name.
pub(crate) fn solstice(page: &mut Page, day_zero: StemAndBranch, values: &Year) -> fmt::Result {
    let name = day_zero.after(-1);
    let time = Clock::of(values.fraction % DAY * 1_440 / DAY).ok_or(fmt::Error)?;
    let mansion = mansion(values.mansion).ok_or(fmt::Error)?;
    writeln!(
        page,
        "<g font-size='22'><text x='500' y='572'>mean solstice {name} {time}</text>\n\
         <text x='500' y='604'>day 0 {day_zero}, duty mansion {mansion}</text></g>"
    )
}

pub(crate) fn legend(page: &mut Page) -> fmt::Result {
    page.write_str(
        "<g lang='en' font-size='16' fill='#6d6358'>\
         <text x='500' y='660'>each term: name · its day · day number · time</text>\n\
         <text x='500' y='684'>inner ticks: the sun at each midnight</text></g>\n",
    )
}
