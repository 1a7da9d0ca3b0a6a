// The whole picture, a field of 1,000 by 1,000.
use crate::circle::Circle;
use crate::middle::{legend, solstice, year};
use crate::midnights::midnights;
use crate::names::StemAndBranch;
use crate::numbers::YearNumber;
use crate::page::Page;
use crate::terms::terms;
use std::fmt;
use std::fmt::Write;
use sun::WorkedYear;

// Fonts with the characters in their traditional forms first, then others with them, then any.
fn opening(page: &mut Page, number: YearNumber) -> fmt::Result {
    writeln!(
        page,
        "<svg xmlns='http://www.w3.org/2000/svg' viewBox='0 0 1000 1000' lang='zh-Hant' \
         font-family='Noto Serif CJK TC,Noto Serif TC,Source Han Serif TC,Songti TC,PMingLiU,\
         Noto Serif CJK SC,Noto Serif SC,SimSun,serif' \
         font-size='19' text-anchor='middle' fill='#26211c'>\n\
         <title lang='en'>The 24 solar terms of the year {number}</title>"
    )
}

fn ground(page: &mut Page) -> fmt::Result {
    page.write_str(
        "<desc lang='en'>Each term stands at its mark, 15 degrees apart, the winter solstice at the top: its name; the name of its day \
         and the day's number, where day 0 is the day after the mean solstice's day; its time. The inner ticks are the bureau's true sun \
         at 365 midnights, from day -1 on.</desc>\n\
         <rect width='1000' height='1000' fill='#faf6ee'/>\n\
         <g fill='none' stroke='#26211c'><circle cx='500' cy='500' r='336' stroke-width='2.5'/><circle cx='500' cy='500' r='300'/></g>\n",
    )
}

// It fails where the page has no room for the picture, or a value is out of its kind.
pub(crate) fn picture(
    page: &mut Page,
    n: i64,
    number: YearNumber,
    worked: &WorkedYear,
) -> fmt::Result {
    let circle = Circle::new();
    let day_zero = StemAndBranch(worked.year.day_name).after(1);
    opening(page, number)?;
    ground(page)?;
    midnights(page, &circle, n)?;
    terms(page, &circle, day_zero, &worked.terms)?;
    year(page, n, number)?;
    solstice(page, day_zero, &worked.year)?;
    legend(page)?;
    page.write_str("</svg>\n")
}
