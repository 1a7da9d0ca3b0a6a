// The sun's true place at 365 midnights, as ticks inside the ring: they crowd in summer and thin out in winter.
use crate::circle::Circle;
use crate::page::Page;
use std::fmt;
use std::fmt::Write;

fn tick(page: &mut Page, circle: &Circle, place: u64) -> fmt::Result {
    let inner = circle.point(place, 3_010);
    let outer = circle.point(place, 3_110);
    write!(page, "M{inner}L{outer}")
}

// From day -1 on. Nothing is drawn without a place that is refused.
pub(crate) fn midnights(page: &mut Page, circle: &Circle, n: i64) -> fmt::Result {
    page.write_str("<path d='")?;
    for d in -1..364 {
        let place = sun::true_place(n, d).map_err(|_| fmt::Error)?;
        tick(page, circle, place)?;
    }
    page.write_str("' stroke='#6d6358'/>\n")
}
