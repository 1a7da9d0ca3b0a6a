// Local times: source 002's sixteen places with the clock seconds that it prints, days and minutes and
// longitudes with their limits, and document 01's two marked rows.
use crate::answers::{Answer, Minute};
use std::io;
use std::io::Write;
use units::ArcSeconds;

// Source 002's places in its order: seconds of arc, and the clock seconds printed.
const PLACES: [(i64, i64); 16] = [
    (26_100, 1_740),
    (13_284, 886),
    (10_740, 716),
    (8_280, 552),
    (8_100, 540),
    (-2_220, -148),
    (-6_960, -464),
    (-8_220, -548),
    (-12_795, -853),
    (-14_262, -951),
    (-22_480, -1_499),
    (-27_220, -1_815),
    (-35_560, -2_371),
    (-44_160, -2_944),
    (-49_020, -3_268),
    (37_800, 2_520),
];

fn line(out: &mut impl Write, day: i64, minute: u64, longitude: i64) -> io::Result<()> {
    let there = local::local_time(day, minute, ArcSeconds::of(longitude));
    let there = Answer(there.map(Minute::from));
    writeln!(out, "local {day} {minute} {longitude}: {there}")
}

fn places(out: &mut impl Write) -> io::Result<()> {
    for (place, (longitude, printed)) in (1u8..).zip(PLACES) {
        let clock = ArcSeconds::of(longitude).to_clock().seconds();
        writeln!(
            out,
            "002 {place}: longitude {longitude} clock {clock} printed {printed}"
        )?;
        line(out, 10, 0, longitude)?;
        line(out, 10, 1_439, longitude)?;
    }
    Ok(())
}

// East and west.
fn longitudes(out: &mut impl Write, day: i64, minute: u64) -> io::Result<()> {
    line(out, day, minute, 0)?;
    for size in [1, 7, 8, 14, 15, 22, 23] {
        line(out, day, minute, size)?;
        line(out, day, minute, -size)?;
    }
    line(out, day, minute, 13_284)?;
    line(out, day, minute, -12_795)?;
    for size in [647_999, 648_000, 648_001] {
        line(out, day, minute, size)?;
        line(out, day, minute, -size)?;
    }
    line(out, day, minute, i64::MIN)?;
    line(out, day, minute, i64::MAX)
}

pub(crate) fn lines(out: &mut impl Write) -> io::Result<()> {
    places(out)?;
    for day in [-5, -4, 0, 369, 370, 371] {
        for minute in [0, 1, 719, 1_439, 1_440] {
            longitudes(out, day, minute)?;
        }
    }
    line(out, 10, 1_435, 13_284)?;
    line(out, 10, 0, -12_795)
}
