// Draws the wall of the year that the first line of standard input asks, in SVG: its 24 terms round a ring, the winter solstice at
// the top, and inside the sun at each midnight and the year. Nothing but a picture goes to standard output: a refusal and a failed
// read or write are told on standard error.
#![tactic(auto)]

mod circle;
mod failed;
mod middle;
mod midnights;
mod names;
mod numbers;
mod page;
mod picture;
mod terms;

use console::tell;
use failed::Failed;
use numbers::YearNumber;
use page::Page;
use picture::picture;
use std::io::{Read, Write};
use units::Refusal;

// The page has nothing of use on it where this fails.
fn draw(page: &mut Page, n: i64) -> Result<(), Failed> {
    let worked = sun::work_year(n)?;
    let number = YearNumber::of(n)?;
    picture(page, n, number, &worked)?;
    Ok(())
}

fn answer_first_line(input: &mut impl Read, out: &mut impl Write) -> Result<(), Failed> {
    let n = console::first_line(input).map_err(|_| Failed::Read)??;
    let mut page = Page::new();
    draw(&mut page, n)?;
    out.write_all(page.written()).map_err(|_| Failed::Write)
}

fn refuse(rt: &HostRuntime, refusal: Refusal) {
    let _ = console::refusal_line(&mut rt.stderr(), refusal);
}

fn main(rt: HostRuntime) {
    match answer_first_line(&mut rt.stdin(), &mut rt.stdout()) {
        Ok(()) => {}
        Err(Failed::Read) => tell(&mut rt.stderr(), b"the line could not be read\n"),
        Err(Failed::Refused(refusal)) => refuse(&rt, refusal),
        Err(Failed::Draw) => tell(&mut rt.stderr(), b"the picture could not be drawn\n"),
        Err(Failed::Write) => tell(&mut rt.stderr(), b"the picture could not be written\n"),
    }
}
