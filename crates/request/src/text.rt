// What is written for a line, as text by value.
ghost use Rattle.std.specs.Prelude.{◌≡◌, [], ◌∷◌, ◌+◌, ◌≤◌, ◌<◌, ◌++◌, length};
ghost use Rattle.reasoning.specs.Answer.{value};
ghost use Rattle.law.specs.Document.{day};
ghost use Rattle.law.specs.Request.{digits_of, digits, two_digits, signed_digits, year_text, refused_text, answer_text};
ghost use Rattle.units.specs.Said.{number_of, said_signed};
ghost use Rattle.sun.specs.Said.{values_of_year};
ghost use Rattle.request.specs.Texts.{Puts, written};

use std::marker::Model;
use sun::Year;
use units::Refusal;

// Room for an answer: more than the longest has.
pub(crate) const ROOM: usize = 32;

// Some bytes of text, no more than an answer has room for.
#[derive(Drop)]
pub(crate) struct Text {
    len: usize,
    bytes: [u8; ROOM],
}

impl Model for Text {
    ghost use Rattle.std.specs.Prelude.{ℕ, List, take, ◌≤◌};

    ghost Value = { List ℕ };

    ghost view = { λ text. take text.len text.bytes };

    ghost invariant = { λ text. text.len ≤ 32 };
}

impl Text {
    pub(crate) fn new() -> Text
        ensures { result ≡ [] }
    {
        Text {
            len: 0,
            bytes: [0; ROOM],
        }
    }

    // With some bytes more.
    fn bytes(mut self, more: &[u8]) -> Text
        requires { length self + length more.now ≤ 32 }
        ensures { result ≡ self ++ more.now }
    {
        let start = self.len;
        let end = start + more.len();
        self.bytes[start..end].copy_from_slice(more);
        self.len = end;
        self
    }

    // With one byte more.
    fn byte(mut self, b: u8) -> Text
        requires { length self < 32 }
        ensures { result ≡ self ++ b ∷ [] }
    {
        self.bytes[self.len] = b;
        self.len += 1;
        self
    }

    // With at most so many digits of a number.
    #[tactic(auto, using(crate::proofs::text::Digits::digit_by_digit))]
    fn digits(self, most: usize, v: u64) -> Text
        requires { length self + most ≤ 32 }
        ensures text { result ≡ self ++ digits_of most v }
        ensures within { length result ≤ length self + most }
    {
        if most == 0 {
            return self;
        }
        if v < 10 {
            return self.byte(b'0' + v as u8);
        }
        self.digits(most - 1, v / 10).byte(b'0' + (v % 10) as u8)
    }

    // With a number.
    fn number(self, v: u64) -> Text
        requires { length self + 4 ≤ 32 }
        ensures text { result ≡ self ++ digits v }
        ensures within { length result ≤ length self + 4 }
    {
        self.digits(4, v)
    }

    // With two digits.
    fn two_digits(self, v: u64) -> Text
        requires { (length self + 2 ≤ 32) × (v < 100) }
        ensures { result ≡ self ++ two_digits v }
    {
        self.byte(b'0' + (v / 10) as u8).byte(b'0' + (v % 10) as u8)
    }

    // Puts the text at a place of a buffer; the place after it.
    pub(crate) fn put(&self, out: &mut [u8], at: usize) -> usize
        requires { at + 32 ≤ length out.old }
        ensures { Puts self.now at out.old out.new result }
    {
        let end = at + self.len;
        out[at..end].copy_from_slice(&self.bytes[..self.len]);
        end
    }
}

#[tactic(auto, unfolding(law::specs::Request::signed_digits))]
fn signed_text(n: i64) -> Text
    ensures text { result ≡ signed_digits n }
    ensures within { length result ≤ 5 }
{
    let sign = if n < 0 {
        Text::new().byte(b'-')
    } else {
        Text::new()
    };
    sign.number(units::size(n))
}

// N, day name, hour:minute, mansion.
fn year_text(n: i64, year: Year) -> Text
    requires { year.fraction < day }
    ensures { result ≡ year_text n (values_of_year year) }
{
    signed_text(n)
        .byte(b' ')
        .number(year.day_name)
        .byte(b' ')
        .two_digits(year.fraction * 24 / 1_000_000_000)
        .byte(b':')
        .two_digits(year.fraction * 1_440 / 1_000_000_000 % 60)
        .byte(b' ')
        .number(year.mansion)
        .byte(b'\n')
}

#[tactic(auto, unfolding(law::specs::Request::refused_text))]
fn refused_text(refusal: Refusal) -> Text
    ensures { result ≡ refused_text (number_of refusal) }
{
    Text::new()
        .bytes(b"refused ")
        .number(u64::from(refusal))
        .byte(b'\n')
}

// The line of a year that is not refused.
fn year_line(n: i64) -> Result<Text, Refusal>
    ensures { written result ≡ answer_text (value n) }
{
    Ok(year_text(n, sun::year_of(n)?))
}

// What is written for what a line asks.
#[tactic(auto, unfolding(law::specs::Request::answer_text))]
pub(crate) fn answer_text(asked: Result<i64, Refusal>) -> Text
    ensures { result ≡ answer_text (said_signed asked) }
{
    asked.and_then(year_line).unwrap_or_else(refused_text)
}
