ghost use Rattle.std.specs.Prelude.{◌≡◌, ◌≤◌, ◌<◌, ◌^◌, pos, unsigned_abs, IsSome, ◌↔◌, IsTrue, IfSome};
ghost use Rattle.jiff.specs.Words.{IsDate, IsYmd, epoch_day};
ghost use Rattle.std.specs.Option.{option_map};
ghost use Rattle.sm_grammar.specs.Time.{digits, sign, moment_in, IsMoment, seconds_of, time_of, is_date, day_number};

use crate::number::read_number;
use jiff::civil::{Date, date};

/// The numbers of a time.
#[derive(Clone, Copy)]
struct Moment {
    year: u32,
    month: u32,
    day: u32,
    hour: u32,
    minute: u32,
    second: u32,
}

/// The number of so many digits at the front, and the text behind them.
fn digits(count: usize, text: &[u8]) -> Option<(u32, &[u8])>
    ensures value { option_map (λ r. (r.0, r.1.now)) result ≡ digits count text.now }
    ensures two { count ≡ 2 → IfSome result (λ r. r.0 ≤ 99) }
    ensures four { count ≡ 4 → IfSome result (λ r. r.0 ≤ 9999) }
{
    if count > text.len() {
        return None;
    }
    let number = read_number(&text[..count])?;
    Some((number, &text[count..]))
}

fn sign(byte: u8, text: &[u8]) -> Option<&[u8]>
    ensures { option_map (λ r. r.now) result ≡ sign byte text.now }
{
    match text {
        [first, rest @ ..] if *first == byte => Some(rest),
        _ => None,
    }
}

#[tactic(auto, unfolding(crate::specs::Time::moment_in))]
fn moment_in(text: &[u8]) -> Option<Moment>
    ensures value { result ≡ moment_in text.now }
    ensures few { IfSome result IsMoment }
{
    let (year, text) = digits(4, text)?;
    let (month, text) = digits(2, sign(b'-', text)?)?;
    let (day, text) = digits(2, sign(b'-', text)?)?;
    let (hour, text) = digits(2, sign(b'T', text)?)?;
    let (minute, text) = digits(2, sign(b':', text)?)?;
    let (second, text) = digits(2, sign(b':', text)?)?;
    if !sign(b'Z', text)?.is_empty() {
        return None;
    }
    Some(Moment {
        year,
        month,
        day,
        hour,
        minute,
        second,
    })
}

/// The date of these numbers, where the calendar has it.
fn date_of(year: u32, month: u32, day: u32) -> Option<Date>
    requires years { year ≤ 9999 }
    requires months { month ≤ 99 }
    requires days { day ≤ 99 }
    ensures succeeds { IsSome result ↔ IsDate (pos year) (pos month) (pos day) }
    ensures value { IfSome result (IsYmd (pos year) (pos month) (pos day)) }
{
    Date::new(year as i16, month as i8, day as i8).ok()
}

fn day_of(day: Date) -> u64
    ensures day { result ≡ unsigned_abs (epoch_day day) }
    ensures few { result < 2 ^ 47 }
{
    let since = day.duration_since(date(1970, 1, 1));
    (since.as_nanos().unsigned_abs() / 86_400_000_000_000) as u64
}

/// The number of a day from 1970 on, where the calendar has it.
fn day_number(year: u32, month: u32, day: u32) -> Option<u64>
    requires years { year ≤ 9999 }
    requires months { month ≤ 99 }
    requires days { day ≤ 99 }
    ensures day { result ≡ day_number year month day }
    ensures few { IfSome result (λ d. d < 2 ^ 47) }
{
    match date_of(year, month, day) {
        Some(date) => Some(day_of(date)),
        None => None,
    }
}

/// The seconds since 1970 of a time from there on.
#[tactic(auto, unfolding(crate::specs::Time::seconds_of))]
fn seconds_of(moment: Moment) -> Option<u64>
    requires { IsMoment moment }
    ensures { result ≡ seconds_of moment }
{
    if moment.year < 1970
        || moment.year > 9999
        || moment.hour > 23
        || moment.minute > 59
        || moment.second > 59
    {
        return None;
    }
    let day = day_number(moment.year, moment.month, moment.day)?;
    Some(
        day * 86_400
            + u64::from(moment.hour) * 3600
            + u64::from(moment.minute) * 60
            + u64::from(moment.second),
    )
}

/// The seconds since 1970 that a text stands for.
#[tactic(auto, unfolding(crate::specs::Time::time_of))]
pub fn time_of(text: &[u8]) -> Option<u64>
    ensures { result ≡ time_of text.now }
{
    seconds_of(moment_in(text)?)
}
