//! Times of signatures (RFC 4034, section 3.2).

ghost use Rattle.std.specs.Prelude.{◌≡◌, ◌≤◌, ◌+◌, ◌*◌, ℕ, true, IfSome, IfNone, IfErr, length};
ghost use Rattle.dns_zone_tokens.specs.{Views.token_value, ZoneReads.ReadsAs, ZoneReads.WrongToken};
ghost use Rattle.dns_zone_rows.specs.Times.{IsDate, IsPart, IsTimeText, is_leap, month_days, days_to, is_date, is_time, date_seconds, time};

use dns_types::ParseError;
use dns_zone_tokens::{ZoneToken, number_of};

/// Reads a time without quotes: fourteen digits, which are year, month, day, hour, minute and second, or at most ten, which
/// are seconds since 1970. Any other token gives [`Message`](ParseError::Message) with the text `wrong`. Allocates nothing.
pub(crate) fn time_of(token: ZoneToken<'_>, wrong: &'static str) -> Result<u32, ParseError>
    ensures reads { ReadsAs time (λ n. n) result (token_value token.entry) }
    ensures why { IfErr result (WrongToken time (ParseError.Message wrong.entry) (token_value token.entry)) }
{
    if token.quoted {
        return Err(ParseError::Message(wrong));
    }
    match seconds_of(token.raw) {
        Some(seconds) => Ok(seconds),
        None => Err(ParseError::Message(wrong)),
    }
}

// The seconds since 1970 that a text says.
fn seconds_of(text: &[u8]) -> Option<u32>
    ensures some { IfSome result (λ n. IsTimeText n text.now) }
    ensures none { IfNone result ((n : ℕ) → IsTimeText n text.now → ⊥) }
{
    if text.len() == 14 {
        return seconds_of_date(text);
    }
    if text.len() > 10 {
        return None;
    }
    part(text, 0, text.len())
}

fn seconds_of_date(text: &[u8]) -> Option<u32>
    requires { length text.now ≡ 14 }
    ensures some { IfSome result (λ n. IsDate n text.now) }
    ensures none { IfNone result ((n : ℕ) → IsDate n text.now → ⊥) }
{
    let year = part(text, 0, 4)?;
    let month = part(text, 4, 2)?;
    let day = part(text, 6, 2)?;
    let hour = part(text, 8, 2)?;
    let minute = part(text, 10, 2)?;
    let second = part(text, 12, 2)?;
    seconds_to(year, month, day, hour, minute, second)
}

// The number of 32 bits that some digits are.
fn part(text: &[u8], start: usize, count: usize) -> Option<u32>
    requires { start + count ≤ length text.now }
    ensures some { IfSome result (λ n. IsPart text.now start count n) }
    ensures none { IfNone result ((n : ℕ) → IsPart text.now start count n → ⊥) }
{
    let token = ZoneToken {
        raw: &text[start..start + count],
        quoted: false,
        joined: false,
    };
    match number_of(token, 4, "") {
        Ok(number) => Some(number),
        Err(_) => None,
    }
}

// The days before each month of a year of 365 days.
static DAYS_BEFORE: [u32; 12] = [0, 31, 59, 90, 120, 151, 181, 212, 243, 273, 304, 334];

fn is_leap(year: u32) -> bool
    ensures { result ≡ is_leap year }
{
    year % 4 == 0 && (year % 100 >= 1 || year % 400 == 0)
}

fn month_days(year: u32, month: u32) -> u32
    ensures { result ≡ month_days year month }
{
    if month == 2 {
        return if is_leap(year) { 29 } else { 28 };
    }
    if month == 4 || month == 6 || month == 9 || month == 11 {
        return 30;
    }
    31
}

fn is_date(year: u32, month: u32, day: u32) -> bool
    ensures { result ≡ is_date year month day }
{
    year >= 1 && month >= 1 && month <= 12 && day >= 1 && day <= month_days(year, month)
}

fn is_time(hour: u32, minute: u32, second: u32) -> bool
    ensures { result ≡ is_time hour minute second }
{
    hour <= 23 && minute <= 59 && second <= 59
}

fn days_to(year: u32, month: u32, day: u32) -> u64
    requires { is_date year month day ≡ true }
    ensures days { result ≡ days_to year month day }
    ensures small { result ≤ 366 * year + 400 + day }
{
    let years = (year - 1) as u64;
    let leap = if month >= 3 && is_leap(year) { 1 } else { 0 };
    let before = DAYS_BEFORE[(month - 1) as usize] as u64;
    365 * years + years / 4 + years / 400 - years / 100 + before + leap + (day - 1) as u64
}

// The seconds since 1970 of a time, modulo 2 to the power 32; `None` if there is no such time.
fn seconds_to(year: u32, month: u32, day: u32, hour: u32, minute: u32, second: u32) -> Option<u32>
    ensures { result ≡ date_seconds year month day hour minute second }
{
    if !is_date(year, month, day) || !is_time(hour, minute, second) {
        return None;
    }
    let days = days_to(year, month, day);
    let seconds = 3600 * hour as u64 + 60 * minute as u64 + second as u64;
    Some(((86400 * days + seconds + 2288912640) % 4294967296) as u32)
}
