//! The date of a moment.
ghost use Rattle.std.specs.Prelude.{◌≡◌, ◌<◌, ◌*◌, pos, neg_ℤ};
ghost use Rattle.jiff_core.specs.Calendar.{IsBetween};
ghost use Rattle.jiff_core.specs.DateTime.{civil_nanos};
ghost use Rattle.jb_text.specs.Date.{IsClockOf, IsTheClockOf, clock_of, clock_text, date_text, shown_seconds, two_digits};

use jiff::Timestamp;
use jiff::civil::DateTime;
use jiff::tz::Offset;

/// A date with a time of day.
#[derive(Clone, Copy)]
struct Clock {
    year: u16,
    month: u8,
    day: u8,
    hour: u8,
    minute: u8,
    second: u8,
}

/// The seconds since 1970 that are shown.
fn seconds_of(moment: u32, offset: i32) -> u64
    requires { IsBetween (neg_ℤ (pos 840)) (pos 840) offset }
    ensures value { result ≡ shown_seconds moment offset }
    ensures bound { result < 4_295_017_696 }
{
    (i64::from(moment) + i64::from(offset) * 60).max(0) as u64
}

/// The date and time so many seconds after the beginning of 1970.
fn civil_at(seconds: u64) -> DateTime
    requires { seconds < 4_295_017_696 }
    ensures { civil_nanos result ≡ pos (seconds * 1_000_000_000) }
{
    let instant = Timestamp::from_second(seconds as i64).unwrap();
    Offset::UTC.to_datetime(instant)
}

/// What a clock shows so many seconds after the beginning of 1970.
fn clock_at(seconds: u64) -> Clock
    requires { seconds < 4_295_017_696 }
    ensures value { result ≡ clock_of seconds }
    ensures calendar { IsClockOf seconds result }
    ensures short { result.year < 10_000 }
{
    let civil = civil_at(seconds);
    Clock {
        year: civil.year().unsigned_abs(),
        month: civil.month().unsigned_abs(),
        day: civil.day().unsigned_abs(),
        hour: civil.hour().unsigned_abs(),
        minute: civil.minute().unsigned_abs(),
        second: civil.second().unsigned_abs(),
    }
}

/// A number below 100 in two digits.
fn digits_of(number: u8) -> [u8; 2]
    requires { number < 100 }
    ensures { result ≡ two_digits number }
{
    [b'0' + number / 10, b'0' + number % 10]
}

/// The date and time as it is written.
fn text_of(clock: Clock) -> [u8; 19]
    requires year { clock.year < 10_000 }
    requires month { clock.month < 100 }
    requires day { clock.day < 100 }
    requires hour { clock.hour < 100 }
    requires minute { clock.minute < 100 }
    requires second { clock.second < 100 }
    ensures { result ≡ clock_text clock }
{
    let [thousands, hundreds] = digits_of((clock.year / 100) as u8);
    let [tens, ones] = digits_of((clock.year % 100) as u8);
    let month = digits_of(clock.month);
    let day = digits_of(clock.day);
    let hour = digits_of(clock.hour);
    let minute = digits_of(clock.minute);
    let second = digits_of(clock.second);
    [
        thousands, hundreds, tens, ones, b'-', month[0], month[1], b'-', day[0], day[1], b' ',
        hour[0], hour[1], b':', minute[0], minute[1], b':', second[0], second[1],
    ]
}

/// The date of a moment in seconds since 1970, as `2001-09-09 01:46:40`, for a reader whose clock is so many minutes ahead. A
/// moment that would lie before 1970 is shown as its beginning.
pub fn date(moment: u32, offset: i32) -> [u8; 19]
    requires { IsBetween (neg_ℤ (pos 840)) (pos 840) offset }
    ensures text { result ≡ date_text moment offset }

    // What is written is the one date of the calendar, and time of day, so many seconds after the beginning of 1970.
    ensures calendar { IsTheClockOf (shown_seconds moment offset) (clock_of (shown_seconds moment offset)) }
{
    text_of(clock_at(seconds_of(moment, offset)))
}
