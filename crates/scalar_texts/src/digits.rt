//! Numbers as times, amounts and dates, appended to a text.

ghost use Rattle.std.specs.Prelude.{◌≡◌, ◌<◌, ◌+◌, ◌∷◌, ◌++◌, ◌/◌, ◌^◌, IfOk, OnOk};
ghost use Rattle.scalar_texts.specs.Numbers.{Writes, WritesDate, amount_text, clock_text, date_text, decimal_text, digits_text, time_text};

use itoa::Buffer;
use jiff_core::civil::Date;
use std::alloc::AllocError;

/// A digit.
pub fn digit(n: u64) -> u8
    requires { n < 10 }
    ensures { result ≡ 48 + n }
{
    b'0' + n as u8
}

/// Appends the last digits of a number, that many.
fn push_digits(out: &mut Vec<u8>, count: u8, n: u64) -> Result<(), AllocError>
    ensures { OnOk result (out.new.items ≡ out.old.items ++ digits_text count n) }
{
    if count == 0 {
        return Ok(());
    }
    push_digits(out, count - 1, n / 10)?;
    out.push(digit(n % 10))?;
    Ok(())
}

/// Appends three numbers with a byte between them: the first with that many digits, the others with two.
fn push_three(
    out: &mut Vec<u8>,
    between: u8,
    count: u8,
    first: u64,
    second: u64,
    third: u64,
) -> Result<(), AllocError>
    ensures { OnOk result (out.new.items ≡ out.old.items
        ++ (digits_text count first ++ between ∷ (digits_text 2 second ++ between ∷ digits_text 2 third))) }
{
    push_digits(out, count, first)?;
    out.push(between)?;
    push_digits(out, 2, second)?;
    out.push(between)?;
    push_digits(out, 2, third)
}

/// Appends the time of day after that many seconds.
fn push_clock(out: &mut Vec<u8>, seconds: u64) -> Result<(), AllocError>
    ensures { OnOk result (out.new.items ≡ out.old.items ++ clock_text seconds) }
{
    push_three(
        out,
        b':',
        2,
        seconds / 3600,
        seconds / 60 % 60,
        seconds % 60,
    )
}

/// Appends the time of day that a number stands for, and says whether it stands for one.
pub fn push_time(out: &mut Vec<u8>, z: i64) -> Result<bool, AllocError>
    ensures { IfOk result (Writes (time_text z) out.old.items out.new.items) }
{
    let Ok(seconds) = u64::try_from(z) else {
        return Ok(false);
    };
    if seconds < 86_400 {
        push_clock(out, seconds)?;
        Ok(true)
    } else {
        Ok(false)
    }
}

/// The wholes of an amount.
pub fn whole_of(places: u8, parts: u64) -> u64
    ensures { result ≡ parts / 10 ^ places }
{
    match 10u64.checked_pow(u32::from(places)) {
        Some(scale) if 0 < scale => parts / scale,
        _ => 0,
    }
}

/// Appends an amount of that many parts.
fn push_amount(out: &mut Vec<u8>, places: u8, parts: u64) -> Result<(), AllocError>
    ensures { OnOk result (out.new.items ≡ out.old.items ++ amount_text places parts) }
{
    let mut buffer = Buffer::new();
    out.extend_from_slice(buffer.format(whole_of(places, parts)).as_bytes())?;
    out.push(b'.')?;
    push_digits(out, places, parts)
}

/// Appends the number with that many digits after the point.
pub fn push_decimal(out: &mut Vec<u8>, places: u8, z: i64) -> Result<(), AllocError>
    ensures { OnOk result (out.new.items ≡ out.old.items ++ decimal_text places z) }
{
    if z < 0 {
        out.push(b'-')?;
    }
    push_amount(out, places, z.unsigned_abs())
}

/// Appends a date, and says whether it is one of the years 0 to 9999.
fn push_civil(out: &mut Vec<u8>, date: Date) -> Result<bool, AllocError>
    ensures { IfOk result (Writes (date_text date.year date.month date.day) out.old.items out.new.items) }
{
    let Ok(year) = u64::try_from(date.year) else {
        return Ok(false);
    };
    push_three(
        out,
        b'-',
        4,
        year,
        u64::from(date.month),
        u64::from(date.day),
    )?;
    Ok(true)
}

/// Appends the day of that number, and says whether it is one of the years 0 to 9999.
pub fn push_date(out: &mut Vec<u8>, z: i64) -> Result<bool, AllocError>
    ensures { IfOk result (WritesDate z out.old.items out.new.items) }
{
    let Ok(date) = Date::from_unix_epoch_day(z) else {
        return Ok(false);
    };
    push_civil(out, date)
}
