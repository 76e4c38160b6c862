//! Quantities: a decimal number, spaces and a unit.

ghost use Rattle.std.specs.Prelude.{◌≡◌, ◌+◌, ◌*◌, ◌-◌, ◌/◌, ◌<◌, ◌≤◌, ◌^◌, length, drop, max, IfSome, IfOk, MatchResult};
ghost use Rattle.ss_units.specs.Units.{digits, number, unspaced, ps, period, bits, rate, flit_ps, times, IsRead, factor_in, time_units, frequency_units, size_units, rate_units, whole, fraction, rest, in_range, is_digit as digit_test};

use thiserror::Error;

/// The latest time, in picoseconds.
const MOST_PS: u64 = 1 << 62;

/// The longest period, in picoseconds.
const MOST_PERIOD: u64 = 1 << 40;

/// The highest frequency, in hertz.
const MOST_HERTZ: u64 = 1_000_000_000_000_000;

/// The largest size, in bits.
const MOST_BITS: u64 = 1 << 50;

/// The highest rate, in bits per second.
const MOST_RATE: u64 = 1_000_000_000_000_000;

/// The picoseconds of a second.
const SECOND: u64 = 1_000_000_000_000;

/// Why a text is no quantity. The variants stand in the order in which they are judged.
#[derive(Clone, Copy, Debug, PartialEq, Eq, Drop, Error)]
pub enum UnitFault {
    #[error("the text doesn't begin with a decimal number")]
    NotNumber,
    #[error("the number isn't followed by a unit that is known here")]
    UnknownUnit,
    #[error("the quantity isn't a whole number")]
    NotWhole,
    #[error("the quantity is too small or too large")]
    OutOfRange,
}

fn is_digit(b: u8) -> bool
    ensures { result ≡ digit_test b }
{
    b >= 48 && b <= 57
}

/// The digits from `from` on, `most` at most: where they end, and the number that they write behind `before`.
fn digits_at(text: &[u8], from: usize, most: usize, before: u128) -> (usize, u128)
    requires within { from ≤ length text.now }
    requires few { most ≤ 24 }
    requires small { before < 10 ^ (24 - most) }
    ensures end { result.0 ≡ from + length (digits (drop from text.now) most) }
    ensures fits { result.0 ≤ length text.now }
    ensures value { result.1 ≡ number before (digits (drop from text.now) most) }
    ensures few { length (digits (drop from text.now) most) ≤ most }
    ensures bound { result.1 < 10 ^ (24 - most + length (digits (drop from text.now) most)) }
{
    let mut at = from;
    let mut left = most;
    let mut value = before;
    while left > 0 {
        if at == text.len() {
            return (at, value);
        }
        let b = text[at];
        if !is_digit(b) {
            return (at, value);
        }
        value = value * 10 + (b - 48) as u128;
        at += 1;
        left -= 1;
    }
    (at, value)
}

/// Where the spaces from `from` on end.
fn spaces_at(text: &[u8], from: usize) -> usize
    requires { from ≤ length text.now }
    ensures rest { drop result text.now ≡ unspaced (drop from text.now) }
    ensures fits { result ≤ length text.now }
{
    let mut at = from;
    while at < text.len() {
        if text[at] != 32 {
            return at;
        }
        at += 1;
    }
    at
}

/// The factor of a unit of time, in picoseconds.
fn time_factor(unit: &[u8]) -> Option<u64>
    ensures value { result ≡ factor_in time_units unit.now }
    ensures fits { IfSome result (λ f. f ≤ 10 ^ 12) }
{
    match unit {
        b"ps" => Some(1),
        b"ns" => Some(1_000),
        b"us" => Some(1_000_000),
        b"ms" => Some(1_000_000_000),
        b"s" => Some(1_000_000_000_000),
        _ => None,
    }
}

/// The factor of a unit of frequency, in hertz.
fn frequency_factor(unit: &[u8]) -> Option<u64>
    ensures value { result ≡ factor_in frequency_units unit.now }
    ensures fits { IfSome result (λ f. f ≤ 10 ^ 12) }
{
    match unit {
        b"Hz" => Some(1),
        b"kHz" => Some(1_000),
        b"KHz" => Some(1_000),
        b"MHz" => Some(1_000_000),
        b"GHz" => Some(1_000_000_000),
        _ => None,
    }
}

/// The factor of a unit of size, in bits.
fn size_factor(unit: &[u8]) -> Option<u64>
    ensures value { result ≡ factor_in size_units unit.now }
    ensures fits { IfSome result (λ f. f ≤ 10 ^ 12) }
{
    match unit {
        b"b" => Some(1),
        b"B" => Some(8),
        b"kB" => Some(8_000),
        b"KB" => Some(8_000),
        b"MB" => Some(8_000_000),
        b"GB" => Some(8_000_000_000),
        b"KiB" => Some(8_192),
        b"MiB" => Some(8_388_608),
        b"GiB" => Some(8_589_934_592),
        _ => None,
    }
}

/// The factor of a unit of rate, in bits per second.
fn rate_factor(unit: &[u8]) -> Option<u64>
    ensures value { result ≡ factor_in rate_units unit.now }
    ensures fits { IfSome result (λ f. f ≤ 10 ^ 12) }
{
    match unit {
        b"b/s" => Some(1),
        b"kb/s" => Some(1_000),
        b"Kb/s" => Some(1_000),
        b"Mb/s" => Some(1_000_000),
        b"Gb/s" => Some(1_000_000_000),
        b"B/s" => Some(8),
        b"kB/s" => Some(8_000),
        b"KB/s" => Some(8_000),
        b"MB/s" => Some(8_000_000),
        b"GB/s" => Some(8_000_000_000),
        _ => None,
    }
}

/// A number of a text: where it ends, its digits as one number, and how many stand behind its point.
#[derive(Clone, Copy)]
struct Decimal {
    end: usize,
    value: u128,
    places: u32,
}

/// The number of a text whose digits in front of a point end at `end` and write `front`.
fn decimal_at(text: &[u8], end: usize, front: u128) -> Decimal
    requires end { end ≡ length (whole text.now) }
    requires within { end ≤ length text.now }
    requires few { end ≤ 24 }
    requires small { front < 10 ^ end }
    ensures rest { drop result.end text.now ≡ rest text.now }
    ensures fits { result.end ≤ length text.now }
    ensures value { result.value ≡ number front (fraction text.now) }
    ensures places { result.places ≡ length (fraction text.now) }
    ensures few { result.places ≤ 24 }
    ensures bound { result.value < 10 ^ 24 }
{
    if end < text.len() && text[end] == 46 {
        let (stop, value) = digits_at(text, end + 1, 24 - end, front);
        if stop > end + 1 {
            return Decimal {
                end: stop,
                value,
                places: (stop - end - 1) as u32,
            };
        }
    }
    Decimal {
        end,
        value: front,
        places: 0,
    }
}

/// A quotient, where it is whole and in range.
fn quotient(above: u128, below: u128, least: u64, most: u64) -> Result<u64, UnitFault>
    requires { 0 < below }
    ensures { result ≡ in_range least most above below }
{
    if above % below != 0 {
        return Err(UnitFault::NotWhole);
    }
    let value = above / below;
    if value < least as u128 || value > most as u128 {
        return Err(UnitFault::OutOfRange);
    }
    Ok(value as u64)
}

/// A text's number, and where its unit begins.
#[derive(Clone, Copy)]
struct Quantity {
    value: u128,
    places: u32,
    unit_at: usize,
}

impl Quantity {
    /// Reads the number that a text begins with.
    fn read(text: &[u8]) -> Result<Quantity, UnitFault>
        ensures read { MatchResult result (λ q. IsRead text.now q.value q.places q.unit_at) (λ e. (length (whole text.now) ≡ 0) × (e ≡ UnitFault.NotNumber)) }
        ensures small { IfOk result (λ q. (q.value < 10 ^ 24) × (q.places ≤ 24)) }
    {
        let (end, front) = digits_at(text, 0, 24, 0);
        if end == 0 {
            return Err(UnitFault::NotNumber);
        }
        let decimal = decimal_at(text, end, front);
        Ok(Quantity {
            value: decimal.value,
            places: decimal.places,
            unit_at: spaces_at(text, decimal.end),
        })
    }

    /// The number in a unit of this factor.
    fn times(self, factor: Option<u64>, least: u64, most: u64) -> Result<u64, UnitFault>
        requires small { (self.value < 10 ^ 24) × (self.places ≤ 24) }
        requires fits { IfSome factor (λ f. f ≤ 10 ^ 12) }
        ensures { result ≡ times least most self.value self.places factor }
    {
        match factor {
            None => Err(UnitFault::UnknownUnit),
            Some(factor) => quotient(
                self.value * factor as u128,
                10u128.pow(self.places),
                least,
                most,
            ),
        }
    }
}

/// A time in picoseconds, from 0 to 2^62: a decimal number with at most 24 digits, any number of spaces, and one of the
/// units `ps`, `ns`, `us`, `ms` and `s`. The form is SST's; its ranges and the order of the refusals are this project's own.
pub fn ps_of(text: &[u8]) -> Result<u64, UnitFault>
    ensures { result ≡ ps text.now }
{
    let quantity = Quantity::read(text)?;
    quantity.times(time_factor(&text[quantity.unit_at..]), 0, MOST_PS)
}

/// A period in picoseconds, from 1 to 2^40. A text with a unit of time is the period itself. A text with one of the units
/// `Hz`, `kHz`, `KHz`, `MHz` and `GHz` is a frequency from 1 to 10^15 Hz, whose period is rounded down and is 1 at least.
pub fn period_of(text: &[u8]) -> Result<u64, UnitFault>
    ensures { result ≡ period text.now }
{
    let quantity = Quantity::read(text)?;
    let unit = &text[quantity.unit_at..];
    match time_factor(unit) {
        Some(factor) => quantity.times(Some(factor), 1, MOST_PERIOD),
        None => {
            let hertz = quantity.times(frequency_factor(unit), 1, MOST_HERTZ)?;
            Ok((SECOND / hertz).max(1))
        }
    }
}

/// A size in bits, from 1 to 2^50, in one of the units `b` and `B`, the latter also with `k`, `K`, `M` or `G` before it, or
/// with `Ki`, `Mi` or `Gi`.
pub fn bits_of(text: &[u8]) -> Result<u64, UnitFault>
    ensures { result ≡ bits text.now }
{
    let quantity = Quantity::read(text)?;
    quantity.times(size_factor(&text[quantity.unit_at..]), 1, MOST_BITS)
}

/// A rate in bits per second, from 1 to 10^15, in one of the units `b/s` and `B/s`, also with `k`, `K`, `M` or `G` before it.
pub fn rate_of(text: &[u8]) -> Result<u64, UnitFault>
    ensures { result ≡ rate text.now }
{
    let quantity = Quantity::read(text)?;
    quantity.times(rate_factor(&text[quantity.unit_at..]), 1, MOST_RATE)
}

/// How many picoseconds a flit of so many bits takes at a rate, rounded up. It is `OutOfRange` where either number is 0 or
/// the time is above 2^40 ps, and gives no other refusal. Merlin takes the flit's time from the same two numbers.
pub fn flit_time(flit_bits: u64, bits_per_second: u64) -> Result<u64, UnitFault>
    ensures { result ≡ flit_ps flit_bits bits_per_second }
{
    if flit_bits == 0 || bits_per_second == 0 {
        return Err(UnitFault::OutOfRange);
    }
    let time = (flit_bits as u128 * SECOND as u128).div_ceil(bits_per_second as u128);
    if time > MOST_PERIOD as u128 {
        return Err(UnitFault::OutOfRange);
    }
    Ok(time as u64)
}
