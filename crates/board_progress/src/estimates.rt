//! The numbers of the progress line (percentage, rate and time left), and the estimated duration of a change.
ghost use Rattle.std.specs.Prelude.{◌≡◌, ◌*◌, ◌<◌};
ghost use Rattle.board_progress.specs.Estimates.{capped, change_time, erase_time, minutes_in, percent_of, seconds_in};
ghost use Rattle.board_progress.specs.Estimates.{tenths_of, time_for};

use std::fmt;

/// Returns `done` as a percentage of `total`, rounded down and at most 100, or `None` if `total` is 0.
pub fn percent(done: u64, total: u64) -> Option<u64>
    ensures { result ≡ percent_of done total }
{
    if total == 0 {
        return None;
    }
    Some((u128::from(done) * 100 / u128::from(total)).min(100) as u64)
}

/// Returns the rate in tenths of a KiB per second, rounded down and at most `u64::MAX`, or `None` if `micros` is 0.
pub fn tenths_of_kib(bytes: u64, micros: u64) -> Option<u64>
    ensures { result ≡ tenths_of bytes micros }
{
    if micros == 0 {
        return None;
    }
    Some(cap(u128::from(bytes) * 10_000_000 / (u128::from(micros) * 1024)))
}

/// Returns `amount * micros / done`, rounded down and at most `u64::MAX`, or `None` if `done` is 0.
pub fn time_for(amount: u64, done: u64, micros: u64) -> Option<u64>
    ensures { result ≡ time_for amount done micros }
{
    if done == 0 {
        return None;
    }
    Some(cap(u128::from(amount) * u128::from(micros) / u128::from(done)))
}

/// Returns the typical time of a change in microseconds, without the time of transfers. It is calculated with the
/// typical times of the W25Q64FV datasheet (AC Electrical Characteristics):
/// - Each touched sector takes 16 page programs of 0.7 ms.
/// - A single erase for more than 16 touched sectors is a chip erase, which takes 20 s per 2,048 touched sectors.
/// - Other erases are of 64 KiB (150 ms) or 4 KiB (45 ms). The number of 64 KiB erases is `(touched - erases) / 15`,
///   rounded down, but at most `erases`.
pub fn change_micros(touched: u32, erases: u32) -> u64
    ensures { result ≡ change_time touched erases }
{
    erase_micros(touched, erases) + u64::from(touched) * 16 * 700
}

fn erase_micros(touched: u32, erases: u32) -> u64
    ensures value { result ≡ erase_time touched erases }
    ensures fits { result < 4294967296 * 150000 }
{
    if erases == 1 && touched > 16 {
        return u64::from(touched) * 20_000_000 / 2048;
    }
    let blocks = (touched.saturating_sub(erases) / 15).min(erases);
    u64::from(blocks) * 150_000 + u64::from(erases - blocks) * 45_000
}

fn cap(number: u128) -> u64
    ensures { result ≡ capped number }
{
    u64::try_from(number).unwrap_or(u64::MAX)
}

/// A time in microseconds, printed as minutes and seconds, rounded down, for example `1:05`.
#[derive(Clone, Copy, Drop)]
pub struct Minutes(pub u64);

impl fmt::Display for Minutes {
    fn fmt<W: fmt::Write>(&self, f: &mut fmt::Formatter<W>) -> fmt::Result {
        let (minutes, seconds) = split_minutes(self.0);
        write!(f, "{minutes}:{seconds:02}")
    }
}

fn split_minutes(micros: u64) -> (u64, u64)
    ensures minutes { result.0 ≡ minutes_in micros }
    ensures seconds { result.1 ≡ seconds_in micros }
{
    (micros / 60_000_000, micros / 1_000_000 % 60)
}

/// A rate in tenths of a KiB per second, printed for example as `11.2 KiB/s` or, from 100 KiB/s on, as `950 KiB/s`.
#[derive(Clone, Copy, Drop)]
pub struct Rate(pub u64);

impl fmt::Display for Rate {
    fn fmt<W: fmt::Write>(&self, f: &mut fmt::Formatter<W>) -> fmt::Result {
        let (whole, tenths) = (self.0 / 10, self.0 % 10);
        if whole < 100 {
            write!(f, "{whole}.{tenths} KiB/s")
        } else {
            write!(f, "{whole} KiB/s")
        }
    }
}
