//! Rates of work in a time.
use std::time::Duration;

/// Returns the number of things in a second, of so many in this time.
pub(crate) fn a_second(count: u64, time: Duration) -> u64 {
    let micros = time
        .as_secs()
        .saturating_mul(1_000_000)
        .saturating_add(u64::from(time.subsec_micros()));
    count.saturating_mul(1_000_000) / micros.max(1)
}

/// Returns the nanoseconds for each of so many things.
pub(crate) fn nanos_each(count: u64, time: Duration) -> u64 {
    let nanos = time
        .as_secs()
        .saturating_mul(1_000_000_000)
        .saturating_add(u64::from(time.subsec_nanos()));
    nanos / count.max(1)
}
