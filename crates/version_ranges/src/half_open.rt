//! A range of versions, and its end.
ghost use Rattle.std.specs.Prelude.{◌≡◌, ℕ, true, ◌&&◌, ◌||◌, not};
ghost use Rattle.version_ranges.specs.Members.{is_before, is_in};
ghost use Rattle.version_ranges.specs.Order.{ends_below};

/// The versions from `from` on, up to but not with `to`; without a `to` there is no end.
#[derive(Clone, Copy, Debug, PartialEq, Eq)]
pub struct Range {
    pub from: u64,
    pub to: Option<u64>,
}

impl Range {
    /// Whether the version lies in the range.
    pub fn contains(&self, version: u64) -> bool
        ensures { result ≡ is_in self.now version }
    {
        self.from <= version && is_before_end(version, self.to)
    }
}

/// Whether the version comes before the end.
pub(crate) fn is_before_end(version: u64, end: Option<u64>) -> bool
    ensures { result ≡ is_before version end }
{
    match end {
        None => true,
        Some(end) => version < end,
    }
}

/// Whether the end lies below the version, so that a range up to it does not touch one from there
/// on.
pub(crate) fn is_end_below(end: Option<u64>, version: u64) -> bool
    ensures { result ≡ ends_below end version }
{
    match end {
        None => false,
        Some(end) => end < version,
    }
}

/// The later of two ends.
pub(crate) fn later(a: Option<u64>, b: Option<u64>) -> Option<u64>
    ensures { (w : ℕ) → is_before w result ≡ (is_before w a || is_before w b) }
{
    match (a, b) {
        (Some(a), Some(b)) => Some(a.max(b)),
        _ => None,
    }
}

/// Whether the first end is no later than the second.
pub(crate) fn ends_by(a: Option<u64>, b: Option<u64>) -> bool
    ensures yes { result ≡ true → (w : ℕ) → is_before w a ≡ true → is_before w b ≡ true }
    ensures no { not result ≡ true → (w : ℕ) → is_before w b ≡ true → is_before w a ≡ true }
{
    match (a, b) {
        (Some(a), Some(b)) => a <= b,
        (None, Some(_)) => false,
        (_, None) => true,
    }
}

/// The earlier of two ends.
pub(crate) fn earlier(a: Option<u64>, b: Option<u64>) -> Option<u64>
    ensures { (w : ℕ) → is_before w result ≡ (is_before w a && is_before w b) }
{
    if ends_by(a, b) { a } else { b }
}
