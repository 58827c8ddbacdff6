//! A count that stays at its last value.

ghost use Rattle.std.specs.Prelude.{◌≡◌};
ghost use Rattle.css_io.specs.Io.{next_count};

/// The count after one more; it stays at its last value.
pub fn next_count_of(count: u64) -> u64
    ensures { result ≡ next_count count }
{
    count.saturating_add(1)
}
