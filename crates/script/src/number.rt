//! Decimal numbers.
ghost use Rattle.std.specs.Prelude.{◌≡◌, ◌≤◌, ◌+◌, ◌*◌, ◌-◌, ℕ, true, IfSome, IfNone};
ghost use Rattle.script.specs.Lines.{IsDecimal, AreDigits, value_from, is_digit};
ghost use Rattle.script.specs.Faults.{IsSmallNumber};

/// The greatest number that a script may have, and the greatest length of a script.
pub const MOST_BYTES: usize = 4_194_304;

fn is_digit(byte: u8) -> bool
    ensures { result ≡ is_digit byte }
{
    matches!(byte, b'0'..=b'9')
}

/// The number that these digits write, if it is one and not too great.
pub(crate) fn small_number(digits: &[u8]) -> Option<usize>
    ensures some { IfSome result (λ n. IsDecimal digits.now n × (n ≤ 4194304)) }
    ensures none { IfNone result (IsSmallNumber digits.now → ⊥) }
{
    match digits {
        [] => None,
        [b'0', _next, _rest @ ..] => None,
        _ => digits_value(digits),
    }
}

fn digits_value(digits: &[u8]) -> Option<usize>
    ensures some { IfSome result
        (λ n. AreDigits digits.now × (n ≡ value_from 0 digits.now) × (n ≤ 4194304)) }
    ensures none { IfNone result (AreDigits digits.now → value_from 0 digits.now ≤ 4194304 → ⊥) }
{
    let mut value = 0;
    for digit in digits {
        if !is_digit(*digit) {
            return None;
        }
        value = 10 * value + (*digit - b'0') as usize;
        if value > MOST_BYTES {
            return None;
        }
    }
    Some(value)
}
