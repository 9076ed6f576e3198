ghost use Rattle.std.specs.Prelude.{◌≡◌, ℕ, ℤ, Option, min};
ghost use Rattle.orders.specs.Spelling.{decimal_of, date_of, generation_of, above_zero, below_zero};

use crate::from_text::FromText;
use lines::starts_with;

/// A number: decimal digits, one or more of them; one past the largest u64 counts as that.
impl FromText for usize {
    ghost Meaning = { ℕ };

    ghost means = { λ n. n };

    ghost spells = { decimal_of };

    fn from_text(text: &[u8]) -> Option<usize> {
        decimal(text).map(|number| number as usize)
    }
}

/// A date, in seconds: digits, with a `-` before them where it is negative; one past the range of i64 counts as the
/// nearest end of that range.
impl FromText for i64 {
    ghost Meaning = { ℤ };

    ghost means = { λ d. d };

    ghost spells = { date_of };

    fn from_text(text: &[u8]) -> Option<i64> {
        match text {
            [_, digits @ ..] if starts_with(text, b'-') => decimal(digits).map(below_zero),
            _ => decimal(text).map(above_zero),
        }
    }
}

/// A generation: a number, where one past the largest u32 counts as that, or `-` where there is none.
impl FromText for Option<u32> {
    ghost Meaning = { Option ℕ };

    ghost means = { λ g. g };

    ghost spells = { generation_of };

    fn from_text(text: &[u8]) -> Option<Option<u32>> {
        match text {
            b"-" => Some(None),
            _ => decimal(text).map(|number| Some(narrow(number))),
        }
    }
}

/// The number that decimal digits spell, one or more of them; a number past the largest u64 counts as that.
pub(crate) fn decimal(text: &[u8]) -> Option<u64>
    ensures { result ≡ decimal_of text.now }
{
    if text.is_empty() || !text.iter().all(|byte| byte.is_ascii_digit()) {
        return None;
    }
    Some(
        text.iter().fold(0u64, |value, byte| {
            value
                .saturating_mul(10)
                .saturating_add(u64::from(byte - b'0'))
        }),
    )
}

fn above_zero(size: u64) -> i64
    ensures { result ≡ above_zero size }
{
    0i64.saturating_add_unsigned(size)
}

fn below_zero(size: u64) -> i64
    ensures { result ≡ below_zero size }
{
    0i64.saturating_sub_unsigned(size)
}

fn narrow(value: u64) -> u32
    ensures { result ≡ min value 4294967295 }
{
    u32::try_from(value).unwrap_or(u32::MAX)
}
