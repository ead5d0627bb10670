//! Numbers, by their digits.
ghost use Rattle.std.specs.Prelude.{◌≡◌, ◌+◌, ◌-◌, ◌*◌, ◌^◌, if◌then◌else◌, option_map, pos, neg_ℤ};
ghost use Rattle.script_text.specs.Numbers.{is_digit, digits_of, below, number_limit, number_of, small_number_of};

/// The number that some digits and one more spell, where it is below 2^64.
fn with_digit(front: u64, digit: u8) -> Option<u64>
    ensures { result
        ≡ (if is_digit digit then below (2 ^ 64) (Some (10 * front + (digit - 48))) else None) }
{
    if digit < b'0' || digit > b'9' {
        return None;
    }
    front.checked_mul(10)?.checked_add(u64::from(digit - b'0'))
}

/// The number that one or more digits spell, where it is below 2^64.
fn digits(word: &[u8]) -> Option<u64>
    ensures { result ≡ below (2 ^ 64) (digits_of word.now) }
{
    if word.is_empty() {
        return None;
    }
    let mut value = 0;
    for digit in word {
        value = with_digit(value, *digit)?;
    }
    Some(value)
}

/// The negative of a size, where that fits.
fn negated(size: u64) -> Option<i64>
    ensures { result ≡ option_map (λ n. neg_ℤ (pos n)) (below (number_limit + 1) (Some size)) }
{
    if size == 1 << 63 {
        return Some(i64::MIN);
    }
    match i64::try_from(size) {
        Ok(n) => Some(-n),
        Err(_) => None,
    }
}

/// The signed number of 64 bits that an optional `-` and one or more digits spell.
pub(crate) fn number(word: &[u8]) -> Option<i64>
    ensures { result ≡ number_of word.now }
{
    match word {
        [b'-', size @ ..] => negated(digits(size)?),
        _ => i64::try_from(digits(word)?).ok(),
    }
}

/// The number of 32 bits that one or more digits spell.
pub(crate) fn small_number(word: &[u8]) -> Option<u32>
    ensures { result ≡ small_number_of word.now }
{
    u32::try_from(digits(word)?).ok()
}
