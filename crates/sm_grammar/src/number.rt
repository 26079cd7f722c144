ghost use Rattle.std.specs.Prelude.{◌≡◌, ◌<◌, ◌≤◌, ◌^◌, true, length, Some, None};
ghost use Rattle.std.specs.Option.{SomeIff};
ghost use Rattle.sm_grammar.specs.Number.{place_value, all_digits, number_of, number_within};

/// The number that one to ten decimal digits stand for, up to 4,294,967,295.
pub fn read_number(text: &[u8]) -> Option<u32>
    ensures { result ≡ number_of text.now }
{
    if text.is_empty() || text.len() > 10 || !are_digits(text) {
        return None;
    }
    value_of(text)
}

/// The same for a number from `low` to `high`.
pub fn read_within(low: u32, high: u32, text: &[u8]) -> Option<u32>
    ensures { result ≡ number_within low high text.now }
{
    let number = read_number(text)?;
    if low <= number && number <= high {
        Some(number)
    } else {
        None
    }
}

fn are_digits(text: &[u8]) -> bool
    ensures { result ≡ all_digits text.now }
{
    text.iter().all(|b| b.is_ascii_digit())
}

/// What digits stand for, where it fits 32 bits.
fn value_of(text: &[u8]) -> Option<u32>
    requires { all_digits text.now ≡ true }
    ensures { SomeIff result (place_value text.now < 2 ^ 32) (place_value text.now) }
{
    let mut value = 0u64;
    let mut rest = text;
    while let [digit, more @ ..] = rest {
        if value >= 1 << 32 {
            return None;
        }
        value = 10 * value + u64::from(*digit - b'0');
        rest = more;
    }
    u32::try_from(value).ok()
}
