//! Numbers in words.
ghost use Rattle.std.specs.Prelude.{◌≡◌, ◌≤◌, IfSome};
ghost use Rattle.std.specs.List.{list_all};
ghost use Rattle.command_words.specs.Numbers.{begins_with_zero, is_decimal, is_number, number_between};

fn is_decimal(byte: u8) -> bool
    ensures { result ≡ is_decimal byte }
{
    b'0' <= byte && byte <= b'9'
}

fn begins_with_zero(bytes: &[u8]) -> bool
    ensures { result ≡ begins_with_zero bytes.now }
{
    match bytes.first() {
        Some(byte) => *byte == b'0',
        None => false,
    }
}

fn are_decimal(bytes: &[u8]) -> bool
    ensures { result ≡ list_all is_decimal bytes.now }
{
    bytes.iter().all(|byte| is_decimal(*byte))
}

// `0`, or digits without a leading zero.
fn is_number(text: &str) -> bool
    ensures { result ≡ is_number text.now }
{
    let bytes = text.as_bytes();
    0 < bytes.len() && (are_decimal(bytes) && (!begins_with_zero(bytes) || bytes.len() == 1))
}

/// The number that a text writes, where it is in a range.
pub fn number_between(text: &str, low: u64, high: u64) -> Option<u64>
    ensures value { result ≡ number_between low high text.now }
    ensures within { IfSome result (λ n. (low ≤ n) × (n ≤ high)) }
{
    if !is_number(text) {
        return None;
    }
    match text.parse::<u64>() {
        Ok(number) if low <= number && number <= high => Some(number),
        _ => None,
    }
}
