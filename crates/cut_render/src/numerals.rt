//! Numbers of 64 bits that words write.

ghost use Rattle.std.specs.Prelude.{◌≡◌, ◌≤◌, nat_le, Some, None, IfSome, if◌then◌else◌};
ghost use Rattle.plain_data.specs.Numbers as spec;

/// The number of a word of 1 to `digits` decimal digits, leading zeros among them, if it is at most `limit`.
pub(crate) fn read_long_number(word: &str, digits: usize, limit: u64) -> Option<u64>
    ensures number { result ≡ spec.number digits limit word.now }
    ensures most { IfSome result (λ number. number ≤ limit) }
{
    if !is_numeral(word, digits) {
        return None;
    }
    match word.parse::<u64>() {
        Ok(number) => at_most(number, limit),
        Err(_) => None,
    }
}

fn at_most(number: u64, limit: u64) -> Option<u64>
    ensures number { result ≡ (if nat_le number limit then Some number else None) }
    ensures most { IfSome result (λ number. number ≤ limit) }
{
    if number <= limit { Some(number) } else { None }
}

fn is_numeral(word: &str, digits: usize) -> bool
    ensures { result ≡ spec.is_numeral digits word.now }
{
    1 <= word.len() && word.len() <= digits && has_only_digits(word)
}

fn has_only_digits(word: &str) -> bool
    ensures { result ≡ spec.has_only_digits word.now }
{
    word.bytes().all(|byte| byte.is_ascii_digit())
}
