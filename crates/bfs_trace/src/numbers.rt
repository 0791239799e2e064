ghost use Rattle.std.specs.Prelude.{◌≡◌, ◌≤◌, IfSome};
ghost use Rattle.bfs_trace.specs.Words.{digits_spelled, number_spelled, with_digit};

const DECIMAL: u32 = 10;

const OCTAL: u32 = 8;

/// The number with a digit behind it, or `None` where the byte is no digit of the radix or the number is above `max`.
#[tactic(auto, unfolding(crate::specs::Words::with_digit))]
fn with_digit(radix: u32, max: u64, value: u64, digit: u8) -> Option<u64>
    requires least { 2 ≤ radix }
    requires most { radix ≤ 10 }
    ensures value { result ≡ with_digit radix max value digit }
    ensures bound { IfSome result (λ n. n ≤ max) }
{
    let digit = char::from(digit).to_digit(radix)?;
    let longer = value.checked_mul(radix as u64)?.checked_add(digit as u64)?;
    if longer > max {
        return None;
    }
    Some(longer)
}

#[tactic(auto, unfolding(crate::proofs::Digits::number_after), using(crate::proofs::Digits::number_by_digits, crate::proofs::Digits::number_of_nothing, std::proofs::lemmas::List::at_drop_more, std::proofs::lemmas::List::at_drop_all))]
fn parse_digits(radix: u32, max: u64, word: &[u8]) -> Option<u64>
    requires least { 2 ≤ radix }
    requires most { radix ≤ 10 }
    ensures value { result ≡ digits_spelled radix max word.now }
    ensures bound { IfSome result (λ n. n ≤ max) }
{
    if word.is_empty() {
        return None;
    }
    let mut value = 0;
    for digit in word {
        value = with_digit(radix, max, value, *digit)?;
    }
    Some(value)
}

/// The number that one or more decimal digits spell, or `None` where it is above `max` or the word is no number.
pub(crate) fn parse_number(max: u64, word: &[u8]) -> Option<u64>
    ensures value { result ≡ number_spelled max word.now }
    ensures bound { IfSome result (λ n. n ≤ max) }
{
    parse_digits(DECIMAL, max, word)
}

/// The number that one or more octal digits spell, or `None` where it is above `max` or the word is no such number.
pub(crate) fn parse_octal(max: u64, word: &[u8]) -> Option<u64>
    ensures value { result ≡ digits_spelled 8 max word.now }
    ensures bound { IfSome result (λ n. n ≤ max) }
{
    parse_digits(OCTAL, max, word)
}
