// A word's bytes as a number: one to nine decimal digits, with an optional minus.
ghost use Rattle.std.specs.Prelude.{◌≡◌, true, false, not, ◌<◌, MatchOption};
ghost use Rattle.paper.specs.Faults.{outside};
ghost use Rattle.paper.specs.Off.{is_number, value_after, value_of};
ghost use Rattle.off_words.specs.digits.Decimal.{is_decimal};

// The most digits of a number.
const MOST_DIGITS: usize = 9;

// Whether a number may have so many digits.
fn may_have(digits: usize) -> bool
    ensures { result ≡ not (outside 1 9 digits) }
{
    (1..=MOST_DIGITS).contains(&digits)
}

// The number that the digits are, if there are neither too few nor too many and nothing else stands among them.
fn decimal(digits: &[u8]) -> Option<u32>
    ensures { MatchOption result (is_decimal digits.now ≡ false) (λ n. (is_decimal digits.now ≡ true) × (n ≡ value_after 0 digits.now) × (n < 1000000000)) }
{
    if !may_have(digits.len()) {
        return None;
    }
    let mut n = 0;
    for byte in digits {
        if !byte.is_ascii_digit() {
            return None;
        }
        n = 10 * n + u32::from(*byte - b'0');
    }
    Some(n)
}

// The number that the word is, if it is one.
pub(crate) fn number(word: &[u8]) -> Option<i32>
    ensures { MatchOption result (is_number word.now ≡ false) (λ z. (is_number word.now ≡ true) × (z ≡ value_of word.now)) }
{
    match word.strip_prefix(b"-") {
        Some(digits) => Some(-decimal(digits)?.cast_signed()),
        None => Some(decimal(word)?.cast_signed()),
    }
}
