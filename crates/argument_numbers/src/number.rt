ghost use Rattle.std.specs.Prelude.{◌≡◌, ◌↔◌, ℕ, IsTrue, MatchOption};
ghost use Rattle.argument_numbers.specs.Numbers.{IsNumber, IsNumberIn};

/// The most digits of a number.
const MOST_DIGITS: usize = 20;

/// Whether the text is one to twenty digits.
fn is_number(text: &str) -> bool
    ensures { IsTrue result ↔ IsNumber text.now }
{
    let bytes = text.as_bytes();
    if bytes.is_empty() {
        return false;
    }
    if bytes.len() > MOST_DIGITS {
        return false;
    }
    bytes.iter().all(|byte| byte.is_ascii_digit())
}

/// The number that the text writes, if it is from `low` to `high`.
pub fn read_number(text: &str, low: u64, high: u64) -> Option<u64>
    ensures { MatchOption result ((n : ℕ) → IsNumberIn low high text.now n → ⊥) (λ n. IsNumberIn low high text.now n) }
{
    if !is_number(text) {
        return None;
    }
    let Ok(number) = text.parse::<u64>() else {
        return None;
    };
    if number < low {
        return None;
    }
    if number > high {
        return None;
    }
    Some(number)
}
