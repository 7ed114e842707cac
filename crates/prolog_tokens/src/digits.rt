ghost use Rattle.std.specs.Prelude.{◌≡◌, ℕ, ◌-◌, ◌<◌, ◌≤◌, length, min, slice_index};
ghost use Rattle.std.specs.Char.{digit_value};
ghost use Rattle.prolog_tokens.specs.Digits.{number_at};

/// One more than the greatest value that `capped_number` returns as it is.
pub const CAP: u64 = 4_294_967_296;

/// The value of a digit or letter as a digit of a base of up to 36, and 36 for any other byte.
pub fn digit_of(byte: u8) -> u8
    ensures { result ≡ digit_value byte }
{
    match byte {
        b'0'..=b'9' => byte - b'0',
        b'A'..=b'Z' => byte - 55,
        b'a'..=b'z' => byte - 87,
        _ => 36,
    }
}

/// The end of the digits of a base from `from` on.
pub fn digits_end(bytes: &[u8], from: usize, base: u8) -> usize
    requires from { from ≤ length bytes.now }
    requires base { base ≤ 36 }
    ensures from { from ≤ result }
    ensures within { result ≤ length bytes.now }
    ensures digits { (k : ℕ) → from ≤ k → k < result → digit_value (slice_index bytes.now k) < base }
    ensures stops { base ≤ digit_value (slice_index bytes.now result) }
{
    let mut end = from;
    while end < bytes.len() {
        if digit_of(bytes[end]) >= base {
            return end;
        }
        end += 1;
    }
    end
}

/// The number that the digits from `from` to `to` write, but at most `CAP`.
pub fn capped_number(bytes: &[u8], from: usize, to: usize, base: u8) -> u64
    requires order { from ≤ to }
    requires within { to ≤ length bytes.now }
    requires base { 0 < base }
    ensures { result ≡ min (number_at base bytes.now from (to - from)) CAP }
{
    let mut number: u64 = 0;
    for at in from..to {
        number = (number * u64::from(base) + u64::from(digit_of(bytes[at]))).min(CAP);
    }
    number
}
