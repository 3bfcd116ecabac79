//! Numbers in decimal.

ghost use Rattle.std.specs.Prelude.{◌≡◌, ◌<◌, ◌^◌, ℕ, decimal};

/// The number of 32 bits that is written, or 0 where none is.
pub(crate) fn read_number(text: &[u8]) -> u32
    ensures { (n : ℕ) → n < 2 ^ 32 → text.now ≡ decimal n → result ≡ n }
{
    match str::from_utf8(text) {
        Ok(digits) => match digits.parse::<u32>() {
            Ok(n) => n,
            Err(_) => 0,
        },
        Err(_) => 0,
    }
}
