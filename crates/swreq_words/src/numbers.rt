//! The numbers of the words.

ghost use Rattle.std.specs.{Prelude.{◌≡◌, true}, Char.{is_ascii_digit}, List.{list_all}, Str.Parse.{digits_value}};
ghost use Rattle.swreq_words.specs.Numbers.{are_few_digits, is_number, number_of};

fn are_digits(bytes: &[u8]) -> bool
    ensures { result ≡ list_all is_ascii_digit bytes.now }
{
    bytes.iter().all(|byte| byte.is_ascii_digit())
}

fn are_few_digits(text: &str) -> bool
    ensures { result ≡ are_few_digits text.now }
{
    match text.len() {
        1..=6 => are_digits(text.as_bytes()),
        _ => false,
    }
}

// The number of 1 to 6 digits.
fn value_of(digits: &str) -> u32
    requires { are_few_digits digits.now ≡ true }
    ensures { result ≡ digits_value 10 digits.now }
{
    digits.parse().unwrap_or(0)
}

/// The number of 1 to 6 digits, and 0 of any other text.
pub(crate) fn number_of(text: &str) -> u32
    ensures { result ≡ number_of text.now }
{
    if are_few_digits(text) {
        value_of(text)
    } else {
        0
    }
}

/// Whether the text is a number of at least 1 and at most `greatest`.
pub(crate) fn is_number(text: &str, greatest: u32) -> bool
    ensures { result ≡ is_number greatest text.now }
{
    let number = number_of(text);
    1 <= number && number <= greatest
}
