//! Numbers read from decimal text.

ghost use Rattle.std.specs.Prelude.{◌≡◌, ◌+◌, ◌*◌, ◌^◌, ◌<◌};
ghost use Rattle.std.specs.Option.{SomeIff};
ghost use Rattle.mj_bytes.specs.Numbers.{decimal_of, bounded_value};

/// The number that a text writes in decimal digits, from 0 to 2^64 - 1. There is none where the text
/// is empty, has another byte than a digit (a sign, say), begins with `0` and goes on, or says
/// 2^64 or more.
pub fn read_number(text: &[u8]) -> Option<u64>
    ensures { result ≡ decimal_of text.now }
{
    match text {
        [] => None,
        [b'0', _, ..] => None,
        _ => value_of_digits(text),
    }
}

#[tactic(auto, using(crate::proofs::DigitLaws::digit_steps))]
fn value_of_digits(text: &[u8]) -> Option<u64>
    ensures { result ≡ bounded_value text.now }
{
    let mut value = 0;
    for byte in text {
        if !byte.is_ascii_digit() {
            return None;
        }
        let Some(longer) = with_digit(value, *byte - b'0') else {
            return None;
        };
        value = longer;
    }
    Some(value)
}

fn with_digit(value: u64, digit: u8) -> Option<u64>
    ensures { SomeIff result (value * 10 + digit < 2 ^ 64) (value * 10 + digit) }
{
    value.checked_mul(10)?.checked_add(u64::from(digit))
}
