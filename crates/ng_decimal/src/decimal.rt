// Reading a number.
ghost use Rattle.std.specs.Prelude.{◌≡◌, ◌≤◌, true, IfSome};
ghost use Rattle.std.specs.Char.{digit_value};
ghost use Rattle.ng_decimal.specs.Decimal.{digits_up_to, is_digit as is_a_digit, may_begin_number, number_from};

fn is_digit(byte: u8) -> bool
    ensures { result ≡ is_a_digit byte }
{
    byte >= b'0' && byte <= b'9'
}

// Whether a word may be a number as its front is: it isn't empty, and no zero stands in front of others.
fn begins_as_number(word: &[u8]) -> bool
    ensures { result ≡ may_begin_number word.now }
{
    match word {
        [] => false,
        [b'0'] => true,
        [b'0', ..] => false,
        _ => true,
    }
}

fn digit_of(byte: u8) -> u8
    requires { is_a_digit byte ≡ true }
    ensures value { result ≡ digit_value byte }
    ensures low { result ≤ 9 }
{
    byte - b'0'
}

// The number that a word of digits says, where it isn't greater than `most`; `None` too where a byte is no digit.
fn value_up_to(word: &[u8], most: u64) -> Option<u64>
    ensures { result ≡ digits_up_to most word.now }
{
    let mut number: u64 = 0;
    for byte in word {
        if !is_digit(*byte) {
            return None;
        }
        let digit = digit_of(*byte);
        number = number.checked_mul(10)?.checked_add(u64::from(digit))?;
        if number > most {
            return None;
        }
    }
    Some(number)
}

/// The number that a word says, where it is from `least` to `most`. `None` where the word isn't one or more decimal digits
/// without a sign and without a zero in front of others, or where its number is less or greater. Takes no memory.
pub fn read_decimal(word: &[u8], least: u64, most: u64) -> Option<u64>
    ensures value { result ≡ number_from least most word.now }
    ensures most { IfSome result (λ number. number ≤ most) }
{
    if !begins_as_number(word) {
        return None;
    }
    let number = value_up_to(word, most)?;
    if least <= number { Some(number) } else { None }
}
