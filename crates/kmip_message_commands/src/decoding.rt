//! Hexadecimal in. It is without a table and without a test that ends the loop, so that the compiler
//! reads several digits at a time.
ghost use Rattle.std.specs.Prelude.{◌≡◌, ◌*◌, length, true, false, unwrap_or, Ok, IsErr};
ghost use Rattle.hex.specs.Hex.{decode_of, hex_digit_value};

/// What stands for the value of a byte that is no digit.
const NO_DIGIT: u8 = 255;

/// Reads each two digits, in either case, as a byte. Says whether all are digits: where one is none,
/// the bytes mean nothing.
pub(crate) fn read_digits(digits: &[u8], bytes: &mut [u8]) -> bool
    requires { length digits.now ≡ 2 * length bytes.old }
    ensures read { result ≡ true → decode_of digits.now ≡ Ok bytes.new }
    ensures refused { result ≡ false → IsErr (decode_of digits.now) }
{
    let mut are_digits = true;
    'bytes: for i in 0..bytes.len() {
        let high = value_of(digits[2 * i]);
        let low = value_of(digits[2 * i + 1]);
        bytes[i] = high.wrapping_mul(16).wrapping_add(low);
        are_digits &= high < 16;
        are_digits &= low < 16;
    }
    are_digits
}

/// The number that a digit stands for, in either case; of any other byte `NO_DIGIT`.
fn value_of(digit: u8) -> u8
    ensures { result ≡ unwrap_or (hex_digit_value digit) 255 }
{
    let number = digit.wrapping_sub(b'0');
    let upper = digit.wrapping_sub(b'A');
    let lower = digit.wrapping_sub(b'a');
    let mut value = NO_DIGIT;
    if lower < 6 {
        value = lower + 10;
    }
    if upper < 6 {
        value = upper + 10;
    }
    if number < 10 {
        value = number;
    }
    value
}
