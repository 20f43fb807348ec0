//! Hexadecimal out. It is without a table and without a test that ends the loop, so that the compiler
//! makes the digits of several bytes at a time.
ghost use Rattle.std.specs.Prelude.{◌≡◌, ◌*◌, ◌<◌, length, slice_index};
ghost use Rattle.hex.specs.Hex.{encode_lower, lower_digits};

/// Writes each byte as two digits, in lower case.
pub(crate) fn write_digits(bytes: &[u8], digits: &mut [u8])
    requires { length digits.old ≡ 2 * length bytes.now }
    ensures { digits.new ≡ encode_lower bytes.now }
{
    'bytes: for i in 0..bytes.len() {
        let byte = bytes[i];
        let high = digit_of(byte / 16);
        let low = digit_of(byte % 16);
        digits[2 * i] = high;
        digits[2 * i + 1] = low;
    }
}

/// The digit of a number below 16, in lower case.
fn digit_of(number: u8) -> u8
    requires { number < 16 }
    ensures { result ≡ slice_index lower_digits number }
{
    if number < 10 {
        b'0' + number
    } else {
        b'a' + (number - 10)
    }
}
