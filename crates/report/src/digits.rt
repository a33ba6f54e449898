//! Digits of numbers.

ghost use Rattle.std.specs.Prelude.{◌≡◌, ◌<◌, [], ◌∷◌};
ghost use Rattle.report.specs.Digits.{hex_digit, byte_digits, decimal_digits, digits_of};

/// One digit to base sixteen, in lower case.
fn hex_digit(n: u8) -> u8
    requires { n < 16 }
    ensures { result ≡ hex_digit n }
{
    if n < 10 { b'0' + n } else { b'a' + (n - 10) }
}

/// A byte as two digits to base sixteen.
// By hand, and no `Display`: the contract pins both digits, and they are wanted as an array.
pub fn byte_digits(byte: u8) -> [u8; 2]
    ensures { result ≡ byte_digits byte }
{
    [hex_digit(byte / 16), hex_digit(byte % 16)]
}

/// A number as its last N digits to base ten.
pub fn last_digits<const N: usize>(number: u16) -> [u8; N]
    ensures { result ≡ digits_of N number }
{
    let mut digits = [b'0'; N];
    let mut left = number;
    // by index, since a proof knows no element behind `iter_mut().rev()`
    for place in (0..N).rev() {
        digits[place] = b'0' + (left % 10) as u8;
        left /= 10;
    }
    digits
}

/// A number as five digits to base ten.
pub fn decimal_digits(n: u16) -> [u8; 5]
    ensures { result ≡ decimal_digits n }
{
    last_digits(n)
}
