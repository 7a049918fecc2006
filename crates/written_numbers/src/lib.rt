// Numbers in decimal and in hex, written behind a text.
#![tactic(auto)]

ghost use Rattle.std.specs.Prelude.{◌≡◌, map, ◌*◌, length};
ghost use Rattle.numerals.specs.Digits.{digit_char, digits, trimmed, AllBelow, decimal_of, hex_of, byte_hex, bytes_hex};
ghost use Rattle.numerals.specs.Widths.{decimal_places, hex_places};
ghost use Rattle.text.specs.Wrote.{HasRoom, Wrote};

use text::Text;

// Writes a number in decimal.
pub fn put_decimal(text: &mut Text<'_>, n: u32)
    requires { HasRoom decimal_places text.old }
    ensures { Wrote decimal_places text.old (decimal_of n) text.new }
{
    let mut rest = n;
    for place in (1..numerals::first_place(n) + 1).rev() {
        let high = numerals::subtract_power(rest, numerals::power_of_ten(place));
        text.put_char(numerals::decimal_char(high.digit));
        rest = high.rest;
    }
    // The last digit is what is left.
    text.put_char(numerals::decimal_char(rest as u8));
}

// Writes digits, all of them.
fn put_digits(text: &mut Text<'_>, digits: &[u8])
    requires has_room { HasRoom (length digits.now) text.old }
    requires all_below { AllBelow 16 digits.now }
    ensures { Wrote (length digits.now) text.old (map digit_char digits.now) text.new }
{
    for digit in digits {
        text.put_char(numerals::digit_char(*digit));
    }
}

// Writes digits without leading zeros.
fn put_trimmed(text: &mut Text<'_>, digits: &[u8])
    requires has_room { HasRoom (length digits.now) text.old }
    requires all_below { AllBelow 16 digits.now }
    ensures { Wrote (length digits.now) text.old (map digit_char (trimmed digits.now)) text.new }
{
    let skipped = numerals::leading_zeros(digits);
    put_digits(text, &digits[skipped..]);
}

// The hex digits of a number, the highest place first.
#[tactic(auto, unfolding(numerals::specs::Digits::digits))]
fn hex_digits(n: u64) -> [u8; numerals::HEX_PLACES]
    ensures { result ≡ digits 16 hex_places n }
{
    // Written out: the proof over `array::from_fn` does not close.
    [
        (n >> 60 & 0xf) as u8,
        (n >> 56 & 0xf) as u8,
        (n >> 52 & 0xf) as u8,
        (n >> 48 & 0xf) as u8,
        (n >> 44 & 0xf) as u8,
        (n >> 40 & 0xf) as u8,
        (n >> 36 & 0xf) as u8,
        (n >> 32 & 0xf) as u8,
        (n >> 28 & 0xf) as u8,
        (n >> 24 & 0xf) as u8,
        (n >> 20 & 0xf) as u8,
        (n >> 16 & 0xf) as u8,
        (n >> 12 & 0xf) as u8,
        (n >> 8 & 0xf) as u8,
        (n >> 4 & 0xf) as u8,
        (n & 0xf) as u8,
    ]
}

// Writes a number in hex.
pub fn put_hex(text: &mut Text<'_>, n: u64)
    requires { HasRoom hex_places text.old }
    ensures { Wrote hex_places text.old (hex_of n) text.new }
{
    let digits = hex_digits(n);
    put_trimmed(text, &digits);
}

// Writes a byte as two hex digits.
#[tactic(auto, unfolding(numerals::specs::Digits::digits, numerals::specs::Digits::byte_hex))]
pub fn put_byte(text: &mut Text<'_>, byte: u8)
    requires { HasRoom 2 text.old }
    ensures { Wrote 2 text.old (byte_hex byte) text.new }
{
    let digits = [byte >> 4, byte & 0xf];
    put_digits(text, &digits);
}

// Writes bytes as two hex digits each.
pub fn put_bytes(text: &mut Text<'_>, bytes: &[u8])
    requires { HasRoom (2 * length bytes.now) text.old }
    ensures { Wrote (2 * length bytes.now) text.old (bytes_hex bytes.now) text.new }
{
    for byte in bytes {
        put_byte(text, *byte);
    }
}
