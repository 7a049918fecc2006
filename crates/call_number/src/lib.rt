// The numbers of a call script, lower-case hex with no leading zeros, and its raw TRBs, lower-case hex byte by byte.
#![tactic(auto)]

ghost use Rattle.std.specs.Prelude.{◌≡◌, ◌++◌, ◌≤◌, length};
ghost use Rattle.numerals.specs.Digits.{digits};
ghost use Rattle.numerals.specs.Widths.{hex_places};
ghost use Rattle.call_number.specs.Numbers.{digit, digits_from, has_leading_zero, number_of};
ghost use Rattle.call_number.specs.RawBytes.{raw_places, halves_of, raw_of};

// What a character is worth as a digit, if it is one.
// By hand: `from_str_radix` also takes upper case, a sign and leading zeros, none of which a script may have.
#[tactic(auto, unfolding(crate::specs::Numbers::digit_value))]
fn digit(character: u8) -> Option<u64>
    ensures { result ≡ digit character }
{
    match character {
        b'0'..=b'9' => Some((character - b'0') as u64),
        b'a'..=b'f' => Some((character - b'a') as u64 + 10),
        _ => None,
    }
}

// The number whose digits the characters are.
fn read_digits(field: &[u8]) -> Option<u64>
    requires { length field.now ≤ hex_places }
    ensures { result ≡ digits_from 0 field.now }
{
    let mut value = 0;
    for character in field {
        value = value * 16 + digit(*character)?;
    }
    Some(value)
}

// Does the field start with a zero that is not all of it?
#[tactic(auto, unfolding(crate::specs::Numbers::has_leading_zero))]
fn has_leading_zero(field: &[u8]) -> bool
    ensures { result ≡ has_leading_zero field.now }
{
    2 <= field.len() && field[0] == b'0'
}

// The number whose numeral the field is.
#[tactic(auto, unfolding(crate::specs::Numbers::number_of))]
pub fn read_number(field: &[u8]) -> Option<u64>
    ensures { result ≡ number_of field.now }
{
    if field.is_empty() || numerals::HEX_PLACES < field.len() || has_leading_zero(field) {
        return None;
    }
    read_digits(field)
}

// ---- Raw TRBs

// Digits of a raw TRB: sixteen bytes of two digits each.
pub const RAW_PLACES: usize = 32;

// The bytes of two numbers, of each the highest place first.
#[tactic(auto, unfolding(numerals::specs::Digits::digits))]
fn bytes_of(first: u64, second: u64) -> [u8; 16]
    ensures { result ≡ digits 256 8 first ++ digits 256 8 second }
{
    let mut bytes = [0; 16];
    bytes[..8].copy_from_slice(&first.to_be_bytes());
    bytes[8..].copy_from_slice(&second.to_be_bytes());
    bytes
}

fn read_halves(field: &[u8]) -> Option<[u8; 16]>
    requires { length field.now ≡ raw_places }
    ensures { result ≡ halves_of field.now }
{
    let first = read_digits(&field[..numerals::HEX_PLACES])?;
    let second = read_digits(&field[numerals::HEX_PLACES..])?;
    Some(bytes_of(first, second))
}

// The bytes whose digits the field is, in the order of the bytes.
#[tactic(auto, unfolding(crate::specs::RawBytes::raw_of))]
pub fn read_raw(field: &[u8]) -> Option<[u8; 16]>
    ensures { result ≡ raw_of field.now }
{
    if field.len() == RAW_PLACES {
        read_halves(field)
    } else {
        None
    }
}
