// The digits of a number in decimal and in hex. `written_numbers` writes them.
#![tactic(auto)]

ghost use Rattle.std.specs.Prelude.{◌≡◌, ◌*◌, ◌/◌, ◌%◌, ◌<◌, ◌≤◌, ◌^◌, eqb, leb, length, drop};
ghost use Rattle.std.specs.List.{take_while};
ghost use Rattle.numerals.specs.Digits.{digit_char, trimmed, FirstPlace};
ghost use Rattle.numerals.specs.Widths.{decimal_places, width_table};

// ---- Widths: each has this name here and one in specs/Widths.antt; `widths` ties the two.

// Digits of a 32-bit number in decimal.
pub const DECIMAL_PLACES: usize = 10;

// Digits of a 64-bit number in hex.
pub const HEX_PLACES: usize = 16;

#[derive(Clone, Copy)]
pub struct WidthTable {
    pub decimal: usize,
    pub hex: usize,
}

// The constants are the numbers of specs/Widths.antt.
pub fn widths() -> WidthTable
    ensures { result ≡ width_table }
{
    WidthTable {
        decimal: DECIMAL_PLACES,
        hex: HEX_PLACES,
    }
}

// ---- Digits

// The character of a digit.
#[tactic(auto, unfolding(crate::specs::Digits::digit_char))]
pub fn digit_char(digit: u8) -> u8
    requires { digit < 16 }
    ensures { result ≡ digit_char digit }
{
    if digit < 10 {
        b'0' + digit
    } else {
        b'a' + (digit - 10)
    }
}

// How many zeros the digits begin with.
fn zeros(digits: &[u8]) -> usize
    ensures { result ≡ length (take_while (λ d. eqb d 0) digits.now) }
{
    digits.iter().take_while(|digit| **digit == 0).count()
}

// How many leading zeros the digits have, the last digit not counted.
pub fn leading_zeros(digits: &[u8]) -> usize
    ensures { (result ≤ length digits.now) × (drop result digits.now ≡ trimmed digits.now) }
{
    let last = digits.len().saturating_sub(1);
    zeros(&digits[..last])
}

// ---- Decimal. 02, R-3: the digit at a place is how often its power of ten can be subtracted; nothing is divided.

// The powers of ten, by place, the lowest first.
const POWERS_OF_TEN: [u32; DECIMAL_PLACES] = [
    1, 10, 100, 1000, 10000, 100000, 1000000, 10000000, 100000000, 1000000000,
];

// The power of ten that a place counts.
pub fn power_of_ten(place: usize) -> u32
    requires { place < decimal_places }
    ensures { result ≡ 10 ^ place }
{
    POWERS_OF_TEN[place]
}

// How many of these powers, from the first on, go into a number.
fn powers_within(powers: &[u32], n: u32) -> usize
    ensures { result ≡ length (take_while (λ power. leb power n) powers.now) }
{
    powers.iter().take_while(|power| **power <= n).count()
}

// The place of a number's first digit, leading zeros left out: how many of the powers above 1 go into it.
pub fn first_place(n: u32) -> usize
    ensures { FirstPlace n result }
{
    powers_within(&POWERS_OF_TEN[1..], n)
}

// The digit that a number has at a place, and what is left of the number below that place.
#[derive(Clone, Copy)]
pub struct Place {
    pub digit: u8,
    pub rest: u32,
}

// Subtracts a power of ten as often as it goes into a number.
pub fn subtract_power(n: u32, power: u32) -> Place
    requires { n < 10 * power }
    ensures { (result.digit ≡ n / power) × (result.rest ≡ n % power) }
{
    let mut digit = 0u8;
    let mut rest = n;
    // A digit is how often its power can be subtracted: no division.
    while power <= rest {
        rest -= power;
        digit += 1;
    }
    Place { digit, rest }
}

// The character of a decimal digit.
#[tactic(auto, unfolding(crate::specs::Digits::digit_char))]
pub fn decimal_char(digit: u8) -> u8
    requires { digit < 10 }
    ensures { result ≡ digit_char digit }
{
    b'0' + digit
}
