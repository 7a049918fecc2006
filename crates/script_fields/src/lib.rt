// A line of a script taken apart: its letter, and the fields behind it, each behind one space.
#![tactic(auto)]

ghost use Rattle.std.specs.Prelude.{◌≡◌, ◌+◌, ◌≤◌, length, not, eqb, leb, true, false, MatchOption};
ghost use Rattle.std.specs.List.{take_while, list_all, zip};
ghost use Rattle.script_fields.specs.Words.{space};
ghost use Rattle.script_fields.specs.Fields.{max_numbers, fields_of, within_limits, AtMost, raw_fields_of};

// Numbers of a line.
pub const MAX_NUMBERS: usize = 5;

// A line's letter, and its numbers; zeros behind the last. A count beside them: the kit's `ArrayVec` has no `Copy`.
#[derive(Clone, Copy)]
pub struct Fields {
    pub letter: u8,
    pub count: usize,
    pub numbers: [u64; MAX_NUMBERS],
}

// How many characters stand before the first space.
fn word_length(line: &[u8]) -> usize
    ensures { result ≡ length (take_while (λ c. not (eqb c space)) line.now) }
{
    line.iter()
        .take_while(|character| **character != b' ')
        .count()
}

// The fields of a line, which comes without its line feed.
pub fn read_fields(line: &[u8]) -> Option<Fields>
    ensures { result ≡ fields_of line.now }
{
    let (letter, mut rest) = line.split_first()?;
    let mut fields = Fields {
        letter: *letter,
        count: 0,
        numbers: [0; MAX_NUMBERS],
    };
    // A number ends where its digits do: each turn goes on behind the last.
    while let Some((space, behind)) = rest.split_first() {
        if *space != b' ' || fields.count == MAX_NUMBERS {
            return None;
        }
        let (word, behind_word) = behind.split_at(word_length(behind));
        fields.numbers[fields.count] = call_number::read_number(word)?;
        fields.count += 1;
        rest = behind_word;
    }
    Some(fields)
}

// Is each number that has a limit at most that?
fn all_at_most(numbers: &[u64], limits: &[u64]) -> bool
    ensures { result ≡ list_all (λ p. leb p.0 p.1) (zip numbers.now limits.now) }
{
    numbers
        .iter()
        .zip(limits)
        .all(|(number, limit)| *number <= *limit)
}

// Has the line as many numbers as there are limits, and is each at most its limit?
pub fn within_limits(fields: Fields, limits: &[u64]) -> bool
    requires { length limits.now ≤ max_numbers }
    ensures { result ≡ within_limits limits.now fields }
{
    fields.count == limits.len() && all_at_most(&fields.numbers, limits)
}

// The line's numbers, if there are as many as limits, and each is at most its limit.
pub fn within<const N: usize>(fields: Fields, limits: [u64; N]) -> Option<[u64; N]>
    requires { N ≤ max_numbers }
    ensures cases { MatchOption result (within_limits limits.entry fields ≡ false) (λ ns. (within_limits limits.entry fields ≡ true) × AtMost ns fields 0 limits.entry) }
{
    if !within_limits(fields, &limits) {
        return None;
    }
    let (numbers, _) = fields.numbers.split_first_chunk()?;
    Some(*numbers)
}

// ---- Raw TRBs

// A line whose last field is a raw TRB: what stands before it, as in any other line, and the TRB's bytes.
#[derive(Clone, Copy)]
pub struct RawFields {
    pub before: Fields,
    pub bytes: [u8; 16],
}

// The fields of such a line, which comes without its line feed.
#[tactic(auto, unfolding(crate::specs::Fields::raw_fields_of))]
pub fn read_raw_fields(line: &[u8]) -> Option<RawFields>
    ensures { result ≡ raw_fields_of line.now }
{
    if line.len() <= call_number::RAW_PLACES {
        return None;
    }
    let from = line.len() - call_number::RAW_PLACES;
    if line[from - 1] != b' ' {
        return None;
    }
    let before = read_fields(&line[..from - 1])?;
    let bytes = call_number::read_raw(&line[from..])?;
    Some(RawFields { before, bytes })
}
