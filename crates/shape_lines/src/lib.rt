// R-10: lines of shapes. Each function takes the letters chosen so far, and writes a line for each word of `left` letters that may follow.
// A line for which the text has no room is left out. Here are the phases from the Status Stage TRB on.
#![tactic(auto)]

ghost use Rattle.std.specs.Prelude.{◌≡◌, ◌++◌, ◌∷◌, [], ◌+◌, ◌<◌, ◌≤◌, length};
ghost use Rattle.text.specs.Wrote.{HasRoom, Wrote};
ghost use Rattle.log_text.specs.Lines.{line_feed};
ghost use Rattle.shapes.specs.Lists.{max_shape, request_made, final_event_data, status_stage};
ghost use Rattle.shape_lines.specs.Lines.{lines, Laid};
ghost use Rattle.shape_lines.specs.Chosen.{no_letter, letters_of};

use text::Text;

// The least and the greatest length of which a list may be asked.
pub const MIN_SHAPE: usize = 2;

pub const MAX_SHAPE: usize = 12;

// The bytes of the text of all shapes.
pub const MAX_TEXT: usize = 24579;

// ---- Letters

// The letters chosen so far, the first `size` of these. The kit's `ArrayVec` has no `Copy`, and two letters go on from the same ones.
#[derive(Clone, Copy)]
pub struct Chosen {
    pub letters: [u8; MAX_SHAPE],
    pub size: usize,
}

impl Chosen {
    // None yet.
    pub fn new() -> Chosen
        ensures { result ≡ no_letter }
    {
        Chosen {
            letters: [0u8; MAX_SHAPE],
            size: 0,
        }
    }

    // One letter more.
    pub fn with_letter(self, letter: u8) -> Chosen
        requires { self.size < max_shape }
        ensures letters { letters_of result ≡ letters_of self ++ (letter ∷ []) }
        ensures size { result.size ≡ self.size + 1 }
    {
        let mut letters = self.letters;
        letters[self.size] = letter;
        Chosen {
            letters,
            size: self.size + 1,
        }
    }

    // The letters themselves.
    pub fn letters(&self) -> &[u8]
        requires { self.now.size ≤ max_shape }
        ensures { result.now ≡ letters_of self.now }
    {
        &self.letters[..self.size]
    }
}

// ---- Lines

// The letters and a line feed.
fn copy_line(text: &mut Text<'_>, letters: &[u8])
    requires { HasRoom (length letters.now + 1) text.old }
    ensures { Wrote (length letters.now + 1) text.old (letters.now ++ (line_feed ∷ [])) text.new }
{
    text.put_word(letters);
    text.put_char(b'\n');
}

// The same line, and nothing where the text has no room for it.
fn put_line(text: &mut Text<'_>, letters: &[u8])
    ensures { Laid (lines letters.now ([] ∷ [])) text.old text.new }
{
    let length = letters.len() + 1;
    if text.bytes.len() < length || text.bytes.len() - length < text.end {
        return;
    }
    copy_line(text, letters);
}

// The request is made: a line, if no letter is left.
pub fn request_made(text: &mut Text<'_>, chosen: Chosen, left: usize)
    requires { chosen.size ≤ max_shape }
    ensures { Laid (lines (letters_of chosen) (request_made left)) text.old text.new }
{
    if left == 0 {
        put_line(text, chosen.letters());
    }
}

// In ExpectFinalEventDataTrb.
pub fn final_event_data(text: &mut Text<'_>, chosen: Chosen, left: usize)
    requires { chosen.size + left ≤ max_shape }
    ensures { Laid (lines (letters_of chosen) (final_event_data left)) text.old text.new }
{
    if left == 0 {
        return;
    }
    request_made(text, chosen.with_letter(b'E'), left - 1);
    request_made(text, chosen.with_letter(b'e'), left - 1);
}

// In ExpectStatusStageTrb.
pub fn status_stage(text: &mut Text<'_>, chosen: Chosen, left: usize)
    requires { chosen.size + left ≤ max_shape }
    ensures { Laid (lines (letters_of chosen) (status_stage left)) text.old text.new }
{
    if left == 0 {
        return;
    }
    final_event_data(text, chosen.with_letter(b'T'), left - 1);
    request_made(text, chosen.with_letter(b't'), left - 1);
}
