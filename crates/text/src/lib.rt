// A text that is written into a lent buffer, part behind part.
#![tactic(auto)]

ghost use Rattle.std.specs.Prelude.{[], ◌∷◌, length};
ghost use Rattle.text.specs.Wrote.{HasRoom, Wrote};

// A text buffer, and how much of it is written. A writer asks for room for the longest that it may write, and uses up what it writes: so
// that is a fact of each call, and no invariant.
// By writers and no `Display`: 02, R-3 wants decimals without division, which `write!` of a number does not promise.
#[derive(Drop)]
pub struct Text<'a> {
    pub bytes: &'a mut [u8],
    pub end: usize,
}

impl Text<'_> {
    // Writes a character.
    pub fn put_char(&mut self, character: u8)
        requires { HasRoom 1 self.old }
        ensures { Wrote 1 self.old (character ∷ []) self.new }
    {
        self.bytes[self.end] = character;
        self.end += 1;
    }

    // Writes the characters of a word.
    pub fn put_word(&mut self, word: &[u8])
        requires { HasRoom (length word.now) self.old }
        ensures { Wrote (length word.now) self.old word.now self.new }
    {
        buffers::copy_into(self.bytes, self.end, word);
        self.end += word.len();
    }
}
