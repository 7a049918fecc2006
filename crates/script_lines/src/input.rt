// A buffer into which an input is read, piece by piece.
ghost use Rattle.std.specs.Prelude.{◌≡◌, ◌≤◌, length, take};

// The bytes from `from` up to `filled` are read and not yet taken.
// No `BufRead`: `BufReader` asks for an allocator, and a locked stdin that cannot seek is read byte by byte.
#[derive(Drop)]
pub struct Input<'a> {
    pub bytes: &'a mut [u8],
    pub from: usize,
    pub filled: usize,
    pub ghost ordered: { from ≤ filled },
    pub ghost inside: { filled ≤ length bytes.now },
}

impl<'a> Input<'a> {
    // Nothing is read yet.
    pub fn new(bytes: &'a mut [u8]) -> Input<'a>
        ensures from { result.from ≡ 0 }
        ensures filled { result.filled ≡ 0 }
        ensures bytes { result.bytes.now ≡ bytes.old }
        ensures same { result.bytes.ghost_name ≡ bytes.entry.ghost_name }
    {
        Input {
            bytes,
            from: 0,
            filled: 0,
        }
    }

    // What is read, taken or not.
    pub fn filled_bytes(&self) -> &[u8]
        ensures { result.now ≡ take self.now.filled self.now.bytes.now }
    {
        &self.bytes[..self.filled]
    }
}
