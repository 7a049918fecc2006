// The bytes of an input, read into a lent buffer.
#![tactic(auto)]

ghost use Rattle.std.specs.Prelude.{◌≡◌, ◌<◌, length, take, IfOk};
ghost use Rattle.std.specs.Io.{ReadsAtMost};
ghost use Rattle.std.specs.Io.KnownBytes.{Consumes, IsAtEnd};

use std::io;
use std::io::Read;

// So many bytes, of which a proof knows how many they are. Of an array that is written where it stands the check computes every element,
// and of a million it runs out of stack.
pub fn zeros<const N: usize>() -> [u8; N]
    ensures { length result ≡ N }
{
    [0u8; N]
}

// Reads until the buffer is full or the input ends. Returns how many bytes were read.
pub fn read_full<R: Read>(reader: &mut R, buffer: &mut [u8]) -> io::Result<usize>
    ensures bound { ReadsAtMost result buffer.new }
    ensures bytes { IfOk result (λ n. Consumes (R.remaining reader.old) (R.remaining reader.new) (take n buffer.new)) }
    ensures end { IfOk result (λ n. n < length buffer.new → IsAtEnd (R.remaining reader.new)) }
{
    let mut filled = 0;
    // A read gives as many bytes as it likes: nothing is counted by one. Of the library, `read_exact` fails where the input ends,
    // `read_to_end` takes a `Vec`, and what `io::copy` leaves in a slice no contract says.
    while filled < buffer.len() {
        let read = reader.read(&mut buffer[filled..])?;
        if read == 0 {
            return Ok(filled);
        }
        filled += read;
    }
    Ok(filled)
}
