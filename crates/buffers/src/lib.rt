// Lent buffers: bytes laid over a buffer, and little-endian numbers read from one.
#![tactic(auto)]

ghost use Rattle.std.specs.Prelude.{◌≡◌, ◌+◌, ◌≤◌, length};
ghost use Rattle.buffers.specs.Patch.{patch};
ghost use Rattle.buffers.specs.LittleEndian.{le_field};

// Lays the bytes of `src` over `dst` from index `at` on.
#[tactic(auto, unfolding(crate::specs::Patch::patch))]
pub fn copy_into(dst: &mut [u8], at: usize, src: &[u8])
    requires { at + length src.now ≤ length dst.old }
    ensures { dst.new ≡ patch dst.old at src.now }
{
    let end = at + src.len();
    dst[at..end].copy_from_slice(src);
}

// One for each width, a line over the library's conversion to its type.

// The number in the two bytes from index `at` on.
pub fn le16(src: &[u8], at: usize) -> u16
    requires { at + 2 ≤ length src.now }
    ensures { result ≡ le_field at 2 src.now }
{
    u16::from_le_bytes([src[at], src[at + 1]])
}

// The number in the four bytes from index `at` on.
pub fn le32(src: &[u8], at: usize) -> u32
    requires { at + 4 ≤ length src.now }
    ensures { result ≡ le_field at 4 src.now }
{
    u32::from_le_bytes([src[at], src[at + 1], src[at + 2], src[at + 3]])
}

// The number in the eight bytes from index `at` on.
pub fn le64(src: &[u8], at: usize) -> u64
    requires { at + 8 ≤ length src.now }
    ensures { result ≡ le_field at 8 src.now }
{
    u64::from_le_bytes([
        src[at],
        src[at + 1],
        src[at + 2],
        src[at + 3],
        src[at + 4],
        src[at + 5],
        src[at + 6],
        src[at + 7],
    ])
}
