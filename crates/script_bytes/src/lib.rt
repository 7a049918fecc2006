// The bytes that a call script leaves unsaid: those of guest memory and those of the device; and the sum over the bytes collected.
#![tactic(auto)]

ghost use Rattle.std.specs.Prelude.{◌≡◌, ◌≤◌, length};
ghost use Rattle.trb.specs.Limits.{max_collected};
ghost use Rattle.script_bytes.specs.Bytes.{guest_byte, device_byte, guest_bytes, device_bytes, weighted_sum};

// The byte at guest address base + k.
#[tactic(auto, unfolding(crate::specs::Bytes::guest_byte))]
fn guest_byte(base: u64, k: usize) -> u8
    ensures { result ≡ guest_byte base k }
{
    let address = base.wrapping_add(k as u64);
    ((address & 0xff) as u8).wrapping_mul(7).wrapping_add(13)
}

// Fills guest memory, whose first byte is at guest address `base`.
pub fn fill_guest(window: &mut [u8], base: u64)
    ensures { window.new ≡ guest_bytes base (length window.old) }
{
    for (k, byte) in window.iter_mut().enumerate() {
        *byte = guest_byte(base, k);
    }
}

// The device's byte number k.
#[tactic(auto, unfolding(crate::specs::Bytes::device_byte))]
fn device_byte(k: usize) -> u8
    ensures { result ≡ device_byte k }
{
    ((k & 0xff) as u8).wrapping_mul(11).wrapping_add(5)
}

// Fills a buffer with the device's bytes.
// As `fill_guest`: the two loops differ in the byte of a number, and a closure for that would bring its contract with it.
pub fn fill_device(device: &mut [u8])
    ensures { device.new ≡ device_bytes (length device.old) }
{
    for (k, byte) in device.iter_mut().enumerate() {
        *byte = device_byte(k);
    }
}

// The sum over the bytes of (k + 1) times byte k, modulo 2^32.
#[tactic(auto, unfolding(crate::specs::Bytes::weighted_sum))]
pub fn weighted_sum(bytes: &[u8]) -> u32
    requires { length bytes.now ≤ max_collected }
    ensures { result ≡ weighted_sum 0 0 bytes.now }
{
    let mut sum: u32 = 0;
    for (k, byte) in bytes.iter().enumerate() {
        let weight = k as u32 + 1;
        sum = sum.wrapping_add(weight * *byte as u32);
    }
    sum
}
