// A lent buffer into which a call's records are laid.
ghost use Rattle.std.specs.Prelude.{◌≤◌, length};

use crate::Setting;

// The records lie at the start of the buffer, up to `end`; the setting is what they say. A capture is made for a call, and the setting
// changes between calls. It is no `text::Text`: a writer of text asks for room and writes all of it, and here a record for which there is
// no room is left out.
#[derive(Drop)]
pub struct Capture<'a> {
    pub bytes: &'a mut [u8],
    pub end: usize,
    pub setting: Setting,
    pub ghost inside: { end ≤ length bytes.now },
}
