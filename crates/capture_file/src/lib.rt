// Capture files, pcap 2.4 with usbmon headers: what they are, by definition; what a call over them answers, and the two headers' bytes.
#![tactic(auto)]

ghost use Rattle.std.specs.Prelude.{◌≡◌, ◌≤◌};
ghost use Rattle.capture_file.specs.Answers.{capture_length};
ghost use Rattle.capture_file.specs.Records.{head};
ghost use Rattle.capture_file.specs.Files.{link_number, link_of, extra_of, most_of, file_head};

use trb::Refusal;

// The first number of a file with times in microseconds, and the format's version, 2.4.
pub const MAGIC: u32 = 2712847316;

pub const MAJOR_VERSION: u16 = 2;

pub const MINOR_VERSION: u16 = 4;

// The length of a file's header; of a record's, in front of its usbmon header; of the usbmon header of link type 189; of these last two
// together; and of what link type 220 adds.
pub const FILE_HEADER_LENGTH: usize = 24;

pub const RECORD_HEADER_LENGTH: usize = 16;

pub const USB_HEADER_LENGTH: usize = 48;

pub const FRONT_LENGTH: usize = 64;

pub const ADDED_LENGTH: usize = 16;

// LINKTYPE_USB_LINUX, with a header of 48 bytes, and LINKTYPE_USB_LINUX_MMAPPED, with one of 64.
#[derive(Clone, Copy, PartialEq)]
pub enum LinkType {
    Short = 189,
    Long = 220,
}

// The number that a file header has for it.
impl From<LinkType> for u32 {
    ghost use Rattle.std.specs.Prelude.{◌≡◌};
    ghost use Rattle.capture_file.specs.Files.{link_number};

    ghost from_gives = { λ link number. number ≡ link_number link };

    fn from(link: LinkType) -> u32 {
        link as u32
    }
}

impl LinkType {
    // The link type of a number, if it is a known one. No `TryFrom`: that names an error, and each who asks here has an answer of his own.
    #[tactic(auto, unfolding(crate::specs::Files::link_of))]
    pub fn of(number: u32) -> Option<LinkType>
        ensures { result ≡ link_of number }
    {
        match number {
            189 => Some(LinkType::Short),
            220 => Some(LinkType::Long),
            _ => None,
        }
    }

    // The bytes that its header has beyond 48.
    #[tactic(auto, unfolding(crate::specs::Files::extra_of))]
    pub fn extra(self) -> usize
        ensures { (result ≡ extra_of (link_number self)) × (result ≤ 16) }
    {
        match self {
            LinkType::Short => 0,
            LinkType::Long => ADDED_LENGTH,
        }
    }

    // The greatest original length, where records of link type 189 are to grow by so many bytes.
    #[tactic(auto, unfolding(crate::specs::Files::most_of))]
    pub fn most(self, growth: u32) -> u32
        ensures { result ≡ most_of growth (link_number self) }
    {
        match self {
            LinkType::Short => u32::MAX - growth,
            LinkType::Long => u32::MAX,
        }
    }
}

// The time of a record.
#[derive(Clone, Copy, PartialEq, PartialOrd)]
pub struct CaptureTime {
    pub seconds: u32,
    pub microseconds: u32,
}

// The length of the file made, 0 where there is none.
pub fn answer_length(answer: Result<usize, Refusal>) -> usize
    ensures { result ≡ capture_length answer }
{
    answer.unwrap_or(0)
}

// What one pass over a whole file finds: whether each record can be converted, whether the times never go backwards, and how many
// records there are.
#[derive(Clone, Copy)]
pub struct Survey {
    pub convertible: bool,
    pub ordered: bool,
    pub records: usize,
}

// The bytes of a file header.
pub fn file_head(zone: u32, accuracy: u32, snap: u32, link: u32) -> [u8; FILE_HEADER_LENGTH]
    ensures { result ≡ file_head zone accuracy snap link }
{
    let mut cells = [0; FILE_HEADER_LENGTH];
    cells[0..4].copy_from_slice(&MAGIC.to_le_bytes());
    cells[4..6].copy_from_slice(&MAJOR_VERSION.to_le_bytes());
    cells[6..8].copy_from_slice(&MINOR_VERSION.to_le_bytes());
    cells[8..12].copy_from_slice(&zone.to_le_bytes());
    cells[12..16].copy_from_slice(&accuracy.to_le_bytes());
    cells[16..20].copy_from_slice(&snap.to_le_bytes());
    cells[20..24].copy_from_slice(&link.to_le_bytes());
    cells
}

// The 16 bytes of a record in front of its usbmon header.
#[tactic(auto, using(crate::proofs::ByteLaws::le_bytes_4), unfolding(crate::specs::Records::head))]
pub fn record_head(time: CaptureTime, captured: u32, original: u32) -> [u8; RECORD_HEADER_LENGTH]
    ensures { result ≡ head time.seconds time.microseconds captured original }
{
    let mut cells = [0; RECORD_HEADER_LENGTH];
    cells[0..4].copy_from_slice(&time.seconds.to_le_bytes());
    cells[4..8].copy_from_slice(&time.microseconds.to_le_bytes());
    cells[8..12].copy_from_slice(&captured.to_le_bytes());
    cells[12..16].copy_from_slice(&original.to_le_bytes());
    cells
}
