// Guest memory, lent as two regions of bytes, each at a base address: where a range of guest addresses lies in them, and the bytes of the
// range.
#![tactic(auto)]

ghost use Rattle.std.specs.Prelude.{◌≡◌, ◌-◌, None, Some, cond};
ghost use Rattle.guest_memory.specs.Regions.{guest_regions, holds, shares_at, share_an_address};
ghost use Rattle.guest_memory.specs.Places.{in_region, place_of, is_inside, range_inside, regions_of, bytes_at};
ghost use Rattle.guest_memory.specs.Lent.{seen, lent};

// ---- Regions

// A region by its numbers: `len` bytes from the address `start_addr` on.
#[derive(Clone, Copy)]
pub struct Region {
    pub start_addr: u64,
    pub len: usize,
}

// Guest memory by its numbers: two regions, either of which may have the lower addresses.
#[derive(Clone, Copy)]
pub struct Regions {
    pub low: Region,
    pub high: Region,
}

// The two regions of guest memory, by their bases and lengths.
pub fn guest_regions(low_base: u64, low_len: usize, high_base: u64, high_len: usize) -> Regions
    ensures { result ≡ guest_regions low_base low_len high_base high_len }
{
    Regions {
        low: Region {
            start_addr: low_base,
            len: low_len,
        },
        high: Region {
            start_addr: high_base,
            len: high_len,
        },
    }
}

// Is the address one of the region's?
#[tactic(auto, unfolding(crate::specs::Regions::holds))]
fn holds(region: Region, address: u64) -> bool
    ensures { result ≡ holds region address }
{
    region.start_addr <= address && address - region.start_addr < region.len as u64
}

// Do both regions hold the address?
#[tactic(auto, unfolding(crate::specs::Regions::shares_at))]
fn shares_at(regions: Regions, address: u64) -> bool
    ensures { result ≡ shares_at «regions» address }
{
    holds(regions.low, address) && holds(regions.high, address)
}

// Question 13: do the regions share an address?
#[tactic(auto, unfolding(crate::specs::Regions::share_an_address))]
pub fn share_an_address(regions: Regions) -> bool
    ensures { result ≡ share_an_address «regions» }
{
    shares_at(regions, regions.low.start_addr) || shares_at(regions, regions.high.start_addr)
}

// ---- Lent

// Guest memory lent to be read: the bytes of two regions, and their bases.
#[derive(Clone, Copy, Drop)]
pub struct GuestView<'a> {
    pub low_base: u64,
    pub low: &'a [u8],
    pub high_base: u64,
    pub high: &'a [u8],
}

// Guest memory lent to be written.
#[derive(Drop)]
pub struct GuestMemory<'a> {
    pub low_base: u64,
    pub low: &'a mut [u8],
    pub high_base: u64,
    pub high: &'a mut [u8],
}

impl GuestView<'_> {
    // Its regions by their numbers.
    pub fn regions(&self) -> Regions
        ensures { result ≡ regions_of (seen self.now) }
    {
        guest_regions(
            self.low_base,
            self.low.len(),
            self.high_base,
            self.high.len(),
        )
    }
}

impl GuestMemory<'_> {
    // Its regions by their numbers.
    pub fn regions(&self) -> Regions
        ensures { result ≡ regions_of (lent self.now) }
    {
        self.view().regions()
    }

    // Lent on to be read.
    pub fn view(&self) -> GuestView<'_>
        ensures { seen result ≡ lent self.now }
    {
        GuestView {
            low_base: self.low_base,
            low: self.low,
            high_base: self.high_base,
            high: self.high,
        }
    }
}

// ---- Places

// Where a range lies: outside, or in one of the regions from this index of its bytes on. Three cases and no Option of two: who asks where
// it lies takes each of the three.
#[derive(Clone, Copy)]
pub enum Place {
    Outside,
    InLow(usize),
    InHigh(usize),
}

// From which index of the region's bytes on the range lies there, if it does. Nothing but this and `holds` compares guest addresses.
fn offset_in(region: Region, pointer: u64, count: u32) -> Option<usize>
    ensures { result ≡ cond (in_region region pointer count) (Some (pointer - region.start_addr)) None }
{
    let offset = pointer.checked_sub(region.start_addr)?;
    let left = (region.len as u64).checked_sub(offset)?;
    (count as u64 <= left).then_some(offset as usize)
}

// Places the `count` bytes from the address `pointer` on: the `find_region` and `to_region_addr` of a range.
// A range is its two numbers: who asks has them apart, in a TRB, a record or a place, and would make a struct for the question.
pub fn place_range(regions: Regions, pointer: u64, count: u32) -> Place
    ensures { result ≡ place_of «regions» pointer count }
{
    if let Some(start) = offset_in(regions.low, pointer, count) {
        Place::InLow(start)
    } else if let Some(start) = offset_in(regions.high, pointer, count) {
        Place::InHigh(start)
    } else {
        Place::Outside
    }
}

// Does the range lie in one of the regions?
pub fn check_range(regions: Regions, pointer: u64, count: u32) -> bool
    ensures { result ≡ is_inside (place_of «regions» pointer count) }
{
    !matches!(place_range(regions, pointer, count), Place::Outside)
}

// Question 6: does the range, if it has any bytes, lie in one of the regions?
#[tactic(auto, unfolding(crate::specs::Places::range_inside))]
pub fn range_inside(regions: Regions, pointer: u64, count: u32) -> bool
    ensures { result ≡ range_inside «regions» pointer count }
{
    count == 0 || check_range(regions, pointer, count)
}

// ---- Bytes

// The `count` bytes from the address `pointer` on, of whichever region holds them; none where the range is outside.
// No Option: a range of no bytes may lie outside, since question 6 does not ask where it lies, and its bytes are none too.
pub fn get_slice<'a>(memory: &GuestView<'a>, pointer: u64, count: u32) -> &'a [u8]
    ensures { result.now ≡ bytes_at (seen memory.now) pointer count }
{
    match place_range(memory.regions(), pointer, count) {
        Place::Outside => &memory.low[0..0],
        Place::InLow(start) => &memory.low[start..start + (count as usize)],
        Place::InHigh(start) => &memory.high[start..start + (count as usize)],
    }
}
