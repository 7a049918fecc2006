// A row of TDs on the IN endpoint in place.
ghost use Rattle.guest_memory.specs.Regions.{guest_regions};
ghost use Rattle.in_place_questions.specs.Lent.{lent_log};
ghost use Rattle.in_place_row.specs.InPlaceRow.{CompletesTdsInPlace};

use in_place_row::RowAnswered;

// Completes a row of whole TDs on an endpoint that holds nothing, with a result for each TD and so many bytes of joined data. A TRB of the
// row has 24 bytes, a result 8 (specs/Layout.antt of row_bytes). The number: 0, or 1, 13, 2, 3, 15, 4, 21, 6, 9 with the log as it was. The
// block stays as it is.
#[unsafe(no_mangle)]
pub extern "C" fn polvihe_in_complete_row(
    log: &mut [u8],
    block: &[u8],
    row: &[u8],
    results: &[u8],
    data_length: usize,
    low_base: u64,
    low_len: usize,
    high_base: u64,
    high_len: usize,
) -> RowAnswered
    ensures { CompletesTdsInPlace (lent_log log.old block.now) block.now row.now results.now data_length (guest_regions low_base low_len high_base high_len) log.old result log.new }
{
    let regions = guest_memory::guest_regions(low_base, low_len, high_base, high_len);
    in_place_row::complete_tds(log, block, row, results, regions, data_length)
}
