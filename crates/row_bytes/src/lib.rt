// A row of TRBs, and what the device gave for its TDs, as lent bytes: each is read where it lies. specs/Layout.antt says what any bytes
// are.
#![tactic(auto)]

ghost use Rattle.std.specs.Prelude.{◌≡◌, ◌+◌, ◌/◌, ◌≤◌, length, map, drop, get_or};
ghost use Rattle.held.specs.declared.EndpointKind.TheVariants.{In};
ghost use Rattle.held_bytes.specs.Numbers.{trb_of};
ghost use Rattle.held_bytes.specs.Places.{place_length, place_of, places_of};
ghost use Rattle.row_walk.specs.Rows.{past_results};
ghost use Rattle.row_bytes.specs.Layout.{given_numbers, given_trb, trbs_in, result_length, given_result, results_in, row_count};

use held_bytes::TrbNumbers;
use row_walk::TdResult;
use trb::{InTrbProcessingStatus, TransferTrb, TransferTrbVariant};

// Bytes of a result.
pub const RESULT: usize = 8;

// ---- TRBs

// The TRBs of the row, each by its bytes.
pub fn places(row: &[u8]) -> &[[u8; held_bytes::PLACE]]
    ensures given { map given_trb result.now ≡ trbs_in row.now }
    ensures held { map (place_of In) result.now ≡ places_of In (length row.now / place_length) row.now }
{
    row.as_chunks().0
}

// The numbers in this place, the length whole.
fn numbers_at(place: &[u8; held_bytes::PLACE]) -> TrbNumbers
    ensures { result ≡ given_numbers place.now }
{
    TrbNumbers {
        transfer_length: buffers::le32(place, held_bytes::LENGTH_AT),
        ..held_bytes::numbers_at(place, 0)
    }
}

// The TRB that the numbers are. Most are Normals, so these are told apart here.
#[tactic(auto, unfolding(held_bytes::specs::Numbers::variant_of))]
fn trb_of(numbers: TrbNumbers) -> TransferTrb
    ensures { result ≡ trb_of numbers }
{
    if numbers.kind == raw_trb::NORMAL {
        return TransferTrb {
            variant: TransferTrbVariant::Normal(held_bytes::normal(numbers)),
            addr: numbers.addr,
            cycle_bit: held_bytes::bit(numbers.flags, held_bytes::CYCLE),
        };
    }
    held_bytes::trb_of(numbers)
}

// The TRB in this place.
pub fn trb_in(place: &[u8; held_bytes::PLACE]) -> TransferTrb
    ensures { result ≡ given_trb place.now }
{
    trb_of(numbers_at(place))
}

// ---- Results

// The result in the bytes from index `at` on.
fn result_from(results: &[u8], at: usize) -> TdResult
    requires { at + result_length ≤ length results.now }
    ensures { result ≡ given_result (drop at results.now) }
{
    TdResult {
        status: answer_numbers::status_of(results[at]),
        length: buffers::le32(results, at + 4),
    }
}

// Result number i; behind the last one, a disconnect with no bytes.
pub fn result_at(results: &[u8], i: usize) -> TdResult
    ensures { result ≡ get_or (results_in results.now) i past_results }
{
    if i < results.len() / RESULT {
        result_from(results, RESULT * i)
    } else {
        TdResult {
            status: InTrbProcessingStatus::Disconnect,
            length: 0,
        }
    }
}

// ---- Numbers

// How many results the bytes are.
pub fn result_count(results: &[u8]) -> usize
    ensures { result ≡ length (results_in results.now) }
{
    results.len() / RESULT
}

// How many TRBs the bytes are; bytes that do not split into whole TRBs and whole results are more than a row may have.
// A number also of those, and no Option: question 15 asks of either no more than whether the row is short enough.
pub fn row_count(row: &[u8], results: &[u8]) -> usize
    ensures { result ≡ row_count row.now results.now }
{
    if row.len() % held_bytes::PLACE == 0 && results.len() % RESULT == 0 {
        row.len() / held_bytes::PLACE
    } else {
        trb::MAX_ROW + 1
    }
}
