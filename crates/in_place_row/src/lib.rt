// A row of whole TDs on an IN endpoint in place: block, row and results are lent bytes, each TRB is read where it lies, and each record is
// written where it stays.
#![tactic(auto)]

ghost use Rattle.std.specs.Prelude.{◌≡◌, true, ◌+◌, ◌*◌, ◌<◌, ◌≤◌, ◌^◌, length, map, get_or};
ghost use Rattle.trb.specs.Answers.{number_of};
ghost use Rattle.trb.specs.Limits.{max_held, max_row};
ghost use Rattle.trb.specs.Questions.{first_no};
ghost use Rattle.call_log.specs.Calls.{Meets};
ghost use Rattle.in_td.specs.Normals.{requested};
ghost use Rattle.in_block.specs.Facts.{facts_of};
ghost use Rattle.held.specs.declared.EndpointKind.TheVariants.{In};
ghost use Rattle.held_bytes.specs.Places.{place_of};
ghost use Rattle.in_bytes.specs.Layout.{block_length, block_of};
ghost use Rattle.in_place_questions.specs.Lent.{lent_log};
ghost use Rattle.row_walk.specs.Rows.{looked_at, past_results, process_row, Walkable};
ghost use Rattle.row_walk.specs.Tds.{endsTd};
ghost use Rattle.row_questions.specs.Questions.{row_questions};
ghost use Rattle.row_questions.specs.Tests.{untested, tested_trb, tested_row};
ghost use Rattle.row_bytes.specs.Layout.{given_trb, trbs_in, results_in, row_count};
ghost use Rattle.in_place_row.specs.InPlaceRow.{Taken, with_normal, row_answered, CompletesTdsInPlace};

use guest_memory::Regions;
use in_td::InMode;
use row_questions::RowTest;
use row_walk::{RowProgress, TdLooked};
use trb::{Answer, CompletionAnswer, EndpointId, Refusal, SlotId};

// What a row answers: the number of the question that said no, or 0; the failing result, else Ok (0 Ok, 1 Stall, 2 transaction error, 3
// disconnect), with its completion code; whether it carries an address and a cycle bit, and these; TDs finished well; records logged.
// A number with the values beside it, since C reads it.
#[repr(C)]
#[derive(Clone, Copy)]
pub struct RowAnswered {
    pub number: u32,
    pub result: u8,
    pub code: u8,
    pub located: u8,
    pub cycle_bit: u8,
    pub finished: usize,
    pub records: usize,
    pub address: u64,
}

// ---- The walk

// Looks at the TD whose first TRB has this index.
// Row and results stay two slices, as C hands them over: the walks go over either by itself.
fn look_at_td(row: &[[u8; held_bytes::PLACE]], first: usize) -> TdLooked
    requires { (first < length row.now) × ((length row.now ≤ max_row) × ((endsTd (map given_trb row.now) ≡ true) × (requested (map given_trb row.now) < 2 ^ 32))) }
    ensures { result ≡ looked_at (map given_trb row.now) first }
{
    let mut asked = row_walk::nothing_asked();
    let mut end = first;
    let mut more = true;
    // By value `row_walk::look_at_td`: what both do of a TRB is `asked_more`'s, and a closure that reads TRB number i is no shorter.
    // The TRB that ends the TD is looked at too: with its chain bit off it lets no turn follow.
    while more {
        let t = row_bytes::trb_in(&row[end]);
        asked = row_walk::asked_more(asked, t);
        more = trb::chain_of(t.variant);
        end += 1;
    }
    TdLooked { asked, end }
}

// Walks the TDs of a row, until one fails. By value `row_walk::walk_row`, with the walk over the TRBs inside it; here that is
// `place_walk`'s: with a second one in the library the compiler inlines a TRB's turn into neither, and a TRB takes 22 ns for 5 to 8.
fn walk_row(
    log: &mut [u8],
    endpoint_id: EndpointId,
    slot_id: SlotId,
    mode: InMode,
    row: &[[u8; held_bytes::PLACE]],
    results: &[u8],
) -> RowProgress
    requires { (length row.now ≤ max_row) × ((length (results_in results.now) ≤ max_row) × ((map given_trb row.now ≡ map (place_of In) row.now) × Walkable (map given_trb row.now) (results_in results.now) (length log.old))) }
    ensures { Meets (process_row endpoint_id slot_id mode (map given_trb row.now) (results_in results.now)) 0 log.old result log.new }
{
    let tds = row_bytes::result_count(results);
    let mut so_far = row_walk::at_start_of_row();
    let mut first = 0;
    // An index: of the results' bytes each is read where it lies, as number i.
    for i in 0..tds {
        let given = row_bytes::result_at(results, i);
        let TdLooked { asked, end } = look_at_td(row, first);
        let head = row_bytes::trb_in(&row[first]);
        let records = row_walk::log_request(
            log,
            so_far.records,
            asked,
            head.addr,
            endpoint_id,
            slot_id,
        );
        let td = row_walk::td_from(endpoint_id, slot_id, mode, so_far.start, given);
        let from = row_walk::unprocessed_from(so_far.start, records, asked.normals);
        let processed = place_walk::walk_places(log, &row[first..end], td, from);
        so_far = row_walk::td_done(so_far, given, processed);
        if in_td::is_error(processed.result) {
            return so_far;
        }
        first = end;
    }
    so_far
}

// ---- The questions

// Is the TRB in this place a Normal with chain on, to which questions 4, 21 and 6 say yes? (Of a row no TRB has so many others of its TD
// before it that 5 would say no.) By `in_numbers::ask_of_normal` its numbers would be made first, and question 5 asked as well.
fn is_taken(place: &[u8; held_bytes::PLACE], regions: Regions) -> bool
    ensures { result ≡ true → Taken place.now regions }
{
    let flags = place[held_bytes::FLAGS_AT];
    let length = buffers::le32(place, held_bytes::LENGTH_AT);
    place[held_bytes::KIND_AT] == raw_trb::NORMAL
        && held_bytes::bit(flags, held_bytes::CHAIN)
        && !held_bytes::bit(flags, held_bytes::IMMEDIATE_DATA)
        && length <= trb::MAX_TRANSFER_LENGTH
        && guest_memory::check_range(regions, buffers::le64(place, held_bytes::VALUE_AT), length)
}

// With one Normal more, chained and taken.
fn with_normal(test: RowTest) -> RowTest
    requires { test.held < max_held }
    ensures { result ≡ with_normal test }
{
    RowTest {
        asked: Ok(()),
        held: test.held + 1,
        has_normal: true,
        ..test
    }
}

// With the TRB in this place. Most TRBs of a row are chained Normals, for which a few tests are enough.
fn test_at(
    test: RowTest,
    place: &[u8; held_bytes::PLACE],
    results: &[u8],
    regions: Regions,
) -> RowTest
    requires { (test.held < max_held) × ((test.tds ≤ max_row) × (test.given ≤ max_row * 2 ^ 32)) }
    ensures { (result ≡ tested_trb regions test (given_trb place.now) (get_or (results_in results.now) test.tds past_results)) × (result.given ≤ test.given + 2 ^ 32) }
{
    if test.asked.is_ok() && is_taken(place, regions) {
        return with_normal(test);
    }
    let t = row_bytes::trb_in(place);
    let given = row_bytes::result_at(results, test.tds);
    row_questions::test_trb(test, t, given, regions)
}

// What the questions ask of the TRBs in these places.
fn test_row(row: &[[u8; held_bytes::PLACE]], results: &[u8], regions: Regions) -> RowTest
    requires { length row.now ≤ max_row }
    ensures { result ≡ tested_row regions (results_in results.now) untested (map given_trb row.now) }
{
    let mut test = row_questions::untested();
    for place in row {
        test = test_at(test, place, results, regions);
    }
    test
}

// Questions 1, 13, 2, 3, 15, then 4, 21, 5 and 6 TRB by TRB, last 9, of the block and the row that the bytes are.
fn ask_row(
    log_length: usize,
    block: &[u8],
    row: &[u8],
    results: &[u8],
    regions: Regions,
    data_length: usize,
) -> Answer
    requires { block_length ≤ length block.now }
    ensures { number_of result ≡ first_no (row_questions log_length regions (facts_of (block_of block.now)) (row_count row.now results.now) (trbs_in row.now) (length (results_in results.now)) (results_in results.now) data_length) }
{
    let facts = in_place_questions::facts_of(block);
    let count = row_bytes::row_count(row, results);
    let tds = row_bytes::result_count(results);
    let places = row_bytes::places(row);
    let tested = row_questions::places(places.len());
    let test = test_row(&places[..tested], results, regions);
    row_questions::ask_row(log_length, regions, facts, count, test, tds, data_length)
}

// ---- The call

fn answered_as(answer: CompletionAnswer, finished: usize, records: usize) -> RowAnswered
    ensures { result ≡ row_answered answer finished records }
{
    let answered = answer_numbers::completed_as(answer, records);
    RowAnswered {
        number: answered.number,
        result: answered.result,
        code: answered.code,
        located: answered.located,
        cycle_bit: answered.cycle_bit,
        finished,
        records: answered.records,
        address: answered.address,
    }
}

// Of bytes that are enough for a block.
fn complete(
    log: &mut [u8],
    block: &[u8],
    row: &[u8],
    results: &[u8],
    regions: Regions,
    data_length: usize,
) -> RowAnswered
    requires { block_length ≤ length block.now }
    ensures { CompletesTdsInPlace (length log.old) block.now row.now results.now data_length regions log.old result log.new }
{
    let asked = ask_row(log.len(), block, row, results, regions, data_length);
    if let Err(refusal) = asked {
        return answered_as(Err(refusal), 0, 0);
    }
    let endpoint_id = in_bytes::endpoint_id(block);
    let slot_id = in_bytes::slot_id(block);
    let mode = in_bytes::mode(block);
    let places = row_bytes::places(row);
    let walked = walk_row(log, endpoint_id, slot_id, mode, places, results);
    answered_as(Ok(walked.result), walked.finished, walked.records)
}

// Completes a row of whole TDs, with a result for each and the data joined, on an endpoint that holds nothing. Of the data and of guest
// memory only lengths and bases are asked for. Nothing but the log changes: the block ends as it was, empty.
pub fn complete_tds(
    log: &mut [u8],
    block: &[u8],
    row: &[u8],
    results: &[u8],
    regions: Regions,
    data_length: usize,
) -> RowAnswered
    ensures { CompletesTdsInPlace (lent_log log.old block.now) block.now row.now results.now data_length regions log.old result log.new }
{
    // By hand, since what C reads is no Result that `?` could give back.
    if block.len() < in_bytes::BLOCK {
        return answered_as(Err(Refusal::BufferTooShort), 0, 0);
    }
    complete(log, block, row, results, regions, data_length)
}
