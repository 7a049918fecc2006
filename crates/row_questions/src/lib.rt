// The questions asked of a row of TDs, in the order of document 02, over facts of the block, what one loop over the row finds, and plain
// values.
#![tactic(auto)]

ghost use Rattle.std.specs.Prelude.{◌≡◌, ◌+◌, ◌*◌, ◌≤◌, ◌^◌, min};
ghost use Rattle.trb.specs.Answers.{number_of};
ghost use Rattle.trb.specs.Limits.{max_row};
ghost use Rattle.trb.specs.Questions.{first_no};
ghost use Rattle.in_questions.specs.Questions.{trb_questions};
ghost use Rattle.row_questions.specs.Questions.{may_be_given, row_due};
ghost use Rattle.row_questions.specs.Tests.{asked_also, untested, tested_trb, shaped_as, asked_as};

use guest_memory::Regions;
use held::EndpointKind;
use in_block::BlockFacts;
use row_walk::TdResult;
use trb::{Answer, InTrbProcessingStatus, Refusal, TransferTrb, TransferTrbVariant};

// What one loop over a row finds, all of it whatever is refused: the first no of questions 4, 21, 5 and 6; TRBs of a TD that has not ended;
// whether every kind is supported; TDs that have ended; whether the one that has not has a Normal; whether each was given what it may be;
// bytes given.
#[derive(Clone, Copy)]
pub struct RowTest {
    pub asked: Answer,
    pub held: usize,
    pub supported: bool,
    pub tds: usize,
    pub has_normal: bool,
    pub given_rightly: bool,
    pub given: u64,
}

// TRBs of a row that are tested: no more than there are places. `held::places_held` has the limit of a block: the two have one number, and
// two names, by which the contracts go.
pub fn places(count: usize) -> usize
    ensures { result ≡ min count max_row }
{
    count.min(trb::MAX_ROW)
}

// Before the first TRB.
pub fn untested() -> RowTest
    ensures { result ≡ untested }
{
    RowTest {
        asked: Ok(()),
        held: 0,
        supported: true,
        tds: 0,
        has_normal: false,
        given_rightly: true,
        given: 0,
    }
}

// May a TD, with a Normal or without, be given this?
fn may_be_given(normal: bool, given: TdResult) -> bool
    ensures { result ≡ may_be_given normal given }
{
    normal || (matches!(given.status, InTrbProcessingStatus::Success) && given.length == 0)
}

// The no that was found before, or the answer to questions 4, 21, 5 and 6 of a TRB behind `held` others of its TD.
fn ask_also(asked: Answer, held: usize, variant: TransferTrbVariant, regions: Regions) -> Answer
    requires { held ≤ max_row }
    ensures { result ≡ asked_also asked (trb_questions held variant regions) }
{
    asked?;
    in_questions::ask_of_trb(held, variant, regions)
}

// With one TRB more, and what was given for the TD that it ends, if it ends one.
pub fn test_trb(test: RowTest, t: TransferTrb, given: TdResult, regions: Regions) -> RowTest
    requires { (test.held ≤ max_row) × ((test.tds ≤ max_row) × (test.given ≤ max_row * 2 ^ 32)) }
    ensures { (result ≡ tested_trb regions test t given) × (result.given ≤ test.given + 2 ^ 32) }
{
    let variant = t.variant;
    let asked = ask_also(test.asked, test.held, variant, regions);
    let supported = test.supported && held::supports(EndpointKind::In, variant);
    let has_normal = test.has_normal || in_block::is_normal(variant);
    if trb::chain_of(variant) {
        return RowTest {
            asked,
            held: test.held + 1,
            supported,
            has_normal,
            ..test
        };
    }
    RowTest {
        asked,
        held: 0,
        supported,
        tds: test.tds + 1,
        has_normal: false,
        given_rightly: test.given_rightly && may_be_given(has_normal, given),
        given: test.given + (given.length as u64),
    }
}

// Question 15, by what was found of `count` TRBs.
fn is_shaped(count: usize, test: RowTest, tds: usize, data_length: usize) -> bool
    ensures { result ≡ shaped_as count test tds data_length }
{
    count <= trb::MAX_ROW
        && test.supported
        && test.held == 0
        && test.tds == tds
        && test.given == data_length as u64
        && test.given_rightly
}

// Question 3: is a submission due, and is nothing held?
fn is_due(facts: BlockFacts) -> bool
    ensures { result ≡ row_due facts }
{
    in_block::submission_due(facts.state) && facts.held == 0
}

// Questions 1, 13, 2, 3, 15, then 4, 21, 5 and 6 TRB by TRB, last 9: of a row of `count` TRBs, of which this was found, with so many
// results and so many bytes of data.
#[tactic(auto, unfolding(trb::specs::Questions::first_no, crate::specs::Tests::asked_as))]
pub fn ask_row(
    log_length: usize,
    regions: Regions,
    facts: BlockFacts,
    count: usize,
    test: RowTest,
    tds: usize,
    data_length: usize,
) -> Answer
    ensures { number_of result ≡ first_no (asked_as log_length regions facts count test tds data_length) }
{
    trb::ask(trb::MIN_ROW_LOG <= log_length, Refusal::BufferTooShort)?;
    trb::ask(
        !guest_memory::share_an_address(regions),
        Refusal::RegionsOverlap,
    )?;
    trb::ask(in_block::is_sound(facts), Refusal::UnsoundBlock)?;
    trb::ask(is_due(facts), Refusal::OutOfTurn)?;
    trb::ask(
        is_shaped(count, test, tds, data_length),
        Refusal::MalformedRow,
    )?;
    test.asked?;
    trb::ask(data_length <= trb::MAX_DATA, Refusal::DataTooLong)
}
