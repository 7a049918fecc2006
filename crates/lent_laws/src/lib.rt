// Layers over any function: a lent block is passed on by value, and the block of the answer is stored where it was lent.
#![tactic(auto)]

ghost use Rattle.std.specs.Prelude.{◌≡◌};
ghost use Rattle.std.specs.Fn.{FnOnceTakesAtMut, FnOnceReturnsAtMut};
ghost use Rattle.lent_laws.specs.Layers.{returned_with, TakesCompletion, CompletesBy, TakesSubmission, SubmitsBy, TakesCollecting, CollectsBy};

use trb::{Logged, Returned};

// The layer of a cancel: it ensures whatever the callee ensures of the block that was lent and the one that is stored over it.
pub fn cancel_layer<B: Copy, F: FnOnce(B) -> B>(block: &mut B, callee: F)
    requires { F.pre callee block.old }
    ensures { F.post callee block.old block.new }
{
    *block = callee(*block);
}

// A slice is lent again, for the time of a call, and comes back as the call left it.
pub fn lent_again<T, R, F: FnOnce(&mut [T]) -> R>(row: &mut [T], callee: F) -> R
    requires { FnOnceTakesAtMut F.FnOnce callee row.old }
    ensures { FnOnceReturnsAtMut F.FnOnce callee row.old result row.new }
{
    callee(row)
}

// The block that the callee returned is left in the place of the one that was lent; the answer and the number of records stay.
fn leave<A, B: Copy>(block: &mut B, returned: Returned<A, B>) -> Logged<A>
    ensures { returned ≡ returned_with result block.new }
{
    *block = returned.block;
    Logged {
        answer: returned.answer,
        records: returned.records,
    }
}

// The layer of a completion: it ensures whatever the callee ensures, with the block of the answer left in the place of the one that was
// lent.
pub fn completion_layer<A, B: Copy, X, F: FnOnce(&mut [u8], B, X, &[u8]) -> Returned<A, B>>(
    log: &mut [u8],
    block: &mut B,
    x: X,
    bytes: &[u8],
    callee: F,
) -> Logged<A>
    requires { TakesCompletion F.FnOnce callee log.old block.old x bytes.now }
    ensures { CompletesBy F.FnOnce callee log.old block.old x bytes.now result block.new log.new }
{
    let returned = callee(log, *block, x, bytes);
    leave(block, returned)
}

// The layer of a submission, likewise, with guest memory lent to be read.
pub fn submission_layer<A, B: Copy, X, M, F: FnOnce(&mut [u8], B, X, &M) -> Returned<A, B>>(
    log: &mut [u8],
    block: &mut B,
    x: X,
    memory: &M,
    callee: F,
) -> Logged<A>
    requires { TakesSubmission F.FnOnce callee log.old block.old x memory.now }
    ensures { SubmitsBy F.FnOnce callee log.old block.old x memory.now result block.new log.new }
{
    let returned = callee(log, *block, x, memory);
    leave(block, returned)
}

// The layer of a submission with a collect buffer, likewise.
pub fn collecting_layer<
    A,
    B: Copy,
    X,
    M,
    F: FnOnce(&mut [u8], &mut [u8], B, X, &M) -> Returned<A, B>,
>(log: &mut [u8], collect: &mut [u8], block: &mut B, x: X, memory: &M, callee: F) -> Logged<A>
    requires { TakesCollecting F.FnOnce callee log.old collect.old block.old x memory.now }
    ensures { CollectsBy F.FnOnce callee log.old collect.old block.old x memory.now result block.new log.new collect.new }
{
    let returned = callee(log, collect, *block, x, memory);
    leave(block, returned)
}
