// The register as a library for firmware. The record of a session, a board or a shard group belongs to the caller's program, "which lends it
// for one call": each function lends it on to the method of the record's own crate, which changes it in place, and shows the result as the answer that C
// is handed: a refusal's number or 0, and what stands beside it. A start writes every field without looking at what was there.
//
// Each promise is whole, for every input and every value of a record: the answer, the record at exit and every byte of the out area
// at exit. Beside it stands what that means in the rules' words, of a record that starts and calls have made (Held); and the promise once
// more as a relation over memory before and after (specs/Promised.antt), of which proofs/Fresh.antt shows that a start depends on its setup
// alone. Crate register_c exports the functions for C (include/register.h), and proofs/InMemory.antt has how the records lie.
// Held is a premise and no invariant of a type: C may hand in any record, and value is promised of these too.
#![tactic(auto)]

ghost use Rattle.std.specs.Prelude.{◌≡◌, length};
ghost use Rattle.std.specs.Fn.{FnOnceReturnsAtMut};
ghost use Rattle.session.specs.Model.{started_of, invoked_of, invoke_out, retried_of, retry_out, responded_of};
ghost use Rattle.session.specs.View as SessionView;
ghost use Rattle.board.specs.Model as Boards;
ghost use Rattle.board_means.specs.View as BoardView;
ghost use Rattle.shard.specs.Model as Shards;
ghost use Rattle.shard.specs.View as ShardView;
ghost use Rattle.register.specs.Given.{shown, started, submitted, responded, board_started, board_answer, board_stepped, shard_started, shard_answer, shard_stepped};
ghost use Rattle.register.specs.Promised.{SessionStarts, SessionInvokes, SessionRetries, SessionResponds, BoardStarts, BoardSteps, ShardStarts, ShardSteps};

use board::Board;
use refusal::{Refusal, answer};
use session::{Operations, Reply, Sent, Session};
use shard::Shard;

// The answer of a board's step and of a shard group's: a refusal's number or 0, and "the counts of frames and bytes".
// C lays it out, so that the answer is a number and no Result.
#[repr(C)]
#[derive(Clone, Copy, Debug, Default, PartialEq, Eq)]
pub struct Stepped {
    pub answer: u8,
    pub frames: u8,
    pub bytes: usize,
}

// What a step sent; of a refusal the counts are 0.
impl From<Result<send::Sent, Refusal>> for Stepped {
    ghost from_gives = { λ outcome stepped. stepped ≡ shown outcome };

    fn from(outcome: Result<send::Sent, Refusal>) -> Stepped {
        match outcome {
            Ok(send::Sent { frames, bytes }) => Stepped {
                answer: 0,
                frames,
                bytes,
            },
            Err(refusal) => Stepped {
                answer: refusal.into(),
                ..Stepped::default()
            },
        }
    }
}

// How each function below begins, whatever its callee is: the record is lent on. So what the callee ensures of the record that it leaves, and of what
// comes back, holds of the lent record; what comes back is then shown, by `answer` or a `From`. `thin` says it of a callee that is handed the record by
// value: what it leaves is stored back, and what stood beside it is the answer.
// Nothing calls the two: docs/PROMISES.md names their contracts, which say this of any callee.
fn lends<T, R, F: FnOnce(&mut T) -> R>(lent: &mut T, callee: F) -> R
    requires { F.IsAlwaysCallable callee }
    ensures { FnOnceReturnsAtMut F.FnOnce callee lent.old result lent.new }
{
    callee(lent)
}

fn thin<T: Copy, A, F: FnOnce(T) -> (T, A)>(lent: &mut T, callee: F) -> A
    requires { F.pre callee lent.old }
    ensures { F.post callee lent.old (lent.new, result) }
{
    let (next, answer) = callee(*lent);
    *lent = next;
    answer
}

// ---- A client session

// Refusal 11. What the session held before is not looked at; the promise names it and says nothing of it.
pub fn session_start(s: &mut Session, client: u8) -> u8
    ensures value { (result ≡ (started_of client).answer) × (s.new ≡ (started_of client).session) }
    ensures start_means { SessionView.StartMeans client (started s.new result) }
    ensures session_starts { SessionStarts s.old client result s.new }
{
    answer(s.start(client))
}

// Refusals 11, 1, 10, 9.
pub fn session_invoke(s: &mut Session, operations: Operations, out: &mut [u8]) -> Sent
    ensures value { (result ≡ (invoked_of s.old operations out.old).sent)
        × (s.new ≡ (invoked_of s.old operations out.old).session)
        × (out.new ≡ invoke_out s.old operations out.old) }
    ensures invoke_means { SessionView.Held s.old → SessionView.InvokeMeans s.old operations out.old (submitted s.new result) out.new }
    ensures session_invokes { SessionInvokes s.old operations out.old result s.new out.new }
{
    s.invoke(operations, out).into()
}

// Refusals 11, 7.
pub fn session_retry(s: &mut Session, number: u16, out: &mut [u8]) -> Sent
    ensures value { (result ≡ (retried_of s.old number out.old).sent)
        × (s.new ≡ (retried_of s.old number out.old).session)
        × (out.new ≡ retry_out s.old number out.old) }
    ensures retry_means { SessionView.Held s.old → SessionView.RetryMeans s.old number out.old (submitted s.new result) out.new }
    ensures session_retries { SessionRetries s.old number out.old result s.new out.new }
{
    s.retry(number, out).into()
}

// Refusals 11, 1, 2, 7, 8. "A Response step has no out area."
pub fn session_response(s: &mut Session, frame: &[u8]) -> Reply
    ensures value { (result ≡ (responded_of s.old frame.now).reply)
        × (s.new ≡ (responded_of s.old frame.now).session) }
    ensures response_means { SessionView.Held s.old → SessionView.ResponseMeans s.old frame.now (responded s.new result) }
    ensures session_responds { SessionResponds s.old frame.now result s.new }
{
    s.response(frame).into()
}

// ---- A board

// Refusal 11. What the board held before is not looked at; the promise names it and says nothing of it.
// n, m and own one by one: so C hands them in.
pub fn board_start(b: &mut Board, n: u8, m: u8, own: u8) -> u8
    ensures value { (result ≡ (Boards.start_of n m own).answer) × (b.new ≡ (Boards.start_of n m own).board) }
    ensures start_means { BoardView.StartMeans n m own (board_started b.new result) }
    ensures board_starts { BoardStarts b.old n m own result b.new }
{
    answer(b.start(n, m, own))
}

// Refusals 11, 1, 2, then Submit: 3, 4, 8, 5; Forward: 4, 8; ExecNotif and Executed: 6, 7, 8.
pub fn board_step(b: &mut Board, frame: &[u8], out: &mut [u8]) -> Stepped
    ensures value { (result ≡ board_answer (Boards.step_of b.old frame.now (length out.old)))
        × (b.new ≡ (Boards.step_of b.old frame.now (length out.old)).board)
        × (out.new ≡ Boards.out_of b.old frame.now out.old) }
    ensures step_means { BoardView.Held b.old → BoardView.StepMeans b.old frame.now out.old (board_stepped b.new result) out.new }
    ensures board_steps { BoardSteps b.old frame.now out.old result b.new out.new }
{
    b.step(frame, out).into()
}

// ---- A shard group

// Refusal 11. What the shard group held before is not looked at; the promise names it and says nothing of it.
pub fn shard_start(s: &mut Shard, m: u8, own: u8) -> u8
    ensures value { (result ≡ (Shards.start_of m own).answer) × (s.new ≡ (Shards.start_of m own).shard) }
    ensures start_means { ShardView.StartMeans m own (shard_started s.new result) }
    ensures shard_starts { ShardStarts s.old m own result s.new }
{
    answer(s.start(m, own))
}

// Refusals 11, 1, 2, 7, 4, 8.
pub fn shard_step(s: &mut Shard, frame: &[u8], out: &mut [u8]) -> Stepped
    ensures value { (result ≡ shard_answer (Shards.step_of s.old frame.now (length out.old)))
        × (s.new ≡ (Shards.step_of s.old frame.now (length out.old)).shard)
        × (out.new ≡ Shards.out_of s.old frame.now out.old) }
    ensures step_means { ShardView.Held s.old → ShardView.StepMeans s.old frame.now out.old (shard_stepped s.new result) out.new }
    ensures shard_steps { ShardSteps s.old frame.now out.old result s.new out.new }
{
    // a step that is taken sends one frame, and Shard::step gives its bytes alone
    s.step(frame, out)
        .map(|bytes| send::Sent { frames: 1, bytes })
        .into()
}
