// The register for C: each function of crate register under the name and with the clauses that it has there, exported from a static library.
// include/register.h has these functions; a C program links with libregister.a, which is this crate's archive under that name.
// The functions stand twice for C's sake: a crate is a library or a static library, and no crate may stand on a static library.
#![tactic(auto)]

ghost use Rattle.std.specs.Prelude.{◌≡◌, length};
ghost use Rattle.session.specs.Model.{started_of, invoked_of, invoke_out, retried_of, retry_out, responded_of};
ghost use Rattle.session.specs.View as SessionView;
ghost use Rattle.board.specs.Model as Boards;
ghost use Rattle.board_means.specs.View as BoardView;
ghost use Rattle.shard.specs.Model as Shards;
ghost use Rattle.shard.specs.View as ShardView;
ghost use Rattle.register.specs.Given.{started, submitted, responded, board_started, board_answer, board_stepped, shard_started, shard_answer, shard_stepped};
ghost use Rattle.register.specs.Promised.{SessionStarts, SessionInvokes, SessionRetries, SessionResponds, BoardStarts, BoardSteps, ShardStarts, ShardSteps};

use board::Board;
use register::Stepped;
use session::{Operations, Reply, Sent, Session};
use shard::Shard;

// ---- A client session

// Refusal 11. What the session held before is not looked at; the promise names it and says nothing of it.
#[unsafe(no_mangle)]
pub extern "C" fn session_start(s: &mut Session, client: u8) -> u8
    ensures value { (result ≡ (started_of client).answer) × (s.new ≡ (started_of client).session) }
    ensures start_means { SessionView.StartMeans client (started s.new result) }
    ensures session_starts { SessionStarts s.old client result s.new }
{
    register::session_start(s, client)
}

// Refusals 11, 1, 10, 9.
#[unsafe(no_mangle)]
pub extern "C" fn session_invoke(s: &mut Session, operations: Operations, out: &mut [u8]) -> Sent
    ensures value { (result ≡ (invoked_of s.old operations out.old).sent)
        × (s.new ≡ (invoked_of s.old operations out.old).session)
        × (out.new ≡ invoke_out s.old operations out.old) }
    ensures invoke_means { SessionView.Held s.old → SessionView.InvokeMeans s.old operations out.old (submitted s.new result) out.new }
    ensures session_invokes { SessionInvokes s.old operations out.old result s.new out.new }
{
    register::session_invoke(s, operations, out)
}

// Refusals 11, 7.
#[unsafe(no_mangle)]
pub extern "C" fn session_retry(s: &mut Session, number: u16, out: &mut [u8]) -> Sent
    ensures value { (result ≡ (retried_of s.old number out.old).sent)
        × (s.new ≡ (retried_of s.old number out.old).session)
        × (out.new ≡ retry_out s.old number out.old) }
    ensures retry_means { SessionView.Held s.old → SessionView.RetryMeans s.old number out.old (submitted s.new result) out.new }
    ensures session_retries { SessionRetries s.old number out.old result s.new out.new }
{
    register::session_retry(s, number, out)
}

// Refusals 11, 1, 2, 7, 8. "A Response step has no out area."
#[unsafe(no_mangle)]
pub extern "C" fn session_response(s: &mut Session, frame: &[u8]) -> Reply
    ensures value { (result ≡ (responded_of s.old frame.now).reply)
        × (s.new ≡ (responded_of s.old frame.now).session) }
    ensures response_means { SessionView.Held s.old → SessionView.ResponseMeans s.old frame.now (responded s.new result) }
    ensures session_responds { SessionResponds s.old frame.now result s.new }
{
    register::session_response(s, frame)
}

// ---- A board

// Refusal 11. What the board held before is not looked at; the promise names it and says nothing of it.
#[unsafe(no_mangle)]
pub extern "C" fn board_start(b: &mut Board, n: u8, m: u8, own: u8) -> u8
    ensures value { (result ≡ (Boards.start_of n m own).answer) × (b.new ≡ (Boards.start_of n m own).board) }
    ensures start_means { BoardView.StartMeans n m own (board_started b.new result) }
    ensures board_starts { BoardStarts b.old n m own result b.new }
{
    register::board_start(b, n, m, own)
}

// Refusals 11, 1, 2, then Submit: 3, 4, 8, 5; Forward: 4, 8; ExecNotif and Executed: 6, 7, 8.
#[unsafe(no_mangle)]
pub extern "C" fn board_step(b: &mut Board, frame: &[u8], out: &mut [u8]) -> Stepped
    ensures value { (result ≡ board_answer (Boards.step_of b.old frame.now (length out.old)))
        × (b.new ≡ (Boards.step_of b.old frame.now (length out.old)).board)
        × (out.new ≡ Boards.out_of b.old frame.now out.old) }
    ensures step_means { BoardView.Held b.old → BoardView.StepMeans b.old frame.now out.old (board_stepped b.new result) out.new }
    ensures board_steps { BoardSteps b.old frame.now out.old result b.new out.new }
{
    register::board_step(b, frame, out)
}

// ---- A shard group

// Refusal 11. What the shard group held before is not looked at; the promise names it and says nothing of it.
#[unsafe(no_mangle)]
pub extern "C" fn shard_start(s: &mut Shard, m: u8, own: u8) -> u8
    ensures value { (result ≡ (Shards.start_of m own).answer) × (s.new ≡ (Shards.start_of m own).shard) }
    ensures start_means { ShardView.StartMeans m own (shard_started s.new result) }
    ensures shard_starts { ShardStarts s.old m own result s.new }
{
    register::shard_start(s, m, own)
}

// Refusals 11, 1, 2, 7, 4, 8.
#[unsafe(no_mangle)]
pub extern "C" fn shard_step(s: &mut Shard, frame: &[u8], out: &mut [u8]) -> Stepped
    ensures value { (result ≡ shard_answer (Shards.step_of s.old frame.now (length out.old)))
        × (s.new ≡ (Shards.step_of s.old frame.now (length out.old)).shard)
        × (out.new ≡ Shards.out_of s.old frame.now out.old) }
    ensures step_means { ShardView.Held s.old → ShardView.StepMeans s.old frame.now out.old (shard_stepped s.new result) out.new }
    ensures shard_steps { ShardSteps s.old frame.now out.old result s.new out.new }
{
    register::shard_step(s, frame, out)
}
