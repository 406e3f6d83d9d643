//! Delivers letters to mailboxes, and notes the pointstamps that they make active.

ghost use Rattle.std.specs.Prelude.{◌≡◌, ◌≢◌, ◌<◌, ◌≤◌, ◌+◌, ℕ, [], length, vec_capacity, OnOk};
ghost use Rattle.semantics.specs.Could.{Pointstamp as Active};
ghost use Rattle.graph.specs.Limits.{max_vertices};
ghost use Rattle.views.specs.Content.{times_in};
ghost use Rattle.events.specs.Happenings.{requests_of};
ghost use Rattle.board.specs.WorkerShown.{AreWithin, HasRoom, worker_in, letters_count, requests_count, sides_of};
ghost use Rattle.board.specs.Shown.{side_in};
ghost use Rattle.board.specs.Steps.{delivered, sides_after_commit, with_letter};

use crate::worker::Worker;
use events::{Event, Letter, Output, Request};
use graph::Location;
use path_summary::Pointstamp;
use record_core::NoMemory;
use std::alloc::AllocError;
use tokens::tie::Stub;
use views::Views;

/// Reserves room in the mailboxes for these letters.
#[inline(always)]
pub fn reserve_letters(workers: &mut Vec<Worker>, letters: &[Letter]) -> Result<(), NoMemory>
    requires { AreWithin (length workers.old.items) letters.now }
    ensures sides { sides_of workers.new.items ≡ sides_of workers.old.items }
    ensures room { OnOk result (HasRoom workers.new.items letters.now) }
{
    let count = letters.len();
    for i in 0..count {
        let to = letters[i].to as usize;
        workers[to].reserve_mail(count)?;
    }
    Ok(())
}

/// Puts the letters into their mailboxes. Takes no memory.
#[inline(always)]
pub fn deliver(workers: &mut Vec<Worker>, letters: Vec<Letter>)
    requires within { AreWithin (length workers.old.items) letters.items }
    requires room { HasRoom workers.old.items letters.items }
    ensures sides { sides_of workers.new.items ≡ delivered (sides_of workers.old.items) letters.items }
{
    for letter in letters {
        put_letter(workers, letter);
    }
}

/// Puts a letter into its mailbox. Takes no memory.
#[inline(always)]
fn put_letter(workers: &mut Vec<Worker>, letter: Letter)
    requires within { letter.to < length workers.old.items }
    requires room { 0 < (worker_in workers.old.items letter.to).mail_room }
    ensures sides { sides_of workers.new.items ≡ with_letter (sides_of workers.old.items) letter }
    ensures here { (worker_in workers.new.items letter.to).mail_room + 1 ≡ (worker_in workers.old.items letter.to).mail_room }
    ensures others { (k : ℕ) → k ≢ letter.to → (worker_in workers.new.items k).mail_room ≡ (worker_in workers.old.items k).mail_room }
{
    let Letter { to, message } = letter;
    workers[to as usize].put(message);
}

/// Appends the pointstamps of the letters. Takes no memory.
#[inline(always)]
pub fn note_letters(added: &mut Vec<Pointstamp>, letters: &[Letter])
    requires room { length added.old.items + length letters.now ≤ vec_capacity added.old }
    ensures added { (q : Active) → times_in added.new.items q ≡ letters_count q letters.now + times_in added.old.items q }
    ensures as_many { length added.new.items ≡ length letters.now + length added.old.items }
    ensures capacity { vec_capacity added.new ≡ vec_capacity added.old }
{
    for letter in letters {
        let message = &letter.message;
        added.push_reserved(Pointstamp::new(
            message.time().copied(),
            Location::Edge(message.edge()),
        ));
    }
}

/// Appends the pointstamp of the request, if there is one. Takes no memory.
#[inline(always)]
fn note_request(added: &mut Vec<Pointstamp>, asked: &Option<Request>)
    requires room { length added.old.items < vec_capacity added.old }
    ensures added { (q : Active) → times_in added.new.items q ≡ requests_count q (requests_of asked.now) + times_in added.old.items q }
    ensures few { length added.new.items ≤ length added.old.items + 1 }
    ensures capacity { vec_capacity added.new ≡ vec_capacity added.old }
{
    if let Some(request) = asked {
        added.push_reserved(Pointstamp::new(
            request.time.copied(),
            Location::Vertex(request.vertex),
        ));
    }
}

/// Reserves room in the views for a step that adds `count` pointstamps and removes at most one, and for the closes of `closing` inputs. The list
/// `added` is then empty, with room for `count`. If refused, everything that is active or waits is unchanged.
#[inline(always)]
pub fn prepare_views<V: Views>(
    views: &mut V,
    added: &mut Vec<Pointstamp>,
    count: u32,
    closing: u32,
) -> Result<(), AllocError>
    requires few { count ≤ 524289 }
    requires closing { closing ≤ max_vertices }
    ensures graph { V.graph views.new ≡ V.graph views.old }
    ensures workers { V.workers views.new ≡ V.workers views.old }
    ensures content { (q : Active) → V.content views.new q ≡ V.content views.old q }
    ensures waiting { (worker sender : ℕ) → V.waiting views.new worker sender ≡ V.waiting views.old worker sender }
    ensures behind { (worker sender : ℕ) → V.behind views.new worker sender ≡ V.behind views.old worker sender }
    ensures kept { V.room views.old ≤ V.room views.new }
    ensures room { OnOk result (count + 1 + closing ≤ V.room views.new) }
    ensures none { added.new.items ≡ [] }
    ensures capacity { OnOk result (count ≤ vec_capacity added.new) }
{
    added.clear();
    if added.reserve(count as usize).is_err() {
        return Err(AllocError);
    }
    if views.reserve(count + 1 + closing).is_err() {
        return Err(AllocError);
    }
    Ok(())
}

/// Reserves room for the letters and for a request of the worker. If refused, the workers show the same as before.
#[inline(always)]
pub fn prepare(
    workers: &mut Vec<Worker>,
    worker: usize,
    letters: &[Letter],
) -> Result<(), AllocError>
    requires there { worker < length workers.old.items }
    requires within { AreWithin (length workers.old.items) letters.now }
    ensures sides { sides_of workers.new.items ≡ sides_of workers.old.items }
    ensures mail { OnOk result (HasRoom workers.new.items letters.now) }
    ensures request { OnOk result (0 < (worker_in workers.new.items worker).request_room) }
{
    if reserve_letters(workers, letters).is_err() {
        return Err(AllocError);
    }
    if workers[worker].reserve_request().is_err() {
        return Err(AllocError);
    }
    Ok(())
}

/// Ends an event for which room was reserved: takes its shard back, delivers what it sends, and stores the request that it makes. Notes what becomes
/// active, and gives back the event's pointstamp. Takes no memory.
#[inline(always)]
pub fn finish(
    workers: &mut Vec<Worker>,
    added: &mut Vec<Pointstamp>,
    worker: usize,
    vertex: usize,
    stub: Stub<Event>,
    output: Output,
) -> Pointstamp
    requires there { worker < length workers.old.items }
    requires table { stub.table ≡ (side_in (sides_of workers.old.items) worker).table }
    requires wired { output.wiring.value ≡ stub.job.wired }
    requires vertex { vertex < length (side_in (sides_of workers.old.items) worker).shards }
    requires within { AreWithin (length workers.old.items) output.sent.items }
    requires mail { HasRoom workers.old.items output.sent.items }
    requires request { 0 < (worker_in workers.old.items worker).request_room }
    requires none { added.old.items ≡ [] }
    requires capacity { length output.sent.items + 1 ≤ vec_capacity added.old }
    ensures sides { sides_of workers.new.items ≡
        sides_after_commit (sides_of workers.old.items) worker vertex output.shard.value output.sent.items output.asked }
    ensures added { (q : Active) → times_in added.new.items q ≡ letters_count q output.sent.items + requests_count q (requests_of output.asked) }
    ensures few { length added.new.items ≤ length output.sent.items + 1 }
    ensures place { result ≡ output.place }
{
    let Output {
        place,
        wiring,
        cuts,
        shard,
        sent,
        asked,
        emitted: _,
        received: _,
    } = output;
    note_request(added, &asked);
    note_letters(added, &sent);
    workers[worker].settle(vertex, stub, wiring, cuts, shard, asked);
    deliver(workers, sent);
    place
}
