//! Room for a run by workers.

ghost use Rattle.std.specs.Prelude.{◌≡◌, ◌≤◌, All, IfOk, vec_len};
ghost use Rattle.std.specs.Arc.{arc_value};
ghost use Rattle.ame_team.specs.Rooms.{IsRoomFor};

use ame_baton::SeatAt;
use ame_device::Device;
use ame_io::Sink;
use ame_machine::Runner;
use ame_worker::{Opened, SeatRow, Shared, TurnRecord, Worker};
use std::alloc::{AllocError, Global};
use std::sync::Arc;

/// The needs of a run by workers next to its shell, so that nothing is begun before they are met: a share of the code for each
/// worker, and room for the workers and for their seats.
pub(crate) struct WorkerRoom<M: Runner, K: Sink, D: Device>
where
    M::Code: Drop,
{
    pub codes: Vec<Arc<M::Code>>,
    pub workers: Vec<Worker<M, K, D>>,
    pub seats: Vec<SeatAt<Shared<M, K, D>, Opened<M, K, D>, SeatRow<M>, TurnRecord<M, K, D>>>,
}

impl<M: Runner, K: Sink, D: Device> Drop for WorkerRoom<M, K, D>
where
    M::Code: Drop,
{
    fn drop(self) {
        let WorkerRoom {
            codes: _,
            workers: _,
            seats: _,
        } = self;
    }
}

/// Makes this number of shares of the code, this one among them.
fn shares<C: Drop>(alloc: Global, code: Arc<C>, count: usize) -> Result<Vec<Arc<C>>, AllocError>
    requires { 1 ≤ count }
    ensures same { IfOk result (λ codes. All (λ it. arc_value it ≡ arc_value code) codes.items) }
    ensures count { IfOk result (λ codes. vec_len codes ≡ count) }
{
    let mut codes = Vec::with_capacity(alloc, count)?;
    for _ in 1..count {
        let Ok(share) = Arc::try_clone(&code) else {
            return Err(AllocError);
        };
        codes.push_reserved(share);
    }
    codes.push_reserved(code);
    Ok(codes)
}

impl<M: Runner, K: Sink, D: Device> WorkerRoom<M, K, D>
where
    M::Code: Drop,
{
    /// Makes room for a run of this number of seats.
    pub fn take(
        alloc: Global,
        code: Arc<M::Code>,
        seats: u32,
    ) -> Result<WorkerRoom<M, K, D>, AllocError>
        requires { 1 ≤ seats }
        ensures { IfOk result (IsRoomFor (arc_value code) seats) }
    {
        let count = seats as usize;
        Ok(WorkerRoom {
            codes: shares(alloc, code, count)?,
            workers: Vec::with_capacity(alloc, count)?,
            seats: Vec::with_capacity(alloc, count)?,
        })
    }

    /// Returns the shares of the code, the room for the workers, and that for their seats.
    pub fn into_parts(
        self,
    ) -> (
        Vec<Arc<M::Code>>,
        Vec<Worker<M, K, D>>,
        Vec<SeatAt<Shared<M, K, D>, Opened<M, K, D>, SeatRow<M>, TurnRecord<M, K, D>>>,
    )
        ensures codes { result.0 ≡ self.codes }
        ensures workers { result.1 ≡ self.workers }
        ensures seats { result.2 ≡ self.seats }
    {
        let WorkerRoom {
            codes,
            workers,
            seats,
        } = self;
        (codes, workers, seats)
    }
}
