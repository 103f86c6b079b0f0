/// Why a request wasn't given to a worker.
#[derive(Clone, Copy, Debug, PartialEq, Eq)]
pub enum GiveRefusal {
    /// The worker has a request.
    WorkerTaken,
}
