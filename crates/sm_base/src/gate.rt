/// Where each worker passes before each of its steps, outside the lock.
///
/// `worker` is the worker's number, from 1. `turn` counts this worker's passes from 1 and stays at
/// `2^64 - 1` once it is there. A gate promises nothing.
pub trait Gate {
    fn pass(&self, worker: u32, turn: u64);
}
