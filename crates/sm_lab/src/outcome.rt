use sm_base::Side;
use sm_disk::Disk;
use sm_model::Entry;
use sm_output::Status;

/// What a call hands back.
#[derive(Drop)]
pub struct Outcome<D: Disk + Drop> {
    /// How the call ended.
    pub status: Status,
    /// The disks, each in its place.
    pub disks: Vec<D>,
    /// The entries that were made, oldest first.
    pub history: Vec<Entry>,
    /// The sides that restarts found, in order.
    pub sides: Vec<Side>,
}
