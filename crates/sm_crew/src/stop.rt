use sm_base::DiskNo;
use sm_history::ActFault;

/// Why a report goes no further.
#[derive(Clone, Copy, Debug, PartialEq, Eq)]
pub enum Stop {
    /// The node is down since this disk failed, now or before.
    Down(DiskNo),
    /// A further event was not done.
    Fault(ActFault),
}
