use sm_base::{DiskNo, NoMemory};

/// Why an event that is not refused was not done.
#[derive(Clone, Copy, Debug, PartialEq, Eq)]
pub enum NodeFault {
    /// The disk failed; its count of faults. From then on the node is down.
    Down { disk: DiskNo, faults: u64 },
    /// There is no memory left, and nothing was done.
    NoMemory,
}

impl From<NoMemory> for NodeFault {
    ghost use Rattle.std.specs.Prelude.{◌≡◌};
    ghost use Rattle.sm_node.specs.declared.fault.NodeFault.TheVariants.{NoMemory as OutOfMemory};

    ghost from_gives = { λ _ e. e ≡ OutOfMemory };

    fn from(_: NoMemory) -> NodeFault {
        NodeFault::NoMemory
    }
}
