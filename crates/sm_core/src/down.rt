// Since when a node is down.
use sm_base::{DiskNo, Side};
use sm_disk::Disk;
use sm_model::Event;
use sm_node::Node;
use std::snapshot::Snapshot;

/// The disk that failed, the side that restarts have read since, and the event that it failed in. The snapshots
/// are for contracts alone and have no bytes: of the event, and of the node as it was before.
#[derive(Drop)]
pub struct Down<D: Disk + Drop> {
    pub(crate) disk: DiskNo,
    pub(crate) side: Side,
    pub(crate) actor: u32,
    pub(crate) event: Snapshot<Event>,
    pub(crate) node: Snapshot<Node<D>>,
}
