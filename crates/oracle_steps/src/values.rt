use oracle_world::PlainVolume;
use sm_model::{WorldRelation, WorldTransfer};
use sm_policy::Policy;

/// A relationship with its transfer, its policy and its two volumes.
#[derive(Clone, Copy)]
pub struct PlainRunning<'a> {
    pub relation: &'a WorldRelation,
    pub transfer: &'a WorldTransfer,
    pub policy: &'a Policy,
    pub source: &'a PlainVolume,
    pub destination: &'a PlainVolume,
}
