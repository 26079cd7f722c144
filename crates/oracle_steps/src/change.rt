use oracle_world::PlainVolume;
use sm_model::{Reply, WorldRelation};

/// A volume and its place.
#[derive(Debug, Drop)]
pub struct PlainPlaced {
    pub at: u32,
    pub volume: PlainVolume,
}

/// What a step is told, the volume that it changes, and what becomes of the relationship whose transfer
/// it is a step of.
#[derive(Drop)]
pub struct PlainChange {
    pub reply: Reply,
    pub volume: Option<PlainPlaced>,
    pub relation: Option<WorldRelation>,
}

/// A change, and the place of the relationship whose transfer it is a step of; of a Tidy any place.
#[derive(Drop)]
pub struct PlainChoice {
    pub at: usize,
    pub change: PlainChange,
}

/// A relationship and its place.
#[derive(Clone, Copy)]
pub struct PlainFound<'a> {
    pub at: usize,
    pub relation: &'a WorldRelation,
}
