// What a plan is, and why there is none.
use std::marker::Model;

/// What a leg of a transfer needs at its destination.
#[derive(Debug, Drop)]
pub struct Plan {
    /// Each missing block, by its number at the source and its number at the destination.
    pub pairs: Vec<(u32, u32)>,
    /// The map that the destination will have.
    pub map: Vec<u32>,
}

impl Model for Plan {
    ghost use Rattle.sm_select.specs.Planned.{Planned};

    ghost Value = { Planned };

    ghost view = { λ p. record { pairs = p.pairs.items; map = p.map.items } };
}

/// Why there is no plan for a vault.
#[derive(Debug, PartialEq, Eq, Drop)]
pub enum PlanFault {
    /// More blocks are missing than are free at the destination.
    NoSpace { need: u32, free: u32 },
    /// There is no memory for the plan.
    NoMemory,
}
