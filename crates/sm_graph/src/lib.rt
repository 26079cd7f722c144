//! The graph of relationships: which volumes lie upstream of a volume, and which relationship feeds it.
#![tactic(auto)]

mod graph;
mod walking;

pub use graph::Graph;
