// Which snapshots a mirror drops, and the newest common one.
ghost use Rattle.std.specs.Prelude.{◌≡◌, IfOk};
ghost use Rattle.std.specs.List.{list_any};
ghost use Rattle.std.specs.Option.{option_map};
ghost use Rattle.std.specs.Str.{bytes_eq};
ghost use Rattle.sm_defs.specs.Words.{has_ident};
ghost use Rattle.sm_defs.specs.Volume.{ident_of};
ghost use Rattle.sm_defs.specs.Relationship.{sends_all};
ghost use Rattle.sm_defs.specs.Pruning.{is_pruned, pruned};
ghost use Rattle.sm_defs.specs.Common.{common};

use crate::lists::{has_copy, is_among, same_text, with_first};
use crate::values::PlainSnapshot;
use sm_base::{Ident, NoMemory};
use sm_policy::{Policy, Rule};
use std::alloc::Global;

fn any_rule_for(rules: &[Rule], label: &[u8]) -> bool
    ensures { result ≡ list_any (λ r. bytes_eq r.label label.now) rules.now }
{
    rules.iter().any(|rule| same_text(rule.label.text(), label))
}

/// Whether a policy sends every snapshot of the source.
#[tactic(auto, using(sm_defs::proofs::Searches::any_found))]
pub fn sends_all(policy: &Policy) -> bool
    ensures { result ≡ sends_all policy.now }
{
    any_rule_for(policy.rules(), b"all_source_snapshots")
}

/// Whether pruning drops a snapshot: nobody needs it, and the source has no copy of it or the mirror
/// does not keep it in step.
pub fn is_pruned(
    policy: &Policy,
    needed: &[Ident],
    source: &[PlainSnapshot],
    snapshot: &PlainSnapshot,
) -> bool
    ensures { result ≡ is_pruned policy.now (has_ident needed.now) source.now snapshot.now }
{
    let covered = sends_all(policy) || snapshot.maker != 0;
    !is_among(needed, snapshot.ident) && (!has_copy(source, snapshot.ident) || !covered)
}

/// What pruning drops of the destination's list.
pub fn pruned(
    alloc: Global,
    policy: &Policy,
    needed: &[Ident],
    source: &[PlainSnapshot],
    destination: &[PlainSnapshot],
) -> Result<Vec<PlainSnapshot>, NoMemory>
    ensures { IfOk result (λ dropped. dropped.items ≡ pruned policy.now (has_ident needed.now) source.now destination.now) }
{
    match destination {
        [] => Ok(Vec::new(alloc)),
        [snapshot, newer @ ..] => {
            let dropped = pruned(alloc, policy, needed, source, newer)?;
            if is_pruned(policy, needed, source, snapshot) {
                with_first(snapshot.copy(alloc)?, dropped)
            } else {
                Ok(dropped)
            }
        }
    }
}

/// The newest snapshot of the destination that the source has.
pub fn common(source: &[PlainSnapshot], destination: &[PlainSnapshot]) -> Option<Ident>
    ensures { result ≡ option_map ident_of (common source.now destination.now) }
{
    match destination {
        [] => None,
        [snapshot, newer @ ..] => match common(source, newer) {
            Some(ident) => Some(ident),
            None => {
                if has_copy(source, snapshot.ident) {
                    Some(snapshot.ident)
                } else {
                    None
                }
            }
        },
    }
}
