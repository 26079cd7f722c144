//! The test that a vault sends what has a class.

ghost use Rattle.std.specs.Prelude.{◌≡◌, ◌↔◌, IsTrue, is_some};
ghost use Rattle.std.specs.List.{All, list_any};
ghost use Rattle.std.specs.Str.{bytes_eq};
ghost use Rattle.sm_defs.specs.Words.{has_ident};
ghost use Rattle.sm_defs.specs.Relationship.{rule_for};
ghost use Rattle.sm_model.specs.LegsKept.{LegsKept};
ghost use Rattle.sm_shape.specs.Blank.{blank};
ghost use Rattle.sm_shape.specs.Kept.{LegHasRule, VaultFits, OwnLegsFit, KeepsLegs};

use crate::reading::{is_vault_at, rules_at, snapshots_at};
use sm_base::{Ident, Label};
use sm_model::{World, WorldRelation, WorldRule, WorldSnapshot, WorldTransfer};

/// Whether the label has one of the rules.
pub fn is_ruled(rules: &[WorldRule], label: &[u8]) -> bool
    ensures { result ≡ list_any (λ r. bytes_eq r.label label.now) rules.now }
{
    rules.iter().any(|rule| rule.label.text() == label)
}

/// Whether the label has a rule.
#[tactic(auto, using(sm_defs::proofs::Searches::any_found))]
fn has_rule(rules: &[WorldRule], label: &Option<Label>) -> bool
    ensures { result ≡ is_some (rule_for rules.now label.now) }
{
    match label {
        Some(label) => is_ruled(rules, label.text()),
        None => false,
    }
}

fn has_leg(legs: &[Ident], ident: Ident) -> bool
    ensures { result ≡ has_ident legs.now ident }
{
    legs.iter().any(|leg| *leg == ident)
}

fn leg_has_rule(legs: &[Ident], rules: &[WorldRule], snapshot: &WorldSnapshot) -> bool
    ensures { IsTrue result ↔ LegHasRule legs.now rules.now snapshot.now }
{
    !has_leg(legs, snapshot.ident) || has_rule(rules, &snapshot.label)
}

fn legs_have_rules(legs: &[Ident], rules: &[WorldRule], snapshots: &[WorldSnapshot]) -> bool
    ensures { IsTrue result ↔ All (LegHasRule legs.now rules.now) snapshots.now }
{
    snapshots
        .iter()
        .all(|snapshot| leg_has_rule(legs, rules, snapshot))
}

fn vault_fits(transfer: &WorldTransfer, rules: &[WorldRule], snapshots: &[WorldSnapshot]) -> bool
    ensures { IsTrue result ↔ VaultFits transfer.now rules.now snapshots.now }
{
    if transfer.reserved {
        return false;
    }
    legs_have_rules(&transfer.legs, rules, snapshots)
}

fn own_legs_fit(relation: &WorldRelation, rules: &[WorldRule], snapshots: &[WorldSnapshot]) -> bool
    ensures { IsTrue result ↔ OwnLegsFit relation.now rules.now snapshots.now }
{
    match &relation.transfer {
        Some(transfer) => vault_fits(transfer, rules, snapshots),
        None => true,
    }
}

fn keeps_legs(world: &World, relation: &WorldRelation) -> bool
    ensures { IsTrue result ↔ KeepsLegs (blank world.now) relation.now }
{
    if !is_vault_at(&world.policies, relation.policy) {
        return true;
    }
    let rules = rules_at(&world.policies, relation.policy);
    let snapshots = snapshots_at(&world.volumes, relation.source.0);
    own_legs_fit(relation, rules, snapshots)
}

fn all_keep_legs(world: &World, relations: &[WorldRelation]) -> bool
    ensures { IsTrue result ↔ All (KeepsLegs (blank world.now)) relations.now }
{
    relations.iter().all(|relation| keeps_legs(world, relation))
}

/// Whether no vault's transfer makes a leg, and each leg that its source has has a class of its policy.
pub fn legs_kept(world: &World) -> bool
    ensures { IsTrue result ↔ LegsKept (blank world.now) }
{
    all_keep_legs(world, &world.relations)
}
