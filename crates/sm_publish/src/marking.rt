// Which snapshots a step lets go.
ghost use Rattle.std.specs.Prelude.{◌≡◌, ◌==◌, ◌&&◌, ◌||◌, ◌∷◌, ◌++◌, [], cond, not, map, length, Bool, List, Option, IfOk, OnOk, is_some};
ghost use Rattle.std.specs.List.{filter, list_any};
ghost use Rattle.std.specs.Str.{bytes_eq};
ghost use Rattle.sm_base.specs.declared.numbers.Ident.{Ident as PlainIdent};
ghost use Rattle.sm_defs.specs.Words.{same_ident};
ghost use Rattle.sm_defs.specs.Volume.{Snapshot, idents};
ghost use Rattle.sm_defs.specs.Relationship.{Relationship, sends_all};
ghost use Rattle.sm_defs.specs.Pruning.{is_pruned};
ghost use Rattle.sm_policy.specs.Marks.{needed_marks};
ghost use Rattle.sm_root.specs.Condition.{ident_of};
ghost use Rattle.sm_volume.specs.Seen.{kept_snapshot};
ghost use Rattle.sm_publish.specs.Dropping.{tidied_by, holder_number, holders_of, lost_reason};

use sm_base::{Ident, NoMemory, Reason, RelNo, VolNo};
use sm_policy::{Policy, Rule};
use sm_root::RootSnapshot;
use std::alloc::Global;

fn is_same(one: Ident, other: Ident) -> bool
    ensures { result ≡ same_ident one other }
{
    one.origin == other.origin && one.seq == other.seq
}

// Whether a snapshot has the identity.
fn has_ident(snapshots: &[RootSnapshot], ident: Ident) -> bool
    ensures { result ≡ list_any (λ s. same_ident s.ident ident) snapshots.now }
{
    snapshots
        .iter()
        .any(|snapshot| is_same(snapshot.ident, ident))
}

// One identity more, where its snapshot goes.
fn push_if(drops: &mut Vec<Ident>, goes: bool, ident: Ident) -> Result<(), NoMemory>
    ensures { OnOk result (drops.new.items ≡ drops.old.items ++ cond goes (ident ∷ []) []) }
{
    if goes {
        drops.push(ident)?;
    }
    Ok(())
}

// Whether a transfer made the snapshot on this volume, and nobody needs it.
fn is_tidied(volume: VolNo, needed: bool, snapshot: &RootSnapshot) -> bool
    ensures { result ≡ (not (snapshot.now.made == 0) && (snapshot.now.ident.origin == volume.0) && not needed) }
{
    snapshot.made != 0 && snapshot.ident.origin == volume.0 && !needed
}

// What a volume lets go that is tidied, given which of its snapshots are needed.
pub(crate) fn tidied(
    alloc: Global,
    volume: VolNo,
    needed: &[bool],
    snapshots: &[RootSnapshot],
) -> Result<Vec<Ident>, NoMemory>
    requires { length needed.now ≡ length snapshots.now }
    ensures { IfOk result (λ drops. (needs : PlainIdent → Bool) (ss : List Snapshot) → snapshots.now ≡ map kept_snapshot ss → needed.now ≡ needed_marks needs ss →
        drops.items ≡ idents (filter (tidied_by volume.0 needs) ss)) }
{
    let mut drops = Vec::new(alloc);
    for at in 0..snapshots.len() {
        let snapshot = &snapshots[at];
        let goes = is_tidied(volume, needed[at], snapshot);
        push_if(&mut drops, goes, snapshot.ident)?;
    }
    Ok(drops)
}

fn is_rule_of(rule: &Rule, label: &[u8]) -> bool
    ensures { result ≡ bytes_eq rule.now.label label.now }
{
    rule.label.text() == label
}

fn any_rule_for(rules: &[Rule], label: &[u8]) -> bool
    ensures { result ≡ list_any (λ r. bytes_eq r.label label.now) rules.now }
{
    rules.iter().any(|rule| is_rule_of(rule, label))
}

// Whether a policy sends every snapshot of the source.
#[tactic(auto, using(sm_defs::proofs::Searches::any_found))]
fn sends_all(policy: &Policy) -> bool
    ensures { result ≡ sends_all policy.now }
{
    any_rule_for(policy.rules(), b"all_source_snapshots")
}

// Whether nobody needs the snapshot, and it is missing on the source or the mirror does not keep it in step.
fn is_pruned(
    all: bool,
    holder: Option<RelNo>,
    source: &[RootSnapshot],
    snapshot: &RootSnapshot,
) -> bool
    ensures { result ≡ (not (is_some holder) && (not (list_any (λ s. same_ident s.ident snapshot.now.ident) source.now) || not (all || not (snapshot.now.made == 0)))) }
{
    holder.is_none() && (!has_ident(source, snapshot.ident) || !(all || snapshot.made != 0))
}

// What a mirror prunes of its destination, given who needs the snapshots there.
pub(crate) fn pruned(
    alloc: Global,
    policy: &Policy,
    holders: &[Option<RelNo>],
    source: &[RootSnapshot],
    snapshots: &[RootSnapshot],
) -> Result<Vec<Ident>, NoMemory>
    requires { length holders.now ≡ length snapshots.now }
    ensures { IfOk result (λ drops. (needs : PlainIdent → Bool) (there ss : List Snapshot) → map ident_of source.now ≡ idents there → snapshots.now ≡ map kept_snapshot ss →
        map is_some holders.now ≡ needed_marks needs ss → drops.items ≡ idents (filter (is_pruned policy.now needs there) ss)) }
{
    let all = sends_all(policy);
    let mut drops = Vec::new(alloc);
    for at in 0..snapshots.len() {
        let snapshot = &snapshots[at];
        let goes = is_pruned(all, holders[at], source, snapshot);
        push_if(&mut drops, goes, snapshot.ident)?;
    }
    Ok(drops)
}

// Why a snapshot of the destination stops its pruning: it is needed, and the source lacks it.
fn lost_reason_of(
    holder: Option<RelNo>,
    source: &[RootSnapshot],
    snapshot: &RootSnapshot,
) -> Option<Reason>
    ensures { (who : PlainIdent → Option Relationship) (there : List Snapshot) (s : Snapshot) → map ident_of source.now ≡ idents there → snapshot.now ≡ kept_snapshot s →
        holder ≡ holder_number who s → result ≡ lost_reason who there (s ∷ []) }
{
    match holder {
        None => None,
        Some(_) if has_ident(source, snapshot.ident) => None,
        Some(relation) => Some(Reason::HeldDownstream {
            ident: snapshot.ident,
            relation,
        }),
    }
}

// Why the first such snapshot does.
pub(crate) fn lost_reason(
    holders: &[Option<RelNo>],
    source: &[RootSnapshot],
    snapshots: &[RootSnapshot],
) -> Option<Reason>
    requires { length holders.now ≡ length snapshots.now }
    ensures { (who : PlainIdent → Option Relationship) (there ss : List Snapshot) → map ident_of source.now ≡ idents there → snapshots.now ≡ map kept_snapshot ss →
        holders.now ≡ holders_of who ss → result ≡ lost_reason who there ss }
{
    for at in 0..snapshots.len() {
        let reason = lost_reason_of(holders[at], source, &snapshots[at]);
        if reason.is_some() {
            return reason;
        }
    }
    None
}
