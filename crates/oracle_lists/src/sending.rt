// Which snapshots a new transfer sends.
ghost use Rattle.std.specs.Prelude.{not};
ghost use Rattle.std.specs.Prelude.{◌≡◌, ◌<◌, ◌^◌, IfOk};
ghost use Rattle.std.specs.List.{filter};
ghost use Rattle.sm_defs.specs.Words.{same_ident, after, up_to};
ghost use Rattle.sm_defs.specs.Volume.{has, idents};
ghost use Rattle.sm_defs.specs.Classes.{has_class};
ghost use Rattle.sm_defs.specs.Legs.{after_base, candidates, only_newest, made_ident, mirror_legs, vault_legs, legs};

use crate::dropping::sends_all;
use crate::lists::{has_copy, is_same, with_first};
use crate::values::{PlainLegs, PlainSnapshot, PlainSource};
use sm_base::{Ident, Kind, NoMemory, PolicyKind};
use sm_policy::Policy;
use std::alloc::Global;

/// The snapshots after the first of the identity.
pub fn behind(snapshots: &[PlainSnapshot], base: Ident) -> &[PlainSnapshot]
    ensures { result.now ≡ after (λ s. same_ident s.ident base) snapshots.now }
{
    match snapshots {
        [] => snapshots,
        [snapshot, newer @ ..] => {
            if is_same(snapshot.ident, base) {
                newer
            } else {
                behind(newer, base)
            }
        }
    }
}

/// The snapshots up to the first of the identity, that one too.
pub fn up_to(
    alloc: Global,
    snapshots: &[PlainSnapshot],
    base: Ident,
) -> Result<Vec<PlainSnapshot>, NoMemory>
    ensures { IfOk result (λ all. all.items ≡ up_to (λ s. same_ident s.ident base) snapshots.now) }
{
    match snapshots {
        [] => Ok(Vec::new(alloc)),
        [snapshot, newer @ ..] => {
            let first = snapshot.copy(alloc)?;
            if is_same(snapshot.ident, base) {
                with_first(first, Vec::new(alloc))
            } else {
                with_first(first, up_to(alloc, newer, base)?)
            }
        }
    }
}

fn behind_base(snapshots: &[PlainSnapshot], base: Option<Ident>) -> &[PlainSnapshot]
    ensures { result.now ≡ after_base base snapshots.now }
{
    match base {
        None => snapshots,
        Some(base) => behind(snapshots, base),
    }
}

fn is_new(others: &[PlainSnapshot], ident: Ident) -> bool
    ensures { result ≡ not (has others.now ident) }
{
    !has_copy(others, ident)
}

/// The snapshots of which the others have no copy.
pub fn without_copies(
    alloc: Global,
    snapshots: &[PlainSnapshot],
    others: &[PlainSnapshot],
) -> Result<Vec<PlainSnapshot>, NoMemory>
    ensures { IfOk result (λ new. new.items ≡ filter (λ s. not (has others.now s.ident)) snapshots.now) }
{
    match snapshots {
        [] => Ok(Vec::new(alloc)),
        [snapshot, newer @ ..] => {
            let new = without_copies(alloc, newer, others)?;
            if is_new(others, snapshot.ident) {
                with_first(snapshot.copy(alloc)?, new)
            } else {
                Ok(new)
            }
        }
    }
}

/// The source's snapshots after the base, all of them without one, that the destination does not have.
pub fn candidates(
    alloc: Global,
    base: Option<Ident>,
    source: &[PlainSnapshot],
    destination: &[PlainSnapshot],
) -> Result<Vec<PlainSnapshot>, NoMemory>
    ensures { IfOk result (λ new. new.items ≡ candidates base source.now destination.now) }
{
    without_copies(alloc, behind_base(source, base), destination)
}

fn idents_of(alloc: Global, snapshots: &[PlainSnapshot]) -> Result<Vec<Ident>, NoMemory>
    ensures { IfOk result (λ all. all.items ≡ idents snapshots.now) }
{
    match snapshots {
        [] => Ok(Vec::new(alloc)),
        [snapshot, newer @ ..] => {
            let mut all = idents_of(alloc, newer)?;
            all.insert(0, snapshot.ident)?;
            Ok(all)
        }
    }
}

fn newest_of(snapshots: &[PlainSnapshot]) -> &[PlainSnapshot]
    ensures { result.now ≡ only_newest snapshots.now }
{
    match snapshots {
        [] => snapshots,
        [_] => snapshots,
        [_, newer @ ..] => newest_of(newer),
    }
}

fn has_class(policy: &Policy, snapshot: &PlainSnapshot) -> bool
    ensures { result ≡ has_class policy.now snapshot.now }
{
    policy.class(&snapshot.label, snapshot.maker).is_some()
}

fn classed_idents(
    alloc: Global,
    policy: &Policy,
    snapshots: &[PlainSnapshot],
) -> Result<Vec<Ident>, NoMemory>
    ensures { IfOk result (λ all. all.items ≡ idents (filter (has_class policy.now) snapshots.now)) }
{
    match snapshots {
        [] => Ok(Vec::new(alloc)),
        [snapshot, newer @ ..] => {
            let mut all = classed_idents(alloc, policy, newer)?;
            if has_class(policy, snapshot) {
                all.insert(0, snapshot.ident)?;
            }
            Ok(all)
        }
    }
}

fn of_mirror(
    alloc: Global,
    all: bool,
    kind: Kind,
    made: Ident,
    sent: &[PlainSnapshot],
) -> Result<PlainLegs, NoMemory>
    ensures { IfOk result (λ sends. sends ≡ mirror_legs all kind made sent.now) }
{
    match kind {
        Kind::Rw => {
            let mut idents = if all {
                idents_of(alloc, sent)?
            } else {
                Vec::new(alloc)
            };
            idents.push(made)?;
            Ok(PlainLegs {
                idents,
                reserved: true,
            })
        }
        Kind::Dp => {
            let idents = idents_of(alloc, if all { sent } else { newest_of(sent) })?;
            Ok(PlainLegs {
                idents,
                reserved: false,
            })
        }
    }
}

/// What the transfer of the number sends by a policy.
pub fn legs(
    alloc: Global,
    transfer: u64,
    policy: &Policy,
    base: Option<Ident>,
    source: &PlainSource,
    destination: &[PlainSnapshot],
) -> Result<PlainLegs, NoMemory>
    requires { transfer < 2 ^ 63 }
    ensures { IfOk result (λ sends. sends ≡ legs transfer policy.now base source.now destination.now) }
{
    let sent = candidates(alloc, base, &source.snapshots, destination)?;
    match policy.kind() {
        PolicyKind::AsyncMirror => {
            let made = Ident {
                origin: source.number,
                seq: 2 * transfer + 1,
            };
            of_mirror(alloc, sends_all(policy), source.kind, made, &sent)
        }
        PolicyKind::Vault => Ok(PlainLegs {
            idents: classed_idents(alloc, policy, &sent)?,
            reserved: false,
        }),
    }
}
