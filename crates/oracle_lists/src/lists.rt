// What the other functions ask of lists.
ghost use Rattle.std.specs.Prelude.{◌≡◌, ◌∷◌, IfOk};
ghost use Rattle.std.specs.Str.{bytes_eq};
ghost use Rattle.sm_defs.specs.Words.{same_ident, has_ident};
ghost use Rattle.sm_defs.specs.Volume.{has};
ghost use Rattle.sm_defs.specs.Missing.{rest, first_tag};

use crate::values::{PlainBlock, PlainSnapshot};
use sm_base::{Ident, NoMemory};

/// Whether two texts are the same.
pub fn same_text(one: &[u8], other: &[u8]) -> bool
    ensures { result ≡ bytes_eq one.now other.now }
{
    one == other
}

/// Whether two identities are the same.
pub fn is_same(one: Ident, other: Ident) -> bool
    ensures { result ≡ same_ident one other }
{
    one.origin == other.origin && one.seq == other.seq
}

/// Whether one of the snapshots has the identity.
pub fn has_copy(snapshots: &[PlainSnapshot], ident: Ident) -> bool
    ensures { result ≡ has snapshots.now ident }
{
    match snapshots {
        [] => false,
        [snapshot, others @ ..] => is_same(snapshot.ident, ident) || has_copy(others, ident),
    }
}

/// Whether the identity is among these.
pub fn is_among(idents: &[Ident], ident: Ident) -> bool
    ensures { result ≡ has_ident idents.now ident }
{
    match idents {
        [] => false,
        [first, others @ ..] => is_same(*first, ident) || is_among(others, ident),
    }
}

pub(crate) fn first_tag(image: &[PlainBlock]) -> u32
    ensures { result ≡ first_tag image.now }
{
    match image {
        [] => 0,
        [block, ..] => block.tag,
    }
}

pub(crate) fn behind_first(image: &[PlainBlock]) -> &[PlainBlock]
    ensures { result.now ≡ rest image.now }
{
    match image {
        [] => image,
        [_, others @ ..] => others,
    }
}

/// The list with one more at its front.
pub fn with_first(
    first: PlainSnapshot,
    mut others: Vec<PlainSnapshot>,
) -> Result<Vec<PlainSnapshot>, NoMemory>
    ensures { IfOk result (λ all. all.items ≡ first ∷ others.items) }
{
    others.insert(0, first)?;
    Ok(others)
}
