// Which snapshots a vault keeps.
ghost use Rattle.std.specs.Prelude.{◌≡◌, Bool, false, length, IfOk};
ghost use Rattle.sm_base.specs.declared.numbers.Ident.{Ident};
ghost use Rattle.sm_defs.specs.Relationship.{is_mirror};
ghost use Rattle.sm_defs.specs.Classes.{class_of};
ghost use Rattle.sm_defs.specs.Retention.{retained, labels};
ghost use Rattle.sm_policy.specs.Marks.{marked, needed_marks};

use crate::lists::with_first;
use crate::values::PlainSnapshot;
use sm_base::{Label, NoMemory};
use sm_model::copy_label;
use sm_policy::Policy;
use std::alloc::Global;

/// The labels of snapshots.
pub fn labels_of(alloc: Global, snapshots: &[PlainSnapshot]) -> Result<Vec<Option<Label>>, NoMemory>
    ensures { IfOk result (λ all. all.items ≡ labels snapshots.now) }
{
    let mut all = Vec::new(alloc);
    for snapshot in snapshots {
        all.push(copy_label(alloc, &snapshot.label)?)?;
    }
    Ok(all)
}

fn marked(
    alloc: Global,
    marks: &[bool],
    snapshots: &[PlainSnapshot],
) -> Result<Vec<PlainSnapshot>, NoMemory>
    ensures { IfOk result (λ left. left.items ≡ marked marks.now snapshots.now) }
{
    match marks {
        [] => Ok(Vec::new(alloc)),
        [mark, others @ ..] => match snapshots {
            [] => Ok(Vec::new(alloc)),
            [snapshot, newer @ ..] => {
                let left = marked(alloc, others, newer)?;
                if *mark {
                    with_first(snapshot.copy(alloc)?, left)
                } else {
                    Ok(left)
                }
            }
        },
    }
}

/// What a vault keeps of a list, oldest first, given for each snapshot whether it is needed.
pub fn retained(
    alloc: Global,
    policy: &Policy,
    needed: &[bool],
    snapshots: &[PlainSnapshot],
) -> Result<Vec<PlainSnapshot>, NoMemory>
    requires { length snapshots.now ≡ length needed.now }
    ensures { IfOk result (λ kept. is_mirror policy.now.kind ≡ false → (needs : Ident → Bool) → needed.now ≡ needed_marks needs snapshots.now → kept.items ≡ retained policy.now.rules (class_of policy.now) needs snapshots.now) }
{
    let labels = labels_of(alloc, snapshots)?;
    let marks = policy.fold(alloc, &labels, needed)?;
    let kept = marked(alloc, &marks, snapshots)?;
    Ok(kept)
}
