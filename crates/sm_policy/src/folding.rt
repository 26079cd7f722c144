// Which snapshots of a list a vault keeps.
ghost use Rattle.std.specs.Prelude.{◌≡◌, ◌≤◌, ◌&&◌, ◌||◌, length, count_by, IfOk, Some, None};
ghost use Rattle.std.specs.List.{zip};
ghost use Rattle.std.specs.Option.{option_eq};
ghost use Rattle.std.specs.Str.{bytes_eq};
ghost use Rattle.sm_defs.specs.Relationship.{rule_for};
ghost use Rattle.sm_defs.specs.Retention.{labelled, keeps_by_rule};
ghost use Rattle.sm_policy.specs.Marks.{marked, kept_marks, KeepsRetained};

use crate::policy::Policy;
use crate::ruling::same_text;
use sm_base::{Label, NoMemory};
use std::alloc::Global;

pub(crate) fn same_label(one: &Option<Label>, other: &Option<Label>) -> bool
    ensures { result ≡ option_eq bytes_eq one.now other.now }
{
    match (one, other) {
        (None, None) => true,
        (Some(one), Some(other)) => same_text(one.text(), other.text()),
        _ => false,
    }
}

// How many of the kept ones have the label.
fn count_kept(labels: &[Option<Label>], kept: &[bool], label: &Option<Label>) -> usize
    ensures count { result ≡ count_by (λ l. l.1 && option_eq bytes_eq l.0 label.now) (zip labels.now kept.now) }
{
    labels
        .iter()
        .zip(kept)
        .filter(|(other, kept)| **kept && same_label(other, label))
        .count()
}

impl Policy {
    // Whether a label's rule keeps one more behind so many newer ones.
    fn has_room(&self, label: &Option<Label>, newer: usize) -> bool
        ensures { result ≡ keeps_by_rule (rule_for self.now.rules label.now) newer }
    {
        match label {
            None => false,
            Some(label) => match self.rule(label) {
                None => false,
                Some(rule) => rule.preserve || newer < rule.keep as usize,
            },
        }
    }

    fn stays(&self, needed: bool, label: &Option<Label>, newer: usize) -> bool
        ensures { result ≡ (needed || keeps_by_rule (rule_for self.now.rules label.now) newer) }
    {
        needed || self.has_room(label, newer)
    }

    /// Which snapshots of a list a vault keeps, given the label of each, oldest first, and whether it is
    /// needed: what is needed, what its rule preserves, and as many of the newest of a label as its rule
    /// says, those counted that are kept for another reason.
    pub fn fold(
        &self,
        alloc: Global,
        labels: &[Option<Label>],
        needed: &[bool],
    ) -> Result<Vec<bool>, NoMemory>
        requires { length labels.now ≡ length needed.now }
        ensures marks { IfOk result (λ kept. kept.items ≡ kept_marks self.now.rules labels.now needed.now) }
        ensures retained { IfOk result (λ kept. KeepsRetained self.now labels.now needed.now kept.items) }
    {
        let mut kept = vec![in alloc; false; labels.len()]?;
        for at in (0..labels.len()).rev() {
            let label = &labels[at];
            let newer = count_kept(&labels[at + 1..], &kept[at + 1..], label);
            kept[at] = self.stays(needed[at], label, newer);
        }
        Ok(kept)
    }
}
