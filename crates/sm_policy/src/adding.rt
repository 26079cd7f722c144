// Whether a policy takes a further rule.
ghost use Rattle.std.specs.Prelude.{◌≡◌, length, OnOk, OnErr, is_some, Some};
ghost use Rattle.sm_defs.specs.Relationship.{rule_for};
ghost use Rattle.sm_defs.specs.Rules.{is_mirror_label, is_wrong_rule, is_bad_keep, is_ruled, are_rules_full, with_rule};
ghost use Rattle.sm_policy.specs.Added.{rule_refusal, Refuses};

use crate::policy::{Policy, Rule};
use crate::ruling::same_text;
use sm_base::limits::{MOST_KEPT, MOST_RULES};
use sm_base::{Label, PolicyKind};
use std::alloc::AllocFailed;

/// Why a policy did not take a rule.
#[derive(Clone, Copy, Debug, PartialEq, Eq)]
pub enum RuleFault {
    /// A mirror has the rules of two labels alone and keeps nothing for good; a vault has neither of these.
    WrongRule,
    /// The number to keep is not 1, or for a vault is not from 1 to [`MOST_KEPT`].
    BadKeep,
    /// The label has a rule.
    RuleTaken,
    /// There are [`MOST_RULES`] rules.
    RulesFull,
    /// There is no memory left for the rule.
    NoMemory,
}

impl<T: Drop> From<AllocFailed<T>> for RuleFault {
    ghost use Rattle.std.specs.Prelude.{◌≡◌};
    ghost use Rattle.sm_policy.specs.declared.adding.RuleFault.TheVariants.{NoMemory as OutOfMemory};

    ghost from_gives = { λ _ e. e ≡ OutOfMemory };

    fn from(_: AllocFailed<T>) -> RuleFault {
        RuleFault::NoMemory
    }
}

/// Whether policies of mirrors alone may have a rule for the label.
pub fn is_mirror_label(label: &[u8]) -> bool
    ensures { result ≡ is_mirror_label label.now }
{
    same_text(label, b"sm_created") || same_text(label, b"all_source_snapshots")
}

/// Whether a policy of the kind may not have such a rule: a mirror's have their two labels and keep
/// nothing for good, a vault's have other labels.
pub fn is_wrong_rule(kind: PolicyKind, label: &[u8], preserve: bool) -> bool
    ensures { result ≡ is_wrong_rule kind label.now preserve }
{
    match kind {
        PolicyKind::AsyncMirror => !is_mirror_label(label) || preserve,
        PolicyKind::Vault => is_mirror_label(label),
    }
}

/// Whether a rule of the kind may not keep so many: a mirror keeps 1, a vault 1 to [`MOST_KEPT`].
pub fn is_bad_keep(kind: PolicyKind, keep: u32) -> bool
    ensures { result ≡ is_bad_keep kind keep }
{
    match kind {
        PolicyKind::AsyncMirror => keep != 1,
        PolicyKind::Vault => keep == 0 || keep > MOST_KEPT,
    }
}

impl Policy {
    // Why the policy does not take a rule, but for memory.
    fn rule_refusal(&self, label: &Label, keep: u32, preserve: bool) -> Option<RuleFault>
        ensures { result ≡ rule_refusal self.now label.now keep preserve }
    {
        if is_wrong_rule(self.kind(), label.text(), preserve) {
            Some(RuleFault::WrongRule)
        } else if is_bad_keep(self.kind(), keep) {
            Some(RuleFault::BadKeep)
        } else if self.rule(label).is_some() {
            Some(RuleFault::RuleTaken)
        } else if self.rules().len() == MOST_RULES {
            Some(RuleFault::RulesFull)
        } else {
            None
        }
    }

    /// Adds a rule behind the others. A refusal comes exactly where its words say, the first of them in
    /// their order; the policy is then as it was.
    pub fn add_rule(&mut self, label: Label, keep: u32, preserve: bool) -> Result<(), RuleFault>
        ensures refused { Refuses (rule_refusal self.old label keep preserve) result }
        ensures ok { OnOk result (self.new ≡ with_rule self.old (record { label = label; keep = keep; preserve = preserve })) }
        ensures err { OnErr result (self.new ≡ self.old) }
    {
        match self.rule_refusal(&label, keep, preserve) {
            Some(refusal) => Err(refusal),
            None => {
                self.rules.push(Rule {
                    label,
                    keep,
                    preserve,
                })?;
                Ok(())
            }
        }
    }
}
