// The rule of a label.
ghost use Rattle.std.specs.Prelude.{◌≡◌, Some};
ghost use Rattle.std.specs.Option.{option_copied};
ghost use Rattle.std.specs.Str.{bytes_eq};
ghost use Rattle.sm_defs.specs.Relationship.{rule_for};

use crate::policy::{Policy, Rule};
use sm_base::Label;

pub(crate) fn same_text(one: &[u8], other: &[u8]) -> bool
    ensures { result ≡ bytes_eq one.now other.now }
{
    one == other
}

fn rule_of<'a>(rules: &'a [Rule], label: &[u8]) -> Option<&'a Rule>
    ensures { option_copied result ≡ rule_for rules.now (Some label.now) }
{
    rules
        .iter()
        .find(|rule| same_text(rule.label.text(), label))
}

impl Policy {
    /// The rule of a label, if it has one. It takes no memory.
    pub fn rule(&self, label: &Label) -> Option<&Rule>
        ensures { option_copied result ≡ rule_for self.now.rules (Some label.now) }
    {
        rule_of(self.rules(), label.text())
    }
}
