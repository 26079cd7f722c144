// Whether a rule that preserves has room for what would come.
ghost use Rattle.std.specs.Prelude.{◌≡◌, ◌≤◌, length, count_by, Some, option_map};
ghost use Rattle.std.specs.List.{find};
ghost use Rattle.std.specs.Option.{option_copied, option_eq};
ghost use Rattle.std.specs.Str.{bytes_eq};
ghost use Rattle.sm_defs.specs.Relationship.{Rule};
ghost use Rattle.sm_defs.specs.Retention.{labelled, is_reached, keep_reached};

use crate::policy::{Policy, Rule};
use crate::ruling::same_text;
use sm_base::Label;

fn is_label(label: &Option<Label>, text: &[u8]) -> bool
    ensures { result ≡ option_eq bytes_eq label.now (Some text.now) }
{
    match label {
        None => false,
        Some(label) => same_text(label.text(), text),
    }
}

fn count_label(labels: &[Option<Label>], text: &[u8]) -> usize
    ensures { result ≡ labelled (Some text.now) labels.now }
{
    labels.iter().filter(|label| is_label(label, text)).count()
}

fn is_reached(rule: &Rule, there: &[Option<Label>], coming: &[Option<Label>]) -> bool
    ensures { result ≡ is_reached there.now coming.now rule.now }
{
    let text = rule.label.text();
    let count = count_label(there, text) as u128 + count_label(coming, text) as u128;
    rule.preserve && u128::from(rule.keep) < count
}

fn first_reached<'a>(
    rules: &'a [Rule],
    there: &[Option<Label>],
    coming: &[Option<Label>],
) -> Option<&'a Rule>
    ensures { option_copied result ≡ keep_reached rules.now there.now coming.now }
{
    rules.iter().find(|rule| is_reached(rule, there, coming))
}

impl Policy {
    /// The label of the first rule that preserves and keeps fewer than there are and would come together.
    /// It takes no memory.
    pub fn keep_reached(&self, have: &[Option<Label>], more: &[Option<Label>]) -> Option<&Label>
        ensures { option_copied result ≡ option_map (λ rule. rule.label) (keep_reached self.now.rules have.now more.now) }
    {
        match first_reached(self.rules(), have, more) {
            None => None,
            Some(rule) => Some(&rule.label),
        }
    }
}
