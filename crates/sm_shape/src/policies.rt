//! The test of the form of policies: their names, and rules as they may be added.

ghost use Rattle.std.specs.Prelude.{◌≡◌, ◌≤◌, ◌∷◌, [], ◌↔◌, IsTrue, length, true, None, Some};
ghost use Rattle.std.specs.List.{All, list_any};
ghost use Rattle.std.specs.Str.{bytes_eq};
ghost use Rattle.sm_base.specs.Name.{is_part, is_label as is_label_text};
ghost use Rattle.sm_base.specs.declared.limits.TheConstants.{MOST_RULES};
ghost use Rattle.sm_defs.specs.Relationship.{rule_for};
ghost use Rattle.sm_defs.specs.Rules.{first_rules, is_mirror_label as is_label_of_mirrors, is_wrong_rule as is_rule_wrong, is_bad_keep as is_keep_bad};
ghost use Rattle.sm_model.specs.Formed.{FormedRule};
ghost use Rattle.sm_shape.specs.Behind.{EachBehind};
ghost use Rattle.sm_shape.specs.Forms.{RuleAdded, AddedAt, AddedFrom, BeginsWith, RulesForm, PolicyForm, IsOtherPolicy, PolicyFitsBehind};

use crate::kept::is_ruled;
use sm_base::limits::{MOST_KEPT, MOST_RULES};
use sm_base::{Path1, PolicyKind};
use sm_model::{WorldPolicy, WorldRule};
use sm_policy::{is_bad_keep, is_wrong_rule};

/// A policy's name keeps to the grammar.
fn name_is_spelled(name: &Path1)
    ensures { is_part name.now ≡ true }
{
    let _text = name.text();
}

/// Whether the label has no rule yet.
fn is_new(rules: &[WorldRule], label: &[u8]) -> bool
    ensures { IsTrue result ↔ (rule_for rules.now (Some label.now) ≡ None) }
{
    !is_ruled(rules, label)
}

fn rule_added(kind: PolicyKind, before: &[WorldRule], rule: &WorldRule) -> bool
    ensures { IsTrue result ↔ RuleAdded kind before.now rule.now }
{
    if is_wrong_rule(kind, rule.label.text(), rule.preserve) {
        return false;
    }
    if is_bad_keep(kind, rule.keep) {
        return false;
    }
    is_new(before, rule.label.text())
}

fn is_added(
    kind: PolicyKind,
    from: usize,
    place: usize,
    before: &[WorldRule],
    rule: &WorldRule,
) -> bool
    ensures { IsTrue result ↔ AddedAt kind from place before.now rule.now }
{
    place < from || rule_added(kind, before, rule)
}

/// Whether each rule from the place on may be added behind those before it.
fn rules_added(kind: PolicyKind, from: usize, rules: &[WorldRule]) -> bool
    ensures { IsTrue result ↔ AddedFrom kind from rules.now }
{
    for place in 0..rules.len() {
        if !is_added(kind, from, place, &rules[..place], &rules[place]) {
            return false;
        }
    }
    true
}

/// Whether the rule is the one that a mirror comes with.
fn is_first(rule: &WorldRule) -> bool
    ensures { IsTrue result ↔ BeginsWith (rule.now ∷ []) (first_rules PolicyKind.AsyncMirror) }
{
    rule.label.text() == b"sm_created".as_slice() && rule.keep == 1 && !rule.preserve
}

fn begins(rules: &[WorldRule]) -> bool
    ensures { IsTrue result ↔ BeginsWith rules.now (first_rules PolicyKind.AsyncMirror) }
{
    match rules {
        [first, ..] => is_first(first),
        [] => false,
    }
}

fn rules_form(kind: PolicyKind, rules: &[WorldRule]) -> bool
    ensures { IsTrue result ↔ RulesForm kind rules.now }
{
    match kind {
        PolicyKind::AsyncMirror => begins(rules) && rules_added(PolicyKind::AsyncMirror, 1, rules),
        PolicyKind::Vault => rules_added(PolicyKind::Vault, 0, rules),
    }
}

fn keep_forms(rule: &WorldRule) -> bool
    ensures { IsTrue result ↔ FormedRule rule.now }
{
    let _label = rule.label.text();
    rule.keep >= 1 && rule.keep <= MOST_KEPT
}

fn keeps_form(rules: &[WorldRule]) -> bool
    ensures { IsTrue result ↔ All FormedRule rules.now }
{
    rules.iter().all(|rule| keep_forms(rule))
}

fn are_few(rules: &[WorldRule]) -> bool
    ensures { IsTrue result ↔ (length rules.now ≤ MOST_RULES) }
{
    rules.len() <= MOST_RULES
}

fn policy_forms(policy: &WorldPolicy) -> bool
    ensures { IsTrue result ↔ PolicyForm policy.now }
{
    name_is_spelled(&policy.name);
    if !are_few(&policy.rules) {
        return false;
    }
    if !keeps_form(&policy.rules) {
        return false;
    }
    rules_form(policy.kind, &policy.rules)
}

fn is_other(policy: &WorldPolicy, earlier: &WorldPolicy) -> bool
    ensures { IsTrue result ↔ IsOtherPolicy policy.now earlier.now }
{
    policy.name.text() != earlier.name.text()
}

fn others_differ(before: &[WorldPolicy], policy: &WorldPolicy) -> bool
    ensures { IsTrue result ↔ All (IsOtherPolicy policy.now) before.now }
{
    before.iter().all(|earlier| is_other(policy, earlier))
}

fn policy_fits(before: &[WorldPolicy], policy: &WorldPolicy) -> bool
    ensures { IsTrue result ↔ PolicyFitsBehind before.now policy.now }
{
    if !policy_forms(policy) {
        return false;
    }
    others_differ(before, policy)
}

/// Whether each policy has rules as they may be added, and a name of its own.
pub fn policies_form(policies: &[WorldPolicy]) -> bool
    ensures { IsTrue result ↔ EachBehind PolicyFitsBehind policies.now }
{
    for place in 0..policies.len() {
        if !policy_fits(&policies[..place], &policies[place]) {
            return false;
        }
    }
    true
}
