//! The rules of a policy: those that a new one has, and those that it was given.

ghost use Rattle.std.specs.Prelude.{◌≡◌, ◌&&◌, ◌==◌, true, false, not, codes, OnOk};
ghost use Rattle.std.specs.Str.{bytes_eq};
ghost use Rattle.sm_base.specs.Name.{is_label};
ghost use Rattle.sm_defs.specs.Rules.{first_rules, is_wrong_rule, is_bad_keep, is_ruled, with_rule};
ghost use Rattle.sm_fields.specs.Format.{bits32, number, text as text_of, truth, such_that};
ghost use Rattle.sm_fields.specs.Reads.{Gives, at_byte};
ghost use Rattle.sm_register.specs.Answer.{bad_byte};
ghost use Rattle.sm_catroot.specs.Layout.{rule as rule_format, this_rule, these_rules, is_free_label, may_preserve, added as added_format};

use sm_base::{Label, NameFault, NoMemory, PolicyKind};
use sm_fields::{FieldFault, Reader, read_truth};
use sm_policy::{Policy, Rule, is_bad_keep, is_wrong_rule};
use sm_register::DecodeFault;
use std::alloc::Global;

fn same_text(one: &[u8], other: &[u8]) -> bool
    ensures { result ≡ bytes_eq one.now other.now }
{
    one == other
}

/// Whether the policy has a rule for the label.
fn is_ruled(policy: &Policy, label: &Label) -> bool
    ensures { result ≡ is_ruled policy.now label.now }
{
    policy.rule(label).is_some()
}

fn read_label(alloc: Global, reader: &mut Reader) -> Result<Label, DecodeFault>
    ensures { Gives bad_byte (λ l. l) (such_that (text_of 31) is_label) reader.old result reader.new }
{
    let here = FieldFault::here(reader);
    let text = reader.text(31)?;
    match Label::read(alloc, text) {
        Ok(label) => Ok(label),
        Err(NameFault::BadName) => Err(DecodeFault::Bad { at: here.at }),
        Err(NameFault::NoMemory) => Err(DecodeFault::NoMemory),
    }
}

/// A label that the policy may have, and has not yet.
fn read_free_label(
    alloc: Global,
    reader: &mut Reader,
    policy: &Policy,
) -> Result<Label, DecodeFault>
    ensures { Gives bad_byte (λ l. l) (such_that (such_that (text_of 31) is_label) (is_free_label policy.now)) reader.old result reader.new }
{
    let here = FieldFault::here(reader);
    let label = read_label(alloc, reader)?;
    if is_wrong_rule(policy.kind(), label.text(), false) || is_ruled(policy, &label) {
        return Err(DecodeFault::Bad { at: here.at });
    }
    Ok(label)
}

fn read_keep(reader: &mut Reader, kind: PolicyKind) -> Result<u32, FieldFault>
    ensures { Gives at_byte (λ n. n) (such_that (number bits32) (λ n. not (is_bad_keep kind n))) reader.old result reader.new }
{
    let here = FieldFault::here(reader);
    let keep = reader.u32()?;
    if is_bad_keep(kind, keep) {
        return Err(here);
    }
    Ok(keep)
}

fn read_preserve(reader: &mut Reader, kind: PolicyKind) -> Result<bool, FieldFault>
    ensures { Gives at_byte (λ b. b) (such_that truth (may_preserve kind)) reader.old result reader.new }
{
    let here = FieldFault::here(reader);
    let preserve = read_truth(reader)?;
    let is_mirror = match kind {
        PolicyKind::AsyncMirror => true,
        PolicyKind::Vault => false,
    };
    if is_mirror && preserve {
        return Err(here);
    }
    Ok(preserve)
}

/// A rule that the policy takes.
#[tactic(auto, unfolding(crate::specs::Layout::rule))]
fn read_rule(alloc: Global, reader: &mut Reader, policy: &Policy) -> Result<Rule, DecodeFault>
    ensures { Gives bad_byte (λ r. r) (rule_format policy.now) reader.old result reader.new }
{
    let label = read_free_label(alloc, reader, policy)?;
    let keep = read_keep(reader, policy.kind())?;
    let preserve = read_preserve(reader, policy.kind())?;
    Ok(Rule {
        label,
        keep,
        preserve,
    })
}

/// Gives the policy a rule. Only want of memory is left: what else is refused was a fault of its field.
fn give(policy: &mut Policy, rule: Rule) -> Result<(), NoMemory>
    ensures { OnOk result (policy.new ≡ with_rule policy.old rule) }
{
    match policy.add_rule(rule.label, rule.keep, rule.preserve) {
        Ok(()) => Ok(()),
        Err(_) => Err(NoMemory),
    }
}

/// So many rules that the policy takes, one after the other.
#[tactic(auto, unfolding(crate::specs::Layout::added))]
pub fn read_added(
    alloc: Global,
    reader: &mut Reader,
    policy: Policy,
    count: u32,
) -> Result<Policy, DecodeFault>
    ensures { Gives bad_byte (λ p. p) (added_format policy count) reader.old result reader.new }
{
    let mut policy = policy;
    for _ in 0..count {
        let rule = read_rule(alloc, reader, &policy)?;
        give(&mut policy, rule)?;
    }
    Ok(policy)
}

/// A text that is this one.
fn read_text(reader: &mut Reader, text: &[u8]) -> Result<(), FieldFault>
    ensures { Gives at_byte (λ _. text.now) (such_that (text_of 31) (λ t. bytes_eq t text.now)) reader.old result reader.new }
{
    let here = FieldFault::here(reader);
    let found = reader.text(31)?;
    if !same_text(found, text) {
        return Err(here);
    }
    Ok(())
}

fn read_one(reader: &mut Reader) -> Result<(), FieldFault>
    ensures { Gives at_byte (λ _. 1) (such_that (number bits32) (λ n. n == 1)) reader.old result reader.new }
{
    let here = FieldFault::here(reader);
    if reader.u32()? != 1 {
        return Err(here);
    }
    Ok(())
}

fn read_false(reader: &mut Reader) -> Result<(), FieldFault>
    ensures { Gives at_byte (λ _. false) (such_that truth (λ b. not b)) reader.old result reader.new }
{
    let here = FieldFault::here(reader);
    if read_truth(reader)? {
        return Err(here);
    }
    Ok(())
}

/// The rules that a new policy of this kind has.
#[tactic(auto, unfolding(crate::specs::Layout::this_rule, crate::specs::Layout::these_rules))]
pub fn read_first_rules(reader: &mut Reader, kind: PolicyKind) -> Result<(), FieldFault>
    ensures { Gives at_byte (λ _. true) (these_rules (first_rules kind)) reader.old result reader.new }
{
    match kind {
        PolicyKind::Vault => Ok(()),
        PolicyKind::AsyncMirror => {
            read_text(reader, b"sm_created")?;
            read_one(reader)?;
            read_false(reader)
        }
    }
}
