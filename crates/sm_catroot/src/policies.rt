//! Policies.

ghost use Rattle.std.specs.Prelude.{◌≡◌, length};
ghost use Rattle.std.specs.List.{list_any};
ghost use Rattle.std.specs.Str.{bytes_eq};
ghost use Rattle.sm_base.specs.Name.{is_part};
ghost use Rattle.sm_defs.specs.Rules.{first_rules, new_policy};
ghost use Rattle.sm_fields.specs.Format.{bits32, number, text, such_that};
ghost use Rattle.sm_fields.specs.Reads.{Gives, at_byte};
ghost use Rattle.sm_register.specs.Answer.{bad_byte};
ghost use Rattle.sm_catroot.specs.Layout.{is_free_name, is_rule_count, ruled as ruled_format, policy as policy_format, policies as policies_format, policy_list as list_format};

use crate::parts::read_policy_kind;
use crate::paths::read_part;
use crate::rules::{read_added, read_first_rules};
use sm_base::limits::{MOST_POLICIES, MOST_RULES};
use sm_base::{Path1, PolicyKind};
use sm_fields::{FieldFault, Reader};
use sm_policy::Policy;
use sm_register::DecodeFault;
use std::alloc::Global;

fn is_taken(policies: &[Policy], name: &Path1) -> bool
    ensures { result ≡ list_any (λ p. bytes_eq p.name name.now) policies.now }
{
    policies
        .iter()
        .any(|policy| policy.name().text() == name.text())
}

/// A name that no policy before has.
fn read_free_name(
    alloc: Global,
    reader: &mut Reader,
    before: &[Policy],
) -> Result<Path1, DecodeFault>
    ensures { Gives bad_byte (λ n. n) (such_that (such_that (text 64) is_part) (is_free_name before.now)) reader.old result reader.new }
{
    let here = FieldFault::here(reader);
    let name = read_part(alloc, reader)?;
    if is_taken(before, &name) {
        return Err(DecodeFault::Bad { at: here.at });
    }
    Ok(name)
}

fn read_rule_count(reader: &mut Reader, least: u32) -> Result<u32, FieldFault>
    ensures { Gives at_byte (λ n. n) (such_that (number bits32) (is_rule_count least)) reader.old result reader.new }
{
    let here = FieldFault::here(reader);
    let count = reader.u32()?;
    if count < least || count > MOST_RULES as u32 {
        return Err(here);
    }
    Ok(count)
}

/// How many rules a policy of this kind has from the start.
fn first_count(kind: PolicyKind) -> u32
    ensures { result ≡ length (first_rules kind) }
{
    match kind {
        PolicyKind::AsyncMirror => 1,
        PolicyKind::Vault => 0,
    }
}

/// The rules of a policy of this name and kind.
#[tactic(auto, unfolding(crate::specs::Layout::ruled))]
fn read_ruled(
    alloc: Global,
    reader: &mut Reader,
    name: Path1,
    kind: PolicyKind,
) -> Result<Policy, DecodeFault>
    ensures { Gives bad_byte (λ p. p) (ruled_format (new_policy name kind)) reader.old result reader.new }
{
    let least = first_count(kind);
    let count = read_rule_count(reader, least)?;
    read_first_rules(reader, kind)?;
    let policy = Policy::new(alloc, name, kind)?;
    read_added(alloc, reader, policy, count.saturating_sub(least))
}

#[tactic(auto, unfolding(crate::specs::Layout::policy))]
fn read_policy(alloc: Global, reader: &mut Reader, before: &[Policy]) -> Result<Policy, DecodeFault>
    ensures { Gives bad_byte (λ p. p) (policy_format before.now) reader.old result reader.new }
{
    let name = read_free_name(alloc, reader, before)?;
    let kind = read_policy_kind(reader)?;
    read_ruled(alloc, reader, name, kind)
}

/// So many policies.
#[tactic(auto, unfolding(crate::specs::Layout::policies))]
fn read_policies(alloc: Global, reader: &mut Reader, count: u32) -> Result<Vec<Policy>, DecodeFault>
    ensures { Gives bad_byte (λ p. p.items) (policies_format count) reader.old result reader.new }
{
    let mut policies = Vec::new(alloc);
    for _ in 0..count {
        let policy = read_policy(alloc, reader, &policies)?;
        policies.push(policy)?;
    }
    Ok(policies)
}

/// How many policies, and these.
#[tactic(auto, unfolding(crate::specs::Layout::policy_list))]
pub fn read_policy_list(alloc: Global, reader: &mut Reader) -> Result<Vec<Policy>, DecodeFault>
    ensures { Gives bad_byte (λ l. l.items) list_format reader.old result reader.new }
{
    let count = reader.count(MOST_POLICIES as u32)?;
    read_policies(alloc, reader, count)
}
