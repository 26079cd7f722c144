//! A catalogue written as its record.

ghost use Rattle.std.specs.Prelude.{◌≡◌, ◌++◌, ◌∷◌, ◌+◌, ◌==◌, OnOk, IfOk, IfSome, All, length, ◌≤◌, ◌<◌, ◌^◌, Some, position};
ghost use Rattle.std.specs.List.{flat_map};
ghost use Rattle.sm_fields.specs.Grammar.{identity_digits, option_digits};
ghost use Rattle.sm_catroot.specs.Condition.{IsCatalog, HasFewRules, HasFewLegs};
ghost use Rattle.sm_catroot.specs.Spelling.{numbers_digits, numbers_of, path_digits, placed_digits, rule_digits, policy_digits, transfer_head_digits, transfer_head_of, transfer_digits, relation_head_digits, relation_head_of, relation_digits, volumes_bytes, policies_bytes, relations_bytes, body_bytes, spelling};

use crate::catalog::Catalog;
use crate::placed::Placed;
use crate::{MAGIC, MOST_LEGS};
use sm_base::limits::{MOST_POLICIES, MOST_RELATIONS, MOST_RULES, MOST_VOLUMES};
use sm_base::{Ident, NoMemory, Path, PolicyKind, TransferKind};
use sm_fields::{Writer, framed, write_identity, write_optional_identity, write_truth};
use sm_policy::{Policy, Rule};
use sm_relation::{Relation, Standing};
use std::alloc::Global;

#[tactic(auto, unfolding(crate::specs::Spelling::numbers_digits))]
fn write_numbers(writer: &mut Writer, catalog: &Catalog) -> Result<(), NoMemory>
    ensures { OnOk result (writer.new ≡ writer.old ++ numbers_digits (numbers_of catalog.now)) }
{
    writer.u64(catalog.clock)?;
    writer.u32(catalog.next_relation)?;
    writer.u64(catalog.next_transfer)
}

#[tactic(auto, unfolding(crate::specs::Spelling::rule_digits))]
fn write_rule(writer: &mut Writer, rule: &Rule) -> Result<(), NoMemory>
    ensures { OnOk result (writer.new ≡ writer.old ++ rule_digits rule.now) }
{
    writer.text(31, rule.label.text())?;
    writer.u32(rule.keep)?;
    write_truth(writer, rule.preserve)
}

fn write_rules(writer: &mut Writer, rules: &[Rule]) -> Result<(), NoMemory>
    ensures { OnOk result (writer.new ≡ writer.old ++ flat_map rule_digits rules.now) }
{
    for rule in rules {
        write_rule(writer, rule)?;
    }
    Ok(())
}

#[tactic(auto, unfolding(crate::specs::Spelling::policy_digits))]
fn write_policy(writer: &mut Writer, policy: &Policy) -> Result<(), NoMemory>
    requires { HasFewRules policy.now }
    ensures { OnOk result (writer.new ≡ writer.old ++ policy_digits policy.now) }
{
    writer.text(64, policy.name().text())?;
    writer.u8(match policy.kind() {
        PolicyKind::AsyncMirror => 0,
        PolicyKind::Vault => 1,
    })?;
    let rules = policy.rules();
    writer.count(MOST_RULES as u32, rules.len() as u32)?;
    write_rules(writer, rules)
}

#[tactic(auto, unfolding(crate::specs::Spelling::transfer_head_digits))]
fn write_transfer_head(writer: &mut Writer, transfer: &Standing) -> Result<(), NoMemory>
    ensures { OnOk result (writer.new ≡ writer.old ++ transfer_head_digits (transfer_head_of transfer.now)) }
{
    writer.u64(transfer.number)?;
    writer.u8(match transfer.kind {
        TransferKind::Initialize => 0,
        TransferKind::Update => 1,
        TransferKind::Resync => 2,
    })?;
    write_truth(writer, transfer.reserved)?;
    writer.u32(transfer.checkpoint)
}

fn write_legs(writer: &mut Writer, legs: &[Ident]) -> Result<(), NoMemory>
    ensures { OnOk result (writer.new ≡ writer.old ++ flat_map identity_digits legs.now) }
{
    for leg in legs {
        write_identity(writer, *leg)?;
    }
    Ok(())
}

#[tactic(auto, unfolding(crate::specs::Spelling::transfer_digits))]
fn write_transfer(writer: &mut Writer, transfer: &Standing) -> Result<(), NoMemory>
    requires { HasFewLegs transfer.now }
    ensures { OnOk result (writer.new ≡ writer.old ++ transfer_digits transfer.now) }
{
    write_transfer_head(writer, transfer)?;
    let legs = transfer.legs.as_slice();
    writer.count(MOST_LEGS, legs.len() as u32)?;
    write_legs(writer, legs)
}

fn colon(text: &[u8]) -> Option<usize>
    ensures { result ≡ position (λ b. b == 58) text.now }
{
    text.iter().position(|b| *b == b':')
}

/// The two parts of a path.
#[tactic(auto, unfolding(crate::specs::Spelling::path_digits))]
fn write_path(writer: &mut Writer, path: &Path) -> Result<(), NoMemory>
    ensures { OnOk result (writer.new ≡ writer.old ++ path_digits path.now) }
{
    let text = path.text();
    match colon(text) {
        None => unreachable!(),
        Some(at) => {
            writer.text(64, &text[..at])?;
            writer.text(64, &text[at + 1..])
        }
    }
}

#[tactic(auto, unfolding(crate::specs::Spelling::placed_digits))]
fn write_placed(writer: &mut Writer, placed: &Placed) -> Result<(), NoMemory>
    ensures { OnOk result (writer.new ≡ writer.old ++ placed_digits placed.now) }
{
    write_path(writer, &placed.path)?;
    writer.u32(placed.disk.0)
}

fn write_each_placed(writer: &mut Writer, volumes: &[Placed]) -> Result<(), NoMemory>
    ensures { OnOk result (writer.new ≡ writer.old ++ flat_map placed_digits volumes.now) }
{
    for placed in volumes {
        write_placed(writer, placed)?;
    }
    Ok(())
}

#[tactic(auto, unfolding(crate::specs::Spelling::volumes_bytes))]
fn write_volumes(writer: &mut Writer, volumes: &[Placed]) -> Result<(), NoMemory>
    requires { length volumes.now ≤ MOST_VOLUMES }
    ensures { OnOk result (writer.new ≡ writer.old ++ volumes_bytes volumes.now) }
{
    writer.count(MOST_VOLUMES as u32, volumes.len() as u32)?;
    write_each_placed(writer, volumes)
}

fn write_each_policy(writer: &mut Writer, policies: &[Policy]) -> Result<(), NoMemory>
    requires { All HasFewRules policies.now }
    ensures { OnOk result (writer.new ≡ writer.old ++ flat_map policy_digits policies.now) }
{
    for policy in policies {
        write_policy(writer, policy)?;
    }
    Ok(())
}

#[tactic(auto, unfolding(crate::specs::Spelling::policies_bytes))]
fn write_policies(writer: &mut Writer, policies: &[Policy]) -> Result<(), NoMemory>
    requires few { length policies.now ≤ MOST_POLICIES }
    requires rules { All HasFewRules policies.now }
    ensures { OnOk result (writer.new ≡ writer.old ++ policies_bytes policies.now) }
{
    writer.count(MOST_POLICIES as u32, policies.len() as u32)?;
    write_each_policy(writer, policies)
}

#[tactic(auto, unfolding(crate::specs::Spelling::relation_head_digits))]
fn write_relation_head(writer: &mut Writer, relation: &Relation) -> Result<(), NoMemory>
    ensures { OnOk result (writer.new ≡ writer.old ++ relation_head_digits (relation_head_of relation.now)) }
{
    writer.u32(relation.number.0)?;
    writer.u32(relation.source.0)?;
    writer.u32(relation.destination.0)?;
    writer.u32(relation.policy)?;
    writer.u8(match (relation.source_half, relation.destination_half) {
        (false, false) => 0,
        (true, false) => 1,
        (false, true) => 2,
        (true, true) => 3,
    })?;
    write_truth(writer, relation.quiesced)
}

fn write_optional_transfer(writer: &mut Writer, transfer: &Option<Standing>) -> Result<(), NoMemory>
    requires { IfSome transfer.now HasFewLegs }
    ensures { OnOk result (writer.new ≡ writer.old ++ option_digits transfer_digits transfer.now) }
{
    match transfer {
        None => write_truth(writer, false),
        Some(transfer) => {
            write_truth(writer, true)?;
            write_transfer(writer, transfer)
        }
    }
}

#[tactic(auto, unfolding(crate::specs::Spelling::relation_digits))]
fn write_relation(writer: &mut Writer, relation: &Relation) -> Result<(), NoMemory>
    requires { IfSome relation.now.transfer HasFewLegs }
    ensures { OnOk result (writer.new ≡ writer.old ++ relation_digits relation.now) }
{
    write_relation_head(writer, relation)?;
    write_optional_identity(writer, relation.base)?;
    write_optional_transfer(writer, &relation.transfer)
}

fn write_each_relation(writer: &mut Writer, relations: &[Relation]) -> Result<(), NoMemory>
    requires { All (λ r. IfSome r.transfer HasFewLegs) relations.now }
    ensures { OnOk result (writer.new ≡ writer.old ++ flat_map relation_digits relations.now) }
{
    for relation in relations {
        write_relation(writer, relation)?;
    }
    Ok(())
}

#[tactic(auto, unfolding(crate::specs::Spelling::relations_bytes))]
fn write_relations(writer: &mut Writer, relations: &[Relation]) -> Result<(), NoMemory>
    requires few { length relations.now ≤ MOST_RELATIONS }
    requires legs { All (λ r. IfSome r.transfer HasFewLegs) relations.now }
    ensures { OnOk result (writer.new ≡ writer.old ++ relations_bytes relations.now) }
{
    writer.count(MOST_RELATIONS as u32, relations.len() as u32)?;
    write_each_relation(writer, relations)
}

#[tactic(auto, unfolding(crate::specs::Spelling::body_bytes))]
fn write_body(writer: &mut Writer, catalog: &Catalog) -> Result<(), NoMemory>
    requires volumes { length catalog.now.volumes ≤ MOST_VOLUMES }
    requires policies { length catalog.now.policies ≤ MOST_POLICIES }
    requires rules { All HasFewRules catalog.now.policies }
    requires relations { length catalog.now.relations ≤ MOST_RELATIONS }
    requires legs { All (λ r. IfSome r.transfer HasFewLegs) catalog.now.relations }
    ensures { OnOk result (writer.new ≡ writer.old ++ body_bytes catalog.now) }
{
    write_numbers(writer, catalog)?;
    write_volumes(writer, &catalog.volumes)?;
    write_policies(writer, &catalog.policies)?;
    write_relations(writer, &catalog.relations)
}

/// The one spelling of a catalogue, at most 218,220 bytes. Which of its transfers run is not spelled.
pub fn encode(alloc: Global, catalog: &Catalog) -> Result<Vec<u8>, NoMemory>
    requires { IsCatalog catalog.now }
    ensures spelled { IfOk result (λ bytes. bytes.items ≡ spelling catalog.now) }
    ensures short { IfOk result (λ bytes. length bytes.items ≤ 218220) }
{
    let mut writer = Writer::new(alloc);
    write_body(&mut writer, catalog)?;
    framed(alloc, &MAGIC, &writer.end())
}
