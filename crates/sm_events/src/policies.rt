// A policy is made, or gets a rule.
ghost use Rattle.std.specs.Prelude.{◌≡◌, ◌<◌, true, IfOk, Some, length, position, slice_get};
ghost use Rattle.std.specs.List.{list_any};
ghost use Rattle.std.specs.Str.{bytes_eq};
ghost use Rattle.sm_base.specs.Name.{is_part};
ghost use Rattle.sm_defs.specs.Relationship.{Policy as PlainPolicy};
ghost use Rattle.sm_defs.specs.Rules.{new_policy};
ghost use Rattle.sm_model.specs.InRange.{IsRuleGiven};
ghost use Rattle.sm_model.specs.OfPolicies as answers;
ghost use Rattle.sm_model.specs.Telling.{told_by};
ghost use Rattle.sm_node.specs.Nodes.{world_of, IsUp};
ghost use Rattle.sm_node.specs.Acts.{Acts};
ghost use Rattle.sm_node.specs.Served.{first_of};
ghost use Rattle.sm_events.specs.Ruling.{with_new_policy, policy_created, rule_added_to, rule_added};

use crate::deciding::settle;
use sm_base::limits::MOST_POLICIES;
use sm_base::{Label, NoMemory, Path1, PolicyKind, Refusal, What};
use sm_catroot::Catalog;
use sm_disk::Disk;
use sm_model::Reply;
use sm_node::{Node, NodeFault};
use sm_policy::{Policy, RuleFault};
use std::alloc::Global;

fn is_name_taken(policies: &[Policy], name: &[u8]) -> bool
    ensures { result ≡ list_any (λ p. bytes_eq p.name name.now) policies.now }
{
    policies.iter().any(|policy| policy.name().text() == name)
}

/// The place of the first policy of the name.
pub fn place_of(policies: &[Policy], name: &[u8]) -> Option<usize>
    ensures { result ≡ position (λ p. bytes_eq p.name name.now) policies.now }
{
    policies
        .iter()
        .position(|policy| policy.name().text() == name)
}

// The catalogue with a new policy.
fn with_created(
    alloc: Global,
    catalog: &Catalog,
    name: &Path1,
    kind: PolicyKind,
) -> Result<Catalog, NoMemory>
    ensures { IfOk result (λ next. next ≡ with_new_policy catalog.now (new_policy name.now kind)) }
{
    let mut next = catalog.copy(alloc)?;
    next.policies
        .push(Policy::new(alloc, name.copy(alloc)?, kind)?)?;
    Ok(next)
}

// The catalogue with a new policy, or why there is none.
#[tactic(auto, unfolding(sm_model::specs::Answers::and_then, sm_model::specs::Answers::refused_if))]
fn decide_policy(
    alloc: Global,
    catalog: &Catalog,
    name: &Path1,
    kind: PolicyKind,
) -> Result<Result<Catalog, Refusal>, NoMemory>
    ensures { IfOk result (λ decided. decided ≡ policy_created catalog.now name.now kind) }
{
    if is_name_taken(&catalog.policies, name.text()) {
        return Ok(Err(Refusal::NameTaken));
    }
    if catalog.policies.len() == MOST_POLICIES {
        return Ok(Err(Refusal::Full {
            what: What::Policies,
        }));
    }
    Ok(Ok(with_created(alloc, catalog, name, kind)?))
}

// The catalogue whose policy at this place has the rule, or why it does not take it.
fn decide_rule_at(
    alloc: Global,
    catalog: &Catalog,
    at: usize,
    label: &Label,
    keep: u32,
    preserve: bool,
) -> Result<Result<Catalog, Refusal>, NoMemory>
    requires { at < length catalog.now.policies }

    ensures { IfOk result (λ decided. (p : PlainPolicy) → slice_get catalog.now.policies at ≡ Some p → decided ≡ rule_added_to catalog.now (record { at = at; item = p }) (record { label = label.now; keep = keep; preserve = preserve })) }
{
    let mut next = catalog.copy(alloc)?;
    let label = label.copy(alloc)?;
    match next.policies[at].add_rule(label, keep, preserve) {
        Ok(()) => Ok(Ok(next)),
        Err(RuleFault::WrongRule) => Ok(Err(Refusal::WrongRule)),
        Err(RuleFault::BadKeep) => Ok(Err(Refusal::BadKeep)),
        Err(RuleFault::RuleTaken) => Ok(Err(Refusal::RuleTaken)),
        Err(RuleFault::RulesFull) => Ok(Err(Refusal::RulesFull)),
        Err(RuleFault::NoMemory) => Err(NoMemory),
    }
}

// The catalogue whose policy of this name has the rule, or why there is none.
fn decide_rule(
    alloc: Global,
    catalog: &Catalog,
    name: &Path1,
    label: &Label,
    keep: u32,
    preserve: bool,
) -> Result<Result<Catalog, Refusal>, NoMemory>
    ensures { IfOk result (λ decided. decided ≡ rule_added catalog.now name.now (record { label = label.now; keep = keep; preserve = preserve })) }
{
    match place_of(&catalog.policies, name.text()) {
        None => Ok(Err(Refusal::NoPolicy {
            name: name.copy(alloc)?,
        })),
        Some(at) => decide_rule_at(alloc, catalog, at, label, keep, preserve),
    }
}

/// Makes a policy. Every refusal is decided from memory alone.
pub fn create_policy<D: Disk + Drop>(
    alloc: Global,
    node: &mut Node<D>,
    name: &Path1,
    kind: PolicyKind,
) -> Result<(Reply, Reply), NodeFault>
    requires up { IsUp node.old }
    requires given { is_part name.now ≡ true }

    ensures acts { Acts D.state (answers.create_policy (world_of node.old) name.now kind) node.old (first_of result) node.new }
    ensures twice { IfOk result (λ replies. told_by replies.1 ≡ told_by replies.0) }
{
    node.told_up();
    let decided = decide_policy(alloc, node.catalog(), name, kind)?;
    settle(alloc, node, decided, Reply::Done)
}

/// Gives a policy a rule. Every refusal is decided from memory alone.
pub fn add_rule<D: Disk + Drop>(
    alloc: Global,
    node: &mut Node<D>,
    name: &Path1,
    label: &Label,
    keep: u32,
    preserve: bool,
) -> Result<(Reply, Reply), NodeFault>
    requires up { IsUp node.old }
    requires given { IsRuleGiven name.now label.now keep }

    ensures acts { Acts D.state (answers.add_rule (world_of node.old) name.now label.now keep preserve) node.old (first_of result) node.new }
    ensures twice { IfOk result (λ replies. told_by replies.1 ≡ told_by replies.0) }
{
    node.told_up();
    let decided = decide_rule(alloc, node.catalog(), name, label, keep, preserve)?;
    settle(alloc, node, decided, Reply::Done)
}
