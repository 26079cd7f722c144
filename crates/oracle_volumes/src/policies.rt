// What events on policies and the clock are answered.
ghost use Rattle.std.specs.Prelude.{◌≡◌, ◌<◌, length, IfOk, OnErr, OnOk, Some};
ghost use Rattle.std.specs.List.{list_any};
ghost use Rattle.std.specs.Str.{bytes_eq};
ghost use Rattle.sm_base.specs.declared.refusal.Refusal.TheVariants as refusals;
ghost use Rattle.sm_model.specs.declared.reply.Reply.TheVariants as replies;
ghost use Rattle.sm_defs.specs.World.{policy_at, no_policy};
ghost use Rattle.sm_model.specs.OfPolicies as model;
ghost use Rattle.oracle_world.specs.Finding.{IsFound};
ghost use Rattle.oracle_volumes.specs.Answering.{Answers};
ghost use Rattle.sm_defs.specs.Rules.{with_rule};
ghost use Rattle.sm_policy.specs.Added.{rule_refusal, Refuses};
ghost use Rattle.oracle_volumes.specs.Ruling.{IsRuled};

use oracle_world::{PlainFault, PlainWorld, policy_named};
use sm_base::limits::MOST_POLICIES;
use sm_base::{Label, NoMemory, Path1, PolicyKind, Refusal, What};
use sm_model::Reply;
use sm_policy::{Policy, RuleFault};
use std::alloc::Global;

fn any_named(policies: &[Policy], name: &[u8]) -> bool
    ensures { result ≡ list_any (λ p. bytes_eq p.name name.now) policies.now }
{
    policies.iter().any(|p| p.name().text() == name)
}

fn is_name_taken(world: &PlainWorld, name: &Path1) -> bool
    ensures { result ≡ list_any (λ p. bytes_eq p.name name.now) world.now.policies }
{
    any_named(&world.policies, name.text())
}

fn count_policies(world: &PlainWorld) -> usize
    ensures { result ≡ length world.now.policies }
{
    world.policies.len()
}

fn add_policy(world: &mut PlainWorld, policy: Policy) -> Result<(), NoMemory>
    ensures ok { OnOk result (world.new ≡ model.with_new_policy world.old policy) }
    ensures err { OnErr result (world.new ≡ world.old) }
{
    world.policies.push(policy)?;
    Ok(())
}

/// Makes a policy.
pub fn create_policy(
    world: &mut PlainWorld,
    alloc: Global,
    name: &Path1,
    kind: PolicyKind,
) -> Result<Reply, PlainFault>
    ensures ok { IfOk result (λ reply. Answers world.old (model.create_policy world.old name.now kind) reply world.new) }
    ensures err { OnErr result (world.new ≡ world.old) }
{
    if is_name_taken(world, name) {
        return Ok(Reply::Refused(Refusal::NameTaken));
    }
    if count_policies(world) == MOST_POLICIES {
        return Ok(Reply::Refused(Refusal::Full {
            what: What::Policies,
        }));
    }
    let policy = Policy::new(alloc, name.copy(alloc)?, kind)?;
    add_policy(world, policy)?;
    Ok(Reply::Done)
}

/// The place of the first policy of the name.
pub fn place_of_policy(world: &PlainWorld, name: &Path1) -> Option<usize>
    ensures { IsFound (λ p. bytes_eq p.name name.now) world.now.policies no_policy result }
{
    policy_named(world, name.text())
}

/// The refusal of a name that no policy has.
pub fn refuse_policy(alloc: Global, name: &Path1) -> Result<Reply, PlainFault>
    ensures { IfOk result (λ reply. reply ≡ replies.Refused (refusals.NoPolicy name.now)) }
{
    Ok(Reply::Refused(Refusal::NoPolicy {
        name: name.copy(alloc)?,
    }))
}

/// The policy at a place.
pub fn policy(world: &PlainWorld, at: usize) -> &Policy
    requires { at < length world.now.policies }
    ensures { result.now ≡ policy_at world.now at }
{
    &world.policies[at]
}

fn rule_at(
    world: &mut PlainWorld,
    at: usize,
    label: Label,
    keep: u32,
    preserve: bool,
) -> Result<(), RuleFault>
    requires { at < length world.old.policies }
    ensures refused { Refuses (rule_refusal (policy_at world.old at) label keep preserve) result }
    ensures ok { OnOk result (world.new ≡ model.with_policy world.old at (with_rule (policy_at world.old at) (record { label = label; keep = keep; preserve = preserve }))) }
    ensures err { OnErr result (world.new ≡ world.old) }
{
    world.policies[at].add_rule(label, keep, preserve)
}

fn rule_named(
    world: &mut PlainWorld,
    name: &Path1,
    at: usize,
    label: Label,
    keep: u32,
    preserve: bool,
) -> Result<(), RuleFault>
    requires { IsFound (λ p. bytes_eq p.name name.now) world.old.policies no_policy (Some at) }
    ensures told { IsRuled (model.add_rule world.old name.now label keep preserve) result world.new }
    ensures err { OnErr result (world.new ≡ world.old) }
{
    rule_at(world, at, label, keep, preserve)
}

/// Gives a policy a rule.
pub fn add_rule(
    world: &mut PlainWorld,
    alloc: Global,
    name: &Path1,
    label: &Label,
    keep: u32,
    preserve: bool,
) -> Result<Reply, PlainFault>
    ensures ok { IfOk result (λ reply. Answers world.old (model.add_rule world.old name.now label.now keep preserve) reply world.new) }
    ensures err { OnErr result (world.new ≡ world.old) }
{
    let Some(at) = place_of_policy(world, name) else {
        return refuse_policy(alloc, name);
    };
    let label = label.copy(alloc)?;
    match rule_named(world, name, at, label, keep, preserve) {
        Ok(()) => Ok(Reply::Done),
        Err(RuleFault::WrongRule) => Ok(Reply::Refused(Refusal::WrongRule)),
        Err(RuleFault::BadKeep) => Ok(Reply::Refused(Refusal::BadKeep)),
        Err(RuleFault::RuleTaken) => Ok(Reply::Refused(Refusal::RuleTaken)),
        Err(RuleFault::RulesFull) => Ok(Reply::Refused(Refusal::RulesFull)),
        Err(RuleFault::NoMemory) => Err(PlainFault::NoMemory),
    }
}

/// Sets the clock, which does not go back.
pub fn set_clock(world: &mut PlainWorld, time: u64) -> Reply
    ensures { Answers world.old (model.set_clock world.old time) result world.new }
{
    let now = world.clock;
    if time < now {
        return Reply::Refused(Refusal::ClockBack { now });
    }
    world.clock = time;
    Reply::Done
}
