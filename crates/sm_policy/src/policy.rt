// A policy and its rules.
ghost use Rattle.std.specs.Prelude.{◌≡◌, true, IfOk};
ghost use Rattle.sm_base.specs.Name.{is_label};
ghost use Rattle.sm_defs.specs.Rules.{first_rules, new_policy};

use sm_base::{Label, NameFault, NoMemory, Path1, PolicyKind};
use std::alloc::Global;
use std::marker::Model;

/// How many snapshots of a label are kept, from 1 to [`MOST_KEPT`](sm_base::limits::MOST_KEPT), and
/// whether for good.
#[derive(Debug, Drop)]
pub struct Rule {
    pub label: Label,
    pub keep: u32,
    /// Whether none of them is ever dropped; then no more than `keep` may come.
    pub preserve: bool,
}

impl Model for Rule {
    ghost use Rattle.sm_defs.specs.Relationship.{Rule};

    ghost Value = { Rule };

    ghost view = { λ r. record { label = r.label; keep = r.keep; preserve = r.preserve } };
}

impl Rule {
    /// An equal rule.
    pub fn copy(&self, alloc: Global) -> Result<Rule, NoMemory>
        ensures { IfOk result (λ rule. rule ≡ self.now) }
    {
        Ok(Rule {
            label: self.label.copy(alloc)?,
            keep: self.keep,
            preserve: self.preserve,
        })
    }
}

/// A policy by which relationships go: its name, what it makes of them, and its rules.
#[derive(Debug, Drop)]
pub struct Policy {
    name: Path1,
    kind: PolicyKind,
    // In the order in which they were added.
    pub(crate) rules: Vec<Rule>,
}

impl Model for Policy {
    ghost use Rattle.sm_defs.specs.Relationship.{Policy};

    ghost Value = { Policy };

    ghost view = { λ p. record { name = p.name; kind = p.kind; rules = p.rules.items } };
}

impl Policy {
    /// A policy as it is made: a mirror has the rule for the snapshots that its transfers make, and a
    /// vault has none.
    pub fn new(alloc: Global, name: Path1, kind: PolicyKind) -> Result<Policy, NoMemory>
        ensures { IfOk result (λ policy. policy ≡ new_policy name kind) }
    {
        Ok(Policy {
            name,
            kind,
            rules: first_rules(alloc, kind)?,
        })
    }

    /// Its name.
    pub fn name(&self) -> &Path1
        ensures { result.now ≡ self.now.name }
    {
        &self.name
    }

    /// Whether it makes mirrors or vaults.
    pub fn kind(&self) -> PolicyKind
        ensures { result ≡ self.now.kind }
    {
        self.kind
    }

    /// Its rules, in the order in which they were added.
    pub fn rules(&self) -> &[Rule]
        ensures { result.now ≡ self.now.rules }
    {
        &self.rules
    }

    /// An equal policy.
    pub fn copy(&self, alloc: Global) -> Result<Policy, NoMemory>
        ensures { IfOk result (λ policy. policy ≡ self.now) }
    {
        Ok(Policy {
            name: self.name.copy(alloc)?,
            kind: self.kind,
            rules: copy_rules(alloc, &self.rules)?,
        })
    }
}

fn copy_rules(alloc: Global, rules: &[Rule]) -> Result<Vec<Rule>, NoMemory>
    ensures { IfOk result (λ copy. copy.items ≡ rules.now) }
{
    let mut copy = Vec::new(alloc);
    for rule in rules {
        copy.push(rule.copy(alloc)?)?;
    }
    Ok(copy)
}

// A text of the grammar as a label.
fn label(alloc: Global, text: &[u8]) -> Result<Label, NoMemory>
    requires { is_label text.now ≡ true }
    ensures { IfOk result (λ label. label ≡ text.now) }
{
    match Label::read(alloc, text) {
        Ok(label) => Ok(label),
        Err(NameFault::NoMemory) => Err(NoMemory),
        Err(NameFault::BadName) => unreachable!(),
    }
}

fn first_rules(alloc: Global, kind: PolicyKind) -> Result<Vec<Rule>, NoMemory>
    ensures { IfOk result (λ rules. rules.items ≡ first_rules kind) }
{
    let mut rules = Vec::new(alloc);
    match kind {
        PolicyKind::AsyncMirror => {
            rules.push(Rule {
                label: label(alloc, b"sm_created")?,
                keep: 1,
                preserve: false,
            })?;
            Ok(rules)
        }
        PolicyKind::Vault => Ok(rules),
    }
}
