// The table of the policies.
ghost use Rattle.std.specs.Prelude.{◌≡◌, map, IfOk};
ghost use Rattle.sm_model.specs.OfReport as reports;
ghost use Rattle.sm_node.specs.Nodes.{world_of, IsUp};
ghost use Rattle.sm_node.specs.Acts.{Acts};

use sm_base::NoMemory;
use sm_disk::Disk;
use sm_model::{Line, Lines, Reply, Rules, WorldRule};
use sm_node::{Node, NodeFault};
use sm_policy::{Policy, Rule};
use std::alloc::Global;

fn copy_rules(alloc: Global, rules: &[Rule]) -> Result<Vec<WorldRule>, NoMemory>
    ensures { IfOk result (λ copy. copy.items ≡ rules.now) }
{
    let mut copy = Vec::new(alloc);
    for rule in rules {
        copy.push(WorldRule {
            label: rule.label.copy(alloc)?,
            keep: rule.keep,
            preserve: rule.preserve,
        })?;
    }
    Ok(copy)
}

fn policy_line(alloc: Global, policy: &Policy) -> Result<Line, NoMemory>
    ensures { IfOk result (λ line. line ≡ reports.policy_line policy.now) }
{
    Ok(Line::Policy {
        name: policy.name().copy(alloc)?,
        kind: policy.kind(),
        rules: Rules {
            rules: copy_rules(alloc, policy.rules())?,
        },
    })
}

fn policy_lines(alloc: Global, policies: &[Policy]) -> Result<Vec<Line>, NoMemory>
    ensures { IfOk result (λ lines. lines.items ≡ map reports.policy_line policies.now) }
{
    let mut lines = Vec::new(alloc);
    for policy in policies {
        lines.push(policy_line(alloc, policy)?)?;
    }
    Ok(lines)
}

/// The table of the policies, each with its rules in the order in which they were added. No device is called.
pub fn show_policies<D: Disk + Drop>(alloc: Global, node: &Node<D>) -> Result<Reply, NodeFault>
    requires up { IsUp node.now }
    ensures { Acts D.state (reports.show_policies (world_of node.now)) node.now result node.now }
{
    node.told_up();
    let catalog = node.catalog();
    let lines = policy_lines(alloc, &catalog.policies)?;
    Ok(Reply::Table {
        lines: Lines { lines },
    })
}
