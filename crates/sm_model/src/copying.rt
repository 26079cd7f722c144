// Copies of replies, with all that they own.
ghost use Rattle.std.specs.Prelude.{◌≡◌, IfOk};
ghost use Rattle.sm_model.specs.Telling.{told_by};

use crate::event::copy_label;
use crate::reply::{Line, Lines, Reply, Rules};
use crate::world::WorldRule;
use sm_base::{Block, NoMemory};
use std::alloc::Global;

impl WorldRule {
    /// An equal rule.
    pub fn copy(&self, alloc: Global) -> Result<WorldRule, NoMemory>
        ensures { IfOk result (λ rule. rule ≡ self.now) }
    {
        Ok(WorldRule {
            label: self.label.copy(alloc)?,
            keep: self.keep,
            preserve: self.preserve,
        })
    }
}

/// Equal rules, in the same order.
pub fn copy_rules(alloc: Global, rules: &[WorldRule]) -> Result<Vec<WorldRule>, NoMemory>
    ensures { IfOk result (λ copy. copy.items ≡ rules.now) }
{
    let mut copy = Vec::new(alloc);
    for rule in rules {
        copy.push(rule.copy(alloc)?)?;
    }
    Ok(copy)
}

impl Rules {
    /// Equal rules, in the same order.
    pub fn copy(&self, alloc: Global) -> Result<Rules, NoMemory>
        ensures { IfOk result (λ rules. rules ≡ self.now) }
    {
        Ok(Rules {
            rules: copy_rules(alloc, &self.rules)?,
        })
    }
}

impl Line {
    /// An equal line.
    pub fn copy(&self, alloc: Global) -> Result<Line, NoMemory>
        ensures { IfOk result (λ line. line ≡ self.now) }
    {
        match self {
            Line::Head {
                volumes,
                relationships,
                policies,
                clock,
            } => Ok(Line::Head {
                volumes: *volumes,
                relationships: *relationships,
                policies: *policies,
                clock: *clock,
            }),
            Line::Volume {
                volume,
                path,
                kind,
                blocks,
                physical,
                used,
                snapshots,
            } => Ok(Line::Volume {
                volume: *volume,
                path: path.copy(alloc)?,
                kind: *kind,
                blocks: *blocks,
                physical: *physical,
                used: *used,
                snapshots: *snapshots,
            }),
            Line::Active { volume, digest } => Ok(Line::Active {
                volume: *volume,
                digest: *digest,
            }),
            Line::Snapshot {
                volume,
                name,
                ident,
                label,
                time,
                made,
                digest,
            } => Ok(Line::Snapshot {
                volume: *volume,
                name: name.copy(alloc)?,
                ident: *ident,
                label: copy_label(alloc, label)?,
                time: *time,
                made: *made,
                digest: *digest,
            }),
            Line::Listed {
                volume,
                name,
                ident,
                label,
                time,
                made,
            } => Ok(Line::Listed {
                volume: *volume,
                name: name.copy(alloc)?,
                ident: *ident,
                label: copy_label(alloc, label)?,
                time: *time,
                made: *made,
            }),
            Line::Relationship {
                relation,
                source,
                destination,
                policy,
                condition,
                base,
                transfer,
            } => Ok(Line::Relationship {
                relation: *relation,
                source: source.copy(alloc)?,
                destination: destination.copy(alloc)?,
                policy: policy.copy(alloc)?,
                condition: *condition,
                base: *base,
                transfer: *transfer,
            }),
            Line::Policy { name, kind, rules } => Ok(Line::Policy {
                name: name.copy(alloc)?,
                kind: *kind,
                rules: rules.copy(alloc)?,
            }),
        }
    }
}

fn copy_lines(alloc: Global, lines: &[Line]) -> Result<Vec<Line>, NoMemory>
    ensures { IfOk result (λ copy. copy.items ≡ lines.now) }
{
    let mut copy = Vec::new(alloc);
    for line in lines {
        copy.push(line.copy(alloc)?)?;
    }
    Ok(copy)
}

impl Lines {
    /// Equal lines, in the same order.
    pub fn copy(&self, alloc: Global) -> Result<Lines, NoMemory>
        ensures { IfOk result (λ lines. lines ≡ self.now) }
    {
        Ok(Lines {
            lines: copy_lines(alloc, &self.lines)?,
        })
    }
}

/// The same bytes in a box of their own.
fn copy_block(alloc: Global, block: &Block) -> Result<Box<Block>, NoMemory>
    ensures { IfOk result (λ copy. copy.value ≡ block.now) }
{
    Ok(Box::new(alloc, Block(block.0))?)
}

impl Reply {
    /// A reply that tells the same: an equal one, but that the bytes of a block lie in a box of their own.
    #[tactic(auto, unfolding(crate::specs::Telling::told_by))]
    pub fn copy(&self, alloc: Global) -> Result<Reply, NoMemory>
        ensures { IfOk result (λ reply. told_by reply ≡ told_by self.now) }
    {
        match self {
            Reply::Done => Ok(Reply::Done),
            Reply::Created { volume } => Ok(Reply::Created { volume: *volume }),
            Reply::Snapped { ident } => Ok(Reply::Snapped { ident: *ident }),
            Reply::Related { relation } => Ok(Reply::Related {
                relation: *relation,
            }),
            Reply::Started { transfer, legs } => Ok(Reply::Started {
                transfer: *transfer,
                legs: *legs,
            }),
            Reply::Resumed {
                transfer,
                checkpoint,
            } => Ok(Reply::Resumed {
                transfer: *transfer,
                checkpoint: *checkpoint,
            }),
            Reply::Nothing => Ok(Reply::Nothing),
            Reply::Kept { checkpoint } => Ok(Reply::Kept {
                checkpoint: *checkpoint,
            }),
            Reply::Ended => Ok(Reply::Ended),
            Reply::Resyncing {
                transfer,
                common,
                legs,
            } => Ok(Reply::Resyncing {
                transfer: *transfer,
                common: *common,
                legs: *legs,
            }),
            Reply::Bytes { block } => Ok(Reply::Bytes {
                block: copy_block(alloc, block)?,
            }),
            Reply::Line { line } => Ok(Reply::Line {
                line: line.copy(alloc)?,
            }),
            Reply::Table { lines } => Ok(Reply::Table {
                lines: lines.copy(alloc)?,
            }),
            Reply::Reverted { relation, dropped } => Ok(Reply::Reverted {
                relation: *relation,
                dropped: *dropped,
            }),
            Reply::Prepared { relation, ident } => Ok(Reply::Prepared {
                relation: *relation,
                ident: *ident,
            }),
            Reply::Pruned { relation, dropped } => Ok(Reply::Pruned {
                relation: *relation,
                dropped: *dropped,
            }),
            Reply::Shipped {
                relation,
                index,
                cost,
            } => Ok(Reply::Shipped {
                relation: *relation,
                index: *index,
                cost: *cost,
            }),
            Reply::Checked { relation, prefix } => Ok(Reply::Checked {
                relation: *relation,
                prefix: *prefix,
            }),
            Reply::Published {
                relation,
                ident,
                dropped,
            } => Ok(Reply::Published {
                relation: *relation,
                ident: *ident,
                dropped: *dropped,
            }),
            Reply::Settled {
                relation,
                base,
                ended,
            } => Ok(Reply::Settled {
                relation: *relation,
                base: *base,
                ended: *ended,
            }),
            Reply::Tidied { volume, dropped } => Ok(Reply::Tidied {
                volume: *volume,
                dropped: *dropped,
            }),
            Reply::Interrupted { relation, reason } => Ok(Reply::Interrupted {
                relation: *relation,
                reason: *reason,
            }),
            Reply::Idle => Ok(Reply::Idle),
            Reply::Refused(refusal) => Ok(Reply::Refused(refusal.copy(alloc)?)),
        }
    }
}
