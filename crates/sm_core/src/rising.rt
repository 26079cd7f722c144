// Laws of the failures that entries tell.
ghost use Rattle.std.specs.Prelude.{[]};
ghost use Rattle.sm_node.specs.Nodes.{Node as PlainNode};
ghost use Rattle.sm_core.specs.FaultsRise.{FaultsRise, FaultsJoin, FaultsAreCounted, FaultsAreLegal};

use sm_disk::Disk;

/// What entries tell of failures, one after another: none tell nothing, and those behind others go on from the counts
/// that these leave.
pub fn faults_join<D: Disk>()
    ensures none { (n : PlainNode D) → FaultsRise D.state n [] n }
    ensures joined { FaultsJoin D.state }
{}

/// Each count that entries tell of a disk is above that disk's at the start, unless it is the last of its range, and at
/// most its count at the end; and it is above those told of the disk before, as a legal run asks.
pub fn faults_are_counted()
    ensures counted { FaultsAreCounted }
    ensures legal { FaultsAreLegal }
{}
