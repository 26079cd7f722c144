// Laws of the top call, each what a function without code ensures.
ghost use Rattle.sm_lab.specs.Smooth.{SmoothCallsEndWell};

use sm_disk::Disk;

/// Where a script of the grammar is given, or none is asked for, on disks that tell their content and have no damage, and
/// where nothing fails, all is done and the node is up, unless the history is full or memory runs out; and no entry
/// tells of a failure, now or before.
pub fn smooth_calls_end_well<D: Disk>()
    ensures { SmoothCallsEndWell D.state }
{}
