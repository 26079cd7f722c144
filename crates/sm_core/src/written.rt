// The law of the blocks that events write.
ghost use Rattle.sm_core.specs.Written.{OnlyWrittenBlocksAreNew};

/// A block comes into use only where a client writes it, and it is the least free one of the volume.
pub fn only_written_blocks_are_new()
    ensures { OnlyWrittenBlocksAreNew }
{}
