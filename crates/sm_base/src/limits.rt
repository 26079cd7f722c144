//! How much there may be, and where on a disk it lies. Every count, number and place of these stands here
//! alone: code, definitions and contracts cite it.

/// Volumes of a node.
pub const MOST_VOLUMES: usize = 32;

/// Policies of a node.
pub const MOST_POLICIES: usize = 32;

/// Relationships of a node.
pub const MOST_RELATIONS: usize = 64;

/// Rules of a policy.
pub const MOST_RULES: usize = 10;

/// Snapshots of one label that a rule may keep.
pub const MOST_KEPT: u32 = 251;

/// Snapshots of a volume.
pub const MOST_SNAPSHOTS: usize = 255;

/// Logical blocks of a volume, each of 4,096 bytes.
pub const MOST_LOGICAL: u32 = 4096;

/// Physical blocks of a volume, each of 4,096 bytes.
pub const MOST_PHYSICAL: u32 = 16384;

/// Where the numbers of client snapshots and of transfers run out: `2^62`, which is given to none.
pub const LAST_NUMBER: u64 = 4_611_686_018_427_387_904;

/// Where the numbers of relationships run out; it is given to none.
pub const LAST_RELATION: u32 = 4_294_967_295;

/// Blocks that a transfer may ship past its checkpoint.
pub const WINDOW: u32 = 64;

/// The last second of the year 9999, counted from the first of 1970.
pub const LAST_SECOND: u64 = 253_402_300_799;

/// Families below it are of volumes; from here on each is of the transfer that made it.
pub const FIRST_MADE_FAMILY: u64 = 32;

/// Bytes of a disk before its blocks, or behind its two slots where it has no blocks: the selector's page and
/// two slots for a record.
pub const SLOTS_END: u64 = 8_916_992;

/// Bytes of a disk before the first block of its volume.
pub const BLOCKS_START: u64 = 25_726_976;

/// Bytes of a disk whose volume has the most physical blocks.
pub const DISK_LENGTH: u64 = 92_835_840;

/// Disks of a node: one for the record of the node, and one for each volume.
pub const MOST_DISKS: usize = 33;

/// Entries of a history.
pub const MOST_ENTRIES: usize = 1_048_576;

/// Bytes of a script.
pub const LONGEST_SCRIPT: usize = 16_777_216;
