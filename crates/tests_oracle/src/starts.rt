// Where courses begin: lists of lines, one after another.

pub(crate) type Lines = &'static [&'static [&'static str]];

/// A mirror of 256 blocks from s:a to s:b by the policy m.
pub(crate) const MIRROR: Lines = &[LARGE];

/// The same after its first transfer.
pub(crate) const MIRRORED: Lines = &[LARGE, SENT];

/// A mirror of two blocks from s:a to s:b by the policy m.
pub(crate) const SMALL_MIRROR: Lines = &[SMALL];

/// The same after its first transfer.
pub(crate) const SMALL_MIRRORED: Lines = &[SMALL, SENT];

/// The same, and a mirror by m on from s:b to s:c, after its first transfer too.
pub(crate) const MIRRORED_ON: Lines = &[SMALL, SENT, ON, SENT_ON];

/// Mirrors of two blocks by m from s:a to s:b and on from s:b to s:c, after a first transfer of each.
pub(crate) const CASCADE: Lines = &[THREE, MIRRORS, SENT, SENT_ON];

/// A vault that is mirrored further, after a first transfer of each, with a second one to the mirror on its way.
pub(crate) const VAULT_AND_MIRROR: Lines = &[THREE, VAULTED, AHEAD];

const LARGE: &[&str] = &[
    "volume s:a 1 rw 256 512 = ok volume=0",
    "volume s:b 2 dp 256 512 = ok volume=1",
    "policy m mirror = ok",
    "relate s:a s:b m = ok relationship=1",
];

const SMALL: &[&str] = &[
    "volume s:a 1 rw 2 4 = ok volume=0",
    "volume s:b 2 dp 2 4 = ok volume=1",
    "policy m mirror = ok",
    "relate s:a s:b m = ok relationship=1",
];

/// A relationship on from the end of a mirror.
const ON: &[&str] = &[
    "volume s:c 3 dp 2 4 = ok volume=2",
    "relate s:b s:c m = ok relationship=2",
];

/// The first transfer of a mirror from s:a to s:b, of a block that is filled with 1.
pub(crate) const SENT: &[&str] = &[
    "write s:a 0 1 = ok",
    "initialize s:b = ok transfer=1 legs=1",
    "settle = settled",
];

/// The first transfer on to s:c.
pub(crate) const SENT_ON: &[&str] = &["initialize s:c = ok transfer=2 legs=1", "settle = settled"];

const THREE: &[&str] = &[
    "volume s:a 1 rw 2 6 = ok volume=0",
    "volume s:b 2 dp 2 6 = ok volume=1",
    "volume s:c 3 dp 2 6 = ok volume=2",
];

/// Two mirrors, one behind the other.
pub(crate) const MIRRORS: &[&str] = &[
    "policy m mirror = ok",
    "relate s:a s:b m = ok relationship=1",
    "relate s:b s:c m = ok relationship=2",
];

/// A vault and a mirror behind it, after a first transfer of each.
pub(crate) const VAULTED: &[&str] = &[
    "policy v vault = ok",
    "rule v d 3 keep = ok",
    "policy m mirror = ok",
    "relate s:a s:b v = ok relationship=1",
    "relate s:b s:c m = ok relationship=2",
    "snapshot s:a d1 d = ok id=0.2",
    "initialize s:b = ok transfer=1 legs=1",
    "settle = settled",
    "initialize s:c = ok transfer=2 legs=1",
    "settle = settled",
];

/// A second snapshot for the vault, which the mirror does not have yet.
const AHEAD: &[&str] = &[
    "write s:a 0 1 = ok",
    "snapshot s:a d2 d = ok id=0.4",
    "update s:b = ok transfer=3 legs=1",
    "settle = settled",
    "update s:c = ok transfer=4 legs=1",
];
