// The class of a snapshot.
ghost use Rattle.std.specs.Prelude.{◌≡◌};
ghost use Rattle.std.specs.Option.{option_copied};
ghost use Rattle.sm_defs.specs.Classes.{class_by, ruled};

use crate::policy::Policy;
use sm_base::{Label, PolicyKind};

impl Policy {
    // The label, where it has a rule.
    fn ruled<'a>(&self, label: &'a Option<Label>) -> Option<&'a [u8]>
        ensures { option_copied result ≡ ruled self.now.rules label.now }
    {
        match label {
            None => None,
            Some(label) => match self.rule(label) {
                None => None,
                Some(_) => Some(label.text()),
            },
        }
    }

    /// The rule label that a snapshot counts for, given its own label and the number of the relationship
    /// that made it, 0 for a client. Under a mirror it is told by the maker; under a vault it is the
    /// snapshot's own label where that has a rule, and there is none otherwise. It takes no memory.
    pub fn class<'a>(&self, label: &'a Option<Label>, made: u32) -> Option<&'a [u8]>
        ensures { option_copied result ≡ class_by self.now.kind self.now.rules label.now made }
    {
        match self.kind() {
            PolicyKind::AsyncMirror if made == 0 => Some(b"all_source_snapshots"),
            PolicyKind::AsyncMirror => Some(b"sm_created"),
            PolicyKind::Vault => self.ruled(label),
        }
    }
}
