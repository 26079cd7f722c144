// What a catalogue tells of itself, and how it is taken apart.
ghost use Rattle.std.specs.Prelude.{◌≡◌, ℕ};
ghost use Rattle.sm_node.specs.Nodes.{numbers};
ghost use Rattle.sm_node.specs.HandedBack.{AreInPlaces};
ghost use Rattle.sm_node.specs.Counted.{HasCounted};
ghost use Rattle.sm_core.specs.FaultsRise.{DisksHaveCounted};
ghost use Rattle.sm_core.specs.Kept.{Stands, StandsAt};

use crate::catalogue::Catalogue;
use crate::standing::stands;
use sm_base::Side;
use sm_disk::Disk;
use sm_history::History;
use sm_model::Entry;

impl<D: Disk + Drop> Catalogue<D> {
    /// What holds of every catalogue, whenever it is asked: whatever a restart of its disks may leave now shows the
    /// world, or one of the pair of a world that is down.
    pub fn told(&self)
        ensures { Stands D.state self.now.world self.now.node }
    {
        stands(&self.node, &self.down);
    }

    /// The entries, oldest first.
    pub fn entries(&self) -> &[Entry]
        ensures { result.now ≡ self.now.history }
    {
        self.history.entries()
    }

    /// The sides of the restarts that answered that they are done, in order.
    pub fn sides(&self) -> &[Side]
        ensures { result.now ≡ self.now.sides }
    {
        &self.sides
    }

    /// The disks in their old places, with the history and the sides. It takes no memory. Whatever a restart of the
    /// disks may leave then shows the world, or one of the pair of a world that is down.
    pub fn into_parts(self) -> (Vec<D>, History, Vec<Side>)
        ensures places { AreInPlaces self.node result.0.items }
        ensures stands { StandsAt D.state self.world (numbers self.node.seats) result.0.items }
        ensures history { result.1.entries ≡ self.history }
        ensures sides { result.2.items ≡ self.sides }
        ensures counts { (counts : ℕ → ℕ) → HasCounted D.state counts self.node → DisksHaveCounted D.state counts result.0.items }
    {
        self.told();
        let Catalogue {
            node,
            history,
            sides,
            ..
        } = self;
        node.told();
        (node.into_disks(), history, sides)
    }
}
