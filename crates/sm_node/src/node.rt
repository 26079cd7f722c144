// The parts of a node.
ghost use Rattle.std.specs.Prelude.{◌≡◌, ◌≤◌, [], length, vec_capacity};
ghost use Rattle.sm_register.specs.Registered.{IsKept};
ghost use Rattle.sm_catroot.specs.Condition.{IsCatalog};
ghost use Rattle.sm_catroot.specs.Kept.{ShowsCatalog};
ghost use Rattle.sm_node.specs.Nodes.{IsNode};

use crate::seat::Seat;
use sm_catroot::Catalog;
use sm_disk::Disk;
use sm_register::Register;
use std::marker::Model;

/// The catalogue on disk 0, the volumes by number, and the disks that hold nothing of them.
#[derive(Drop)]
pub struct Node<D: Disk + Drop> {
    pub(crate) register: Register<D, Catalog>,
    pub(crate) seats: Vec<Seat<D>>,
    // By number; where a disk is in use, none.
    pub(crate) spares: Vec<Option<D>>,
    pub(crate) lengths: Vec<u64>,
    // The emptied list of the disks, which takes them again.
    pub(crate) room: Vec<D>,
}

impl<D: Disk + Drop> Model for Node<D> {
    ghost use Rattle.std.specs.Prelude.{◌≡◌, [], ◌≤◌, length, vec_capacity};
    ghost use Rattle.sm_node.specs.Nodes.{Node as Plain, IsNode as IsPlainNode};

    ghost Value = { Plain D };

    ghost view = { λ s. record { root = s.register; seats = s.seats.items; spares = s.spares.items; lengths = s.lengths.items } };

    ghost invariant = { λ s. IsPlainNode D.state (record { root = s.register; seats = s.seats.items; spares = s.spares.items; lengths = s.lengths.items }) × (s.room.items ≡ []) × (length s.spares.items ≤ vec_capacity s.room) };
}

impl<D: Disk + Drop> Node<D> {
    /// A node of these parts. `room` is the empty list that takes the disks again, each at its number.
    pub fn new(
        register: Register<D, Catalog>,
        seats: Vec<Seat<D>>,
        spares: Vec<Option<D>>,
        lengths: Vec<u64>,
        room: Vec<D>,
    ) -> Node<D>
        requires node { IsNode D.state (record { root = register; seats = seats.items; spares = spares.items; lengths = lengths.items }) }
        requires empty { room.items ≡ [] }
        requires room { length spares.items ≤ vec_capacity room }
        ensures { result ≡ record { root = register; seats = seats.items; spares = spares.items; lengths = lengths.items } }
    {
        Node {
            register,
            seats,
            spares,
            lengths,
            room,
        }
    }

    /// What holds of every node, whenever it is asked.
    pub fn told(&self)
        ensures node { IsNode D.state self.now }
        ensures root { IsKept D.state IsCatalog ShowsCatalog self.now.root }
    {
        self.register.told();
        let _ = &self.seats;
    }

    /// What disk 0 keeps.
    pub fn catalog(&self) -> &Catalog
        ensures { result.now ≡ self.now.root.held }
    {
        self.register.held()
    }

    /// The volumes with the numbers of their disks, each at the place of its number.
    pub fn seats(&self) -> &[Seat<D>]
        ensures { result.now ≡ self.now.seats }
    {
        &self.seats
    }

    /// The disks that hold nothing, each at the place of its number; none where a disk is in use.
    pub fn spares(&self) -> &[Option<D>]
        ensures { result.now ≡ self.now.spares }
    {
        &self.spares
    }
}
