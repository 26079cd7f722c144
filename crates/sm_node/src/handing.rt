// The disks of a node are handed back.
ghost use Rattle.std.specs.Prelude.{◌≡◌, ℕ, ◌<◌, ◌≤◌, [], ◌∷◌, map, length, Option, Some, slice_get, slice_set, vec_capacity};
ghost use Rattle.sm_defs.specs.Words.{Among};
ghost use Rattle.sm_node.specs.Seats.{disk_number, device};
ghost use Rattle.sm_node.specs.Nodes.{numbers};
ghost use Rattle.sm_node.specs.HandedBack.{all_put, AreInPlaces};

use crate::node::Node;
use crate::seat::Seat;
use sm_disk::Disk;

fn put<D: Disk + Drop>(places: &mut [Option<D>], number: usize, disk: D)
    requires { number < length places.old }
    ensures { places.new ≡ slice_set places.old number (Some disk) }
{
    places[number] = Some(disk);
}

// Puts the disks of the volumes to their places.
fn put_seats<D: Disk + Drop>(places: &mut [Option<D>], seats: Vec<Seat<D>>)
    requires { (n : ℕ) → Among (map disk_number seats.items) n → n < length places.old }
    ensures { places.new ≡ all_put places.old (map disk_number seats.items) (map device seats.items) }
{
    for seat in seats {
        put(places, seat.disk.0 as usize, seat.volume.into_disk());
    }
}

// Puts all disks to their places.
fn put_all<D: Disk + Drop>(places: &mut [Option<D>], root: D, seats: Vec<Seat<D>>)
    requires { (n : ℕ) → Among (numbers seats.items) n → n < length places.old }
    ensures { places.new ≡ all_put places.old (numbers seats.items) (root ∷ map device seats.items) }
{
    put(places, 0, root);
    put_seats(places, seats);
}

// The disks, of which each is at its place, in a list that has room for them.
fn gather<D: Disk + Drop>(places: Vec<Option<D>>, room: Vec<D>) -> Vec<D>
    requires empty { room.items ≡ [] }
    requires room { length places.items ≤ vec_capacity room }
    requires full { (n : ℕ) (place : Option D) → slice_get places.items n ≡ Some place → (disk : D) × (place ≡ Some disk) }
    ensures { map Some result.items ≡ places.items }
{
    let mut disks = room;
    for place in places {
        let Some(disk) = place else { unreachable!() };
        disks.push_reserved(disk);
    }
    disks
}

impl<D: Disk + Drop> Node<D> {
    /// The disks in their old places, in the list in which they came. It takes no memory.
    pub fn into_disks(self) -> Vec<D>
        ensures { AreInPlaces self result.items }
    {
        let Node {
            register,
            seats,
            mut spares,
            room,
            ..
        } = self;
        put_all(&mut spares, register.into_disk(), seats);
        gather(spares, room)
    }
}
