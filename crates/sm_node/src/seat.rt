// A volume on its disk.
use sm_base::DiskNo;
use sm_disk::Disk;
use sm_volume::Volume;
use std::marker::Model;

/// A volume, and the number of the disk that it lies on.
#[derive(Drop)]
pub struct Seat<D: Disk> {
    pub disk: DiskNo,
    pub volume: Volume<D>,
}

impl<D: Disk> Model for Seat<D> {
    ghost use Rattle.sm_node.specs.Seats.{Seated};

    ghost Value = { Seated D };

    ghost view = { λ s. record { disk = s.disk.0; volume = s.volume } };
}
