// One block from volume to volume, and what landed onto the medium.
ghost use Rattle.std.specs.Prelude.{◌≡◌, ◌≤◌, ◌<◌, true, false, length, slice_index_or};
ghost use Rattle.sm_defs.specs.Image.{stands};
ghost use Rattle.sm_defs.specs.Progress.{landed_prefix};
ghost use Rattle.sm_defs.specs.Volume.{tags_of};
ghost use Rattle.sm_transfer.specs.Sending.{no_pair, with_landed, checked};
ghost use Rattle.sm_transfer.specs.Shipping.{IsShippable, Ships, ShipsAt, Lands, Checks};

use crate::fault::StepFault;
use crate::landed::end_of_landed;
use crate::transfer::Transfer;
use sm_base::Block;
use sm_disk::Disk;
use sm_volume::Volume;

// Reads a block of one volume and writes it at a number of another.
fn carry<D: Disk>(
    from: u32,
    source: &mut Volume<D>,
    to: u32,
    destination: &mut Volume<D>,
) -> Result<(), StepFault>
    requires source_up { source.old.up ≡ true }
    requires destination_up { destination.old.up ≡ true }
    requires source_from_one { 1 ≤ from }
    requires source_used { stands from (tags_of source.old.volume) ≡ true }
    requires from_one { 1 ≤ to }
    requires within { to ≤ destination.old.volume.physical }
    requires free { stands to (tags_of destination.old.volume) ≡ false }

    ensures { Ships D.state from to result source.old source.new destination.old destination.new }
{
    let read_from = source.root().number;
    let written_to = destination.root().number;
    let mut block = Block([0; 4096]);
    match source.fetch(from, &mut block) {
        Err(_) => Err(StepFault::DiskFault { volume: read_from }),
        Ok(()) => match destination.land(to, &block) {
            Err(_) => Err(StepFault::DiskFault { volume: written_to }),
            Ok(()) => Ok(()),
        },
    }
}

// Puts onto the medium all that was written to a volume.
fn put_down<D: Disk>(destination: &mut Volume<D>) -> Result<(), StepFault>
    requires up { destination.old.up ≡ true }
    ensures { Lands D.state result destination.old destination.new }
{
    let volume = destination.root().number;
    match destination.sync() {
        Err(_) => Err(StepFault::DiskFault { volume }),
        Ok(()) => Ok(()),
    }
}

impl Transfer {
    // The source's number and the destination's of the block of an index.
    fn pair(&self, index: u32) -> (u32, u32)
        requires { index < length self.now.plan.pairs }
        ensures { result ≡ slice_index_or self.now.plan.pairs index no_pair }
    {
        self.plan.pairs[index as usize]
    }

    // The block of an index has landed.
    fn land(&mut self, index: u32)
        requires within { index < length self.old.plan.pairs }
        requires fresh { stands index self.old.landed ≡ false }
        ensures { self.new ≡ with_landed self.old index }
    {
        self.marks.set(index);
    }

    // All that landed without a gap is on the medium.
    fn checked(&mut self) -> u32
        ensures prefix { result ≡ landed_prefix self.old.landed }
        ensures checked { self.new ≡ checked self.old }
    {
        self.checkpoint = end_of_landed(&self.marks, self.checkpoint);
        self.checkpoint
    }

    /// Ships the block of an index: reads it at the source and writes it at its number at the destination. The
    /// index has not landed, and its two numbers are one that the source uses and one that is free at the
    /// destination.
    ///
    /// # Errors
    ///
    /// [`StepFault::DiskFault`] alone, with the volume whose disk failed; the transfer is then as it was.
    pub fn ship<D: Disk>(
        &mut self,
        index: u32,
        source: &mut Volume<D>,
        destination: &mut Volume<D>,
    ) -> Result<(), StepFault>
        requires source_up { source.old.up ≡ true }
        requires destination_up { destination.old.up ≡ true }
        requires may { IsShippable self.old index source.old.volume destination.old.volume }

        ensures { ShipsAt D.state self.old index result self.new source.old source.new destination.old destination.new }
    {
        let pair = self.pair(index);
        match carry(pair.0, source, pair.1, destination) {
            Err(fault) => Err(fault),
            Ok(()) => {
                self.land(index);
                Ok(())
            }
        }
    }

    /// Puts onto the destination's medium all that was written there, and answers how many blocks have landed
    /// before the first that has not: the checkpoint that may be told from now on.
    ///
    /// # Errors
    ///
    /// [`StepFault::DiskFault`] alone, with the destination; the transfer is then as it was.
    pub fn checkpoint<D: Disk>(&mut self, destination: &mut Volume<D>) -> Result<u32, StepFault>
        requires up { destination.old.up ≡ true }

        ensures { Checks D.state result self.old self.new destination.old destination.new }
    {
        match put_down(destination) {
            Err(fault) => Err(fault),
            Ok(()) => Ok(self.checked()),
        }
    }
}
