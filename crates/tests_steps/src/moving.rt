// The steps of a leg, one after another.
ghost use Rattle.std.specs.Prelude.{◌≡◌, ◌<◌, length, true, false, OnOk};
ghost use Rattle.sm_defs.specs.Image.{stands};
ghost use Rattle.tests_steps.specs.Ready.{IsReady};

use sm_base::Reason;
use sm_disk::Disk;
use sm_transfer::{StepFault, Transfer};
use sm_volume::Volume;

// A step of a course.
#[derive(Clone, Copy, Debug)]
pub enum Step {
    // The block of an index is shipped; answers 1, or 0 where it has landed or there is none.
    Ship(u32),
    // What landed is put onto the medium; answers the prefix.
    Check,
    // The transfer is stopped; answers how many blocks have landed then.
    Stop,
}

fn may_ship(transfer: &Transfer, index: u32) -> bool
    ensures planned { result ≡ true → index < length transfer.now.plan.pairs }
    ensures fresh { result ≡ true → stands index transfer.now.landed ≡ false }
{
    if index >= transfer.cost() {
        return false;
    }
    !transfer.landed(index)
}

fn ship<D: Disk>(
    transfer: &mut Transfer,
    index: u32,
    source: &mut Volume<D>,
    destination: &mut Volume<D>,
) -> Result<u32, StepFault>
    requires { IsReady transfer.old.plan source.old destination.old }
    ensures { OnOk result (IsReady transfer.new.plan source.new destination.new) }
{
    if !may_ship(transfer, index) {
        return Ok(0);
    }
    match transfer.ship(index, source, destination) {
        Ok(()) => Ok(1),
        Err(fault) => Err(fault),
    }
}

fn check<D: Disk>(
    transfer: &mut Transfer,
    source: &Volume<D>,
    destination: &mut Volume<D>,
) -> Result<u32, StepFault>
    requires { IsReady transfer.old.plan source.now destination.old }
    ensures { OnOk result (IsReady transfer.new.plan source.now destination.new) }
{
    transfer.checkpoint(destination)
}

// How many blocks have landed.
fn landed(transfer: &Transfer) -> u32 {
    let mut count = 0;
    for index in 0..transfer.cost() {
        if transfer.landed(index) {
            count += 1;
        }
    }
    count
}

fn stop(transfer: &mut Transfer) -> u32
    ensures { transfer.new.plan ≡ transfer.old.plan }
{
    transfer.interrupt(Reason::Aborted);
    landed(transfer)
}

fn answer<D: Disk>(
    transfer: &mut Transfer,
    step: Step,
    source: &mut Volume<D>,
    destination: &mut Volume<D>,
) -> Result<u32, StepFault>
    requires { IsReady transfer.old.plan source.old destination.old }
    ensures { OnOk result (IsReady transfer.new.plan source.new destination.new) }
{
    match step {
        Step::Ship(index) => ship(transfer, index, source, destination),
        Step::Check => check(transfer, source, destination),
        Step::Stop => Ok(stop(transfer)),
    }
}

// The place of the first step that is answered otherwise than beside it.
pub fn first_wrong<D: Disk>(
    transfer: &mut Transfer,
    steps: &[(Step, u32)],
    source: &mut Volume<D>,
    destination: &mut Volume<D>,
) -> Result<Option<usize>, StepFault>
    requires { IsReady transfer.old.plan source.old destination.old }
{
    for place in 0..steps.len() {
        let step = steps[place];
        if answer(transfer, step.0, source, destination)? != step.1 {
            return Ok(Some(place));
        }
    }
    Ok(None)
}
