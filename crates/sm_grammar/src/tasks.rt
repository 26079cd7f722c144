ghost use Rattle.std.specs.Prelude.{◌≡◌};
ghost use Rattle.sm_grammar.specs.Fault.{Answers};
ghost use Rattle.sm_grammar.specs.Options.{value_given};
ghost use Rattle.sm_grammar.specs.Tasks.{task_of};
ghost use Rattle.sm_grammar.specs.declared.table.Form.TheVariants as forms;

use crate::command::Task;
use crate::fault::LineFault;
use crate::given::Given;
use crate::table::{Form, OptionName};
use sm_base::DiskNo;
use sm_model::Event;
use std::alloc::Global;

#[tactic(auto, unfolding(crate::specs::Tasks::task_of), using(crate::proofs::FaultLemmas::fails))]
fn volume_create(alloc: Global, given: &Given) -> Result<Task, LineFault>
    ensures { Answers result (task_of forms.VolumeCreate (value_given given.now)) }
{
    Ok(Task::Once(Event::CreateVolume {
        path: given.path(alloc, OptionName::Path)?,
        disk: DiskNo(given.number(OptionName::Disk)?),
        kind: given.volume_type(OptionName::VolumeType)?,
        logical: given.number(OptionName::Blocks)?,
        physical: given.number(OptionName::Physical)?,
    }))
}

#[tactic(auto, unfolding(crate::specs::Tasks::task_of), using(crate::proofs::FaultLemmas::fails))]
fn client_write(alloc: Global, given: &Given) -> Result<Task, LineFault>
    ensures { Answers result (task_of forms.ClientWrite (value_given given.now)) }
{
    Ok(Task::Writes {
        path: given.path(alloc, OptionName::Path)?,
        block: given.number(OptionName::Block)?,
        fill: given.number(OptionName::Fill)?,
        count: given.number_or(1, OptionName::WriteCount),
    })
}

#[tactic(auto, unfolding(crate::specs::Tasks::task_of), using(crate::proofs::FaultLemmas::fails))]
fn snapshot_create(alloc: Global, given: &Given) -> Result<Task, LineFault>
    ensures { Answers result (task_of forms.SnapshotCreate (value_given given.now)) }
{
    Ok(Task::Once(Event::Snap {
        path: given.path(alloc, OptionName::Path)?,
        name: given.snapshot(alloc, OptionName::NewSnapshot)?,
        label: given.label_if_any(alloc, OptionName::Label)?,
    }))
}

#[tactic(auto, unfolding(crate::specs::Tasks::task_of), using(crate::proofs::FaultLemmas::fails))]
fn snapshot_delete(alloc: Global, given: &Given) -> Result<Task, LineFault>
    ensures { Answers result (task_of forms.SnapshotDelete (value_given given.now)) }
{
    Ok(Task::Once(Event::Unsnap {
        path: given.path(alloc, OptionName::Path)?,
        name: given.snapshot(alloc, OptionName::Snapshot)?,
    }))
}

#[tactic(auto, unfolding(crate::specs::Tasks::task_of), using(crate::proofs::FaultLemmas::fails))]
fn lab_clock(given: &Given) -> Result<Task, LineFault>
    ensures { Answers result (task_of forms.LabClock (value_given given.now)) }
{
    Ok(Task::Once(Event::Clock {
        time: given.time(OptionName::Time)?,
    }))
}

#[tactic(auto, unfolding(crate::specs::Tasks::task_of), using(crate::proofs::FaultLemmas::fails))]
fn lab_cp(alloc: Global, given: &Given) -> Result<Task, LineFault>
    ensures { Answers result (task_of forms.LabCp (value_given given.now)) }
{
    Ok(Task::Once(Event::Cp {
        path: given.path(alloc, OptionName::Path)?,
    }))
}

#[tactic(auto, unfolding(crate::specs::Tasks::task_of), using(crate::proofs::FaultLemmas::fails))]
fn snapshot_show(alloc: Global, given: &Given) -> Result<Task, LineFault>
    ensures { Answers result (task_of forms.SnapshotShow (value_given given.now)) }
{
    Ok(Task::Once(Event::ShowSnaps {
        path: given.path(alloc, OptionName::Path)?,
    }))
}

#[tactic(auto, unfolding(crate::specs::Tasks::task_of), using(crate::proofs::FaultLemmas::fails))]
fn policy_create(alloc: Global, given: &Given) -> Result<Task, LineFault>
    ensures { Answers result (task_of forms.PolicyCreate (value_given given.now)) }
{
    Ok(Task::Once(Event::CreatePolicy {
        name: given.part(alloc, OptionName::Policy)?,
        kind: given.policy_type(OptionName::PolicyType)?,
    }))
}

#[tactic(auto, unfolding(crate::specs::Tasks::task_of), using(crate::proofs::FaultLemmas::fails))]
fn policy_add_rule(alloc: Global, given: &Given) -> Result<Task, LineFault>
    ensures { Answers result (task_of forms.PolicyAddRule (value_given given.now)) }
{
    Ok(Task::Once(Event::AddRule {
        name: given.part(alloc, OptionName::Policy)?,
        label: given.label(alloc, OptionName::RuleLabel)?,
        keep: given.number(OptionName::Keep)?,
        preserve: given.truth_or(false, OptionName::Preserve),
    }))
}

#[tactic(auto, unfolding(crate::specs::Tasks::task_of), using(crate::proofs::FaultLemmas::fails))]
fn mirror_create(alloc: Global, given: &Given) -> Result<Task, LineFault>
    ensures { Answers result (task_of forms.MirrorCreate (value_given given.now)) }
{
    Ok(Task::Once(Event::Relate {
        source: given.path(alloc, OptionName::SourcePath)?,
        destination: given.path(alloc, OptionName::DestinationPath)?,
        policy: given.part(alloc, OptionName::Policy)?,
    }))
}

#[tactic(auto, unfolding(crate::specs::Tasks::task_of), using(crate::proofs::FaultLemmas::fails))]
fn lab_read(alloc: Global, given: &Given) -> Result<Task, LineFault>
    ensures { Answers result (task_of forms.LabRead (value_given given.now)) }
{
    Ok(Task::Once(Event::Read {
        path: given.path(alloc, OptionName::Path)?,
        name: given.snapshot_if_any(alloc, OptionName::Snapshot)?,
        block: given.number(OptionName::Block)?,
    }))
}

/// What a command asks for, from the options that were read.
#[tactic(auto, unfolding(crate::specs::Tasks::task_of))]
pub fn task_of(alloc: Global, form: Form, given: &Given) -> Result<Task, LineFault>
    ensures { Answers result (task_of form (value_given given.now)) }
{
    match form {
        Form::VolumeShow => Ok(Task::Once(Event::ShowVolumes)),
        Form::VolumeCreate => volume_create(alloc, given),
        Form::ClientWrite => client_write(alloc, given),
        Form::SnapshotCreate => snapshot_create(alloc, given),
        Form::SnapshotDelete => snapshot_delete(alloc, given),
        Form::PolicyCreate => policy_create(alloc, given),
        Form::PolicyAddRule => policy_add_rule(alloc, given),
        Form::PolicyShow => Ok(Task::Once(Event::ShowPolicies)),
        Form::MirrorCreate => mirror_create(alloc, given),
        Form::MirrorShow => Ok(Task::Once(Event::ShowRelations)),
        Form::LabClock => lab_clock(given),
        Form::LabCp => lab_cp(alloc, given),
        Form::SnapshotShow => snapshot_show(alloc, given),
        Form::LabRead => lab_read(alloc, given),
    }
}
