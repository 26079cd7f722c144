ghost use Rattle.std.specs.Prelude.{◌≡◌};
ghost use Rattle.sm_grammar.specs.Fault.{Answers};
ghost use Rattle.sm_grammar.specs.Options.{value_given};
ghost use Rattle.sm_grammar.specs.Tasks.{path, snapshot, number, time, volume_type, part, label, policy_type, snapshot_if_any, label_if_any, number_or, truth_or};

use crate::fault::{LineFault, LineKind};
use crate::given::Given;
use crate::table::OptionName;
use crate::value::Value;
use sm_base::{Kind, Label, Path, Path1, PolicyKind, SnapName};
use std::alloc::Global;

const MISSING: LineFault = LineFault::Bad(LineKind::MissingOption);

/// The values by their types; a value that has to stand and does not is a fault.
impl Given {
    pub fn path(&self, alloc: Global, option: OptionName) -> Result<Path, LineFault>
        ensures { Answers result (path (value_given self.now option)) }
    {
        match self.value(option) {
            Some(Value::Path(path)) => Ok(path.copy(alloc)?),
            _ => Err(MISSING),
        }
    }

    pub fn snapshot(&self, alloc: Global, option: OptionName) -> Result<SnapName, LineFault>
        ensures { Answers result (snapshot (value_given self.now option)) }
    {
        match self.value(option) {
            Some(Value::Snapshot(name)) => Ok(name.copy(alloc)?),
            _ => Err(MISSING),
        }
    }

    pub fn number(&self, option: OptionName) -> Result<u32, LineFault>
        ensures { Answers result (number (value_given self.now option)) }
    {
        match self.value(option) {
            Some(Value::Number(number)) => Ok(*number),
            _ => Err(MISSING),
        }
    }

    pub fn time(&self, option: OptionName) -> Result<u64, LineFault>
        ensures { Answers result (time (value_given self.now option)) }
    {
        match self.value(option) {
            Some(Value::Time(time)) => Ok(*time),
            _ => Err(MISSING),
        }
    }

    pub fn volume_type(&self, option: OptionName) -> Result<Kind, LineFault>
        ensures { Answers result (volume_type (value_given self.now option)) }
    {
        match self.value(option) {
            Some(Value::VolumeType(kind)) => Ok(*kind),
            _ => Err(MISSING),
        }
    }

    pub fn part(&self, alloc: Global, option: OptionName) -> Result<Path1, LineFault>
        ensures { Answers result (part (value_given self.now option)) }
    {
        match self.value(option) {
            Some(Value::Part(name)) => Ok(name.copy(alloc)?),
            _ => Err(MISSING),
        }
    }

    pub fn label(&self, alloc: Global, option: OptionName) -> Result<Label, LineFault>
        ensures { Answers result (label (value_given self.now option)) }
    {
        match self.value(option) {
            Some(Value::Label(label)) => Ok(label.copy(alloc)?),
            _ => Err(MISSING),
        }
    }

    pub fn policy_type(&self, option: OptionName) -> Result<PolicyKind, LineFault>
        ensures { Answers result (policy_type (value_given self.now option)) }
    {
        match self.value(option) {
            Some(Value::PolicyType(kind)) => Ok(*kind),
            _ => Err(MISSING),
        }
    }

    pub fn snapshot_if_any(
        &self,
        alloc: Global,
        option: OptionName,
    ) -> Result<Option<SnapName>, LineFault>
        ensures { Answers result (snapshot_if_any (value_given self.now option)) }
    {
        match self.value(option) {
            Some(Value::Snapshot(name)) => Ok(Some(name.copy(alloc)?)),
            _ => Ok(None),
        }
    }

    pub fn label_if_any(
        &self,
        alloc: Global,
        option: OptionName,
    ) -> Result<Option<Label>, LineFault>
        ensures { Answers result (label_if_any (value_given self.now option)) }
    {
        match self.value(option) {
            Some(Value::Label(label)) => Ok(Some(label.copy(alloc)?)),
            _ => Ok(None),
        }
    }

    pub fn number_or(&self, other: u32, option: OptionName) -> u32
        ensures { result ≡ number_or other (value_given self.now option) }
    {
        match self.value(option) {
            Some(Value::Number(number)) => *number,
            _ => other,
        }
    }

    pub fn truth_or(&self, other: bool, option: OptionName) -> bool
        ensures { result ≡ truth_or other (value_given self.now option) }
    {
        match self.value(option) {
            Some(Value::Truth(truth)) => *truth,
            _ => other,
        }
    }
}
