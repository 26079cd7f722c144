ghost use Rattle.std.specs.Prelude.{◌≡◌};
ghost use Rattle.sm_grammar.specs.Table.{all_forms, form_text, options_of, option_text, shape_of};

use crate::limits::MOST_WRITES;
use sm_base::limits::{MOST_LOGICAL, MOST_PHYSICAL};

/// The commands. A further one is a variant here, its rows in this file, and a function in `tasks.rt`.
#[derive(Clone, Copy, Debug)]
pub enum Form {
    VolumeCreate,
    VolumeShow,
    ClientWrite,
    SnapshotCreate,
    SnapshotDelete,
    SnapshotShow,
    PolicyCreate,
    PolicyAddRule,
    PolicyShow,
    MirrorCreate,
    MirrorShow,
    LabClock,
    LabCp,
    LabRead,
}

/// The options. Two have the same word where their values differ.
#[derive(Clone, Copy, Debug)]
pub enum OptionName {
    Path,
    Disk,
    VolumeType,
    Blocks,
    Physical,
    Block,
    WriteCount,
    Fill,
    NewSnapshot,
    Snapshot,
    Label,
    Policy,
    PolicyType,
    RuleLabel,
    Keep,
    Preserve,
    SourcePath,
    DestinationPath,
    Time,
}

/// What stands behind an option.
#[derive(Clone, Copy, Debug)]
pub enum Shape {
    /// No value. No option of these commands is one.
    Flag,
    Path,
    Label,
    Snapshot,
    /// A snapshot's name that a client may give.
    NewSnapshot,
    /// A number, both ends included.
    Number { low: u32, high: u32 },
    Time,
    VolumeType,
    /// A name of one part.
    Part,
    PolicyType,
    /// Yes or no.
    Truth,
}

const FORMS: [Form; 14] = [
    Form::VolumeCreate,
    Form::VolumeShow,
    Form::ClientWrite,
    Form::SnapshotCreate,
    Form::SnapshotDelete,
    Form::SnapshotShow,
    Form::PolicyCreate,
    Form::PolicyAddRule,
    Form::PolicyShow,
    Form::MirrorCreate,
    Form::MirrorShow,
    Form::LabClock,
    Form::LabCp,
    Form::LabRead,
];

/// All of them.
#[tactic(auto, unfolding(crate::specs::Table::all_forms))]
pub fn forms() -> &'static [Form]
    ensures { result.now ≡ all_forms }
{
    &FORMS
}

impl Form {
    /// The words of the command, with a blank between two of them.
    #[tactic(auto, unfolding(crate::specs::Table::form_text))]
    pub fn text(self) -> &'static [u8]
        ensures { result.now ≡ form_text self }
    {
        match self {
            Form::VolumeCreate => b"volume create",
            Form::VolumeShow => b"volume show",
            Form::ClientWrite => b"client write",
            Form::SnapshotCreate => b"snapshot create",
            Form::SnapshotDelete => b"snapshot delete",
            Form::SnapshotShow => b"snapshot show",
            Form::PolicyCreate => b"snapmirror policy create",
            Form::PolicyAddRule => b"snapmirror policy add-rule",
            Form::PolicyShow => b"snapmirror policy show",
            Form::MirrorCreate => b"snapmirror create",
            Form::MirrorShow => b"snapmirror show",
            Form::LabClock => b"lab clock",
            Form::LabCp => b"lab cp",
            Form::LabRead => b"lab read",
        }
    }

    /// Its options.
    #[tactic(auto, unfolding(crate::specs::Table::options_of))]
    pub fn options(self) -> &'static [OptionName]
        ensures { result.now ≡ options_of self }
    {
        match self {
            Form::VolumeCreate => &[
                OptionName::Path,
                OptionName::Disk,
                OptionName::VolumeType,
                OptionName::Blocks,
                OptionName::Physical,
            ],
            Form::VolumeShow => &[],
            Form::ClientWrite => &[
                OptionName::Path,
                OptionName::Block,
                OptionName::WriteCount,
                OptionName::Fill,
            ],
            Form::SnapshotCreate => &[OptionName::Path, OptionName::NewSnapshot, OptionName::Label],
            Form::SnapshotDelete => &[OptionName::Path, OptionName::Snapshot],
            Form::SnapshotShow => &[OptionName::Path],
            Form::PolicyCreate => &[OptionName::Policy, OptionName::PolicyType],
            Form::PolicyAddRule => &[
                OptionName::Policy,
                OptionName::RuleLabel,
                OptionName::Keep,
                OptionName::Preserve,
            ],
            Form::PolicyShow => &[],
            Form::MirrorCreate => &[
                OptionName::SourcePath,
                OptionName::DestinationPath,
                OptionName::Policy,
            ],
            Form::MirrorShow => &[],
            Form::LabClock => &[OptionName::Time],
            Form::LabCp => &[OptionName::Path],
            Form::LabRead => &[OptionName::Path, OptionName::Snapshot, OptionName::Block],
        }
    }
}

impl OptionName {
    /// The option's word.
    #[tactic(auto, unfolding(crate::specs::Table::option_text))]
    pub fn text(self) -> &'static [u8]
        ensures { result.now ≡ option_text self }
    {
        match self {
            OptionName::Path => b"-path",
            OptionName::Disk => b"-disk",
            OptionName::VolumeType => b"-type",
            OptionName::Blocks => b"-blocks",
            OptionName::Physical => b"-physical",
            OptionName::Block => b"-block",
            OptionName::WriteCount => b"-count",
            OptionName::Fill => b"-fill",
            OptionName::NewSnapshot => b"-snapshot",
            OptionName::Snapshot => b"-snapshot",
            OptionName::Label => b"-label",
            OptionName::Policy => b"-policy",
            OptionName::PolicyType => b"-type",
            OptionName::RuleLabel => b"-snapmirror-label",
            OptionName::Keep => b"-keep",
            OptionName::Preserve => b"-preserve",
            OptionName::SourcePath => b"-source-path",
            OptionName::DestinationPath => b"-destination-path",
            OptionName::Time => b"-time",
        }
    }

    /// What stands behind it.
    #[tactic(auto, unfolding(crate::specs::Table::shape_of))]
    pub fn shape(self) -> Shape
        ensures { result ≡ shape_of self }
    {
        match self {
            OptionName::Path => Shape::Path,
            OptionName::Disk => Shape::Number {
                low: 0,
                high: u32::MAX,
            },
            OptionName::VolumeType => Shape::VolumeType,
            OptionName::Blocks => Shape::Number {
                low: 1,
                high: MOST_LOGICAL,
            },
            OptionName::Physical => Shape::Number {
                low: 1,
                high: MOST_PHYSICAL,
            },
            OptionName::Block => Shape::Number {
                low: 0,
                high: u32::MAX,
            },
            OptionName::WriteCount => Shape::Number {
                low: 1,
                high: MOST_WRITES,
            },
            OptionName::Fill => Shape::Number { low: 0, high: 255 },
            OptionName::NewSnapshot => Shape::NewSnapshot,
            OptionName::Snapshot => Shape::Snapshot,
            OptionName::Label => Shape::Label,
            OptionName::Policy => Shape::Part,
            OptionName::PolicyType => Shape::PolicyType,
            OptionName::RuleLabel => Shape::Label,
            OptionName::Keep => Shape::Number {
                low: 0,
                high: u32::MAX,
            },
            OptionName::Preserve => Shape::Truth,
            OptionName::SourcePath => Shape::Path,
            OptionName::DestinationPath => Shape::Path,
            OptionName::Time => Shape::Time,
        }
    }
}
