ghost use Rattle.std.specs.Prelude.{◌≡◌};
ghost use Rattle.sm_output.specs.Words.{line_word as word_of_line, open_word as word_of_open, event_words as words_of_event};

use sm_grammar::LineKind;
use sm_model::{Event, OpenKind};

/// What is wrong with a line of a script.
#[tactic(auto, unfolding(crate::specs::Words::line_word))]
pub fn line_word(kind: LineKind) -> &'static str
    ensures { result.now ≡ word_of_line kind }
{
    match kind {
        LineKind::TooLong => "TooLong",
        LineKind::BadByte => "BadByte",
        LineKind::UnknownCommand => "UnknownCommand",
        LineKind::UnknownOption => "UnknownOption",
        LineKind::RepeatedOption => "RepeatedOption",
        LineKind::MissingValue => "MissingValue",
        LineKind::BadName => "BadName",
        LineKind::BadNumber => "BadNumber",
        LineKind::BadTime => "BadTime",
        LineKind::BadChoice => "BadChoice",
        LineKind::MissingOption => "MissingOption",
    }
}

/// What is wrong with a disk.
#[tactic(auto, unfolding(crate::specs::Words::open_word))]
pub fn open_word(kind: OpenKind) -> &'static str
    ensures { result.now ≡ word_of_open kind }
{
    match kind {
        OpenKind::NoDisk => "NoDisk",
        OpenKind::Short => "Short",
        OpenKind::Record => "Record",
        OpenKind::OldFormat => "OldFormat",
        OpenKind::Number => "Number",
        OpenKind::Cross => "Cross",
        OpenKind::Shape => "Shape",
        OpenKind::Differs => "Differs",
        OpenKind::Fault => "Fault",
    }
}

/// The words of an event's name.
#[tactic(auto, unfolding(crate::specs::Words::event_words))]
pub fn event_words(event: &Event) -> &'static str
    ensures { result.now ≡ words_of_event event.now }
{
    match event {
        Event::CreateVolume { .. } => "create volume",
        Event::ShowVolumes => "show volumes",
        Event::Write { .. } => "write",
        Event::Snap { .. } => "snap",
        Event::Unsnap { .. } => "unsnap",
        Event::ShowSnaps { .. } => "show snaps",
        Event::CreatePolicy { .. } => "create policy",
        Event::AddRule { .. } => "add rule",
        Event::ShowPolicies => "show policies",
        Event::Relate { .. } => "relate",
        Event::Initialize { .. } => "initialize",
        Event::Update { .. } => "update",
        Event::Quiesce { .. } => "quiesce",
        Event::Resume { .. } => "resume",
        Event::Abort { .. } => "abort",
        Event::Break { .. } => "break",
        Event::Resync { .. } => "resync",
        Event::Delete { .. } => "delete",
        Event::Release { .. } => "release",
        Event::ShowRelations => "show relations",
        Event::Clock { .. } => "clock",
        Event::Cp { .. } => "cp",
        Event::Read { .. } => "read",
        Event::Work { .. } => "work",
        Event::Restart => "restart",
        Event::Head => "head",
        Event::VolumeLine { .. } => "volume line",
        Event::Digest { .. } => "digest",
        Event::RelationLine { .. } => "relation line",
    }
}
