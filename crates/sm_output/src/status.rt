use sm_base::DiskNo;
use sm_grammar::LineKind;
use sm_model::OpenKind;

/// How a call ended.
#[derive(Clone, Copy, Debug, PartialEq, Eq)]
pub enum Status {
    /// The run was done, its report is whole, and the node is up.
    Fine,
    /// The words are no line of the command, or ask for what is not built. Nothing was read.
    Usage,
    /// The first line, from 1, that is none of the script's forms, and what is wrong with it. No event ran.
    BadLine { line: u32, kind: LineKind },
    /// The script has more than 16,777,216 bytes. No event ran.
    ScriptTooLong,
    /// The source failed. No event ran.
    ReadFault,
    /// The sink failed: it holds a front of the output.
    WriteFault,
    /// The disks were not opened: the disk with the first fault, and its kind. No event ran.
    Unopened { disk: DiskNo, kind: OpenKind },
    /// There was no memory left for the rest.
    NoMemory,
    /// There are as many entries as there may be, and a further event was due.
    HistoryFull,
    /// The node is down since this disk failed, and the report ended there.
    DownAtEnd { disk: DiskNo },
}

impl Status {
    ghost use Rattle.std.specs.Prelude.{◌≡◌};
    ghost use Rattle.sm_output.specs.Status.{exit_number};

    /// The exit status of the process.
    pub fn number(self) -> u8
        ensures { result ≡ exit_number self }
    {
        match self {
            Status::Fine => 0,
            Status::Usage => 2,
            Status::BadLine { .. } | Status::ScriptTooLong => 3,
            Status::ReadFault => 4,
            Status::WriteFault => 5,
            Status::Unopened { .. } => 6,
            Status::NoMemory => 7,
            Status::HistoryFull => 8,
            Status::DownAtEnd { .. } => 9,
        }
    }
}
