/// What the program does.
#[derive(Clone, Copy, Debug, PartialEq, Eq)]
pub enum Mode {
    /// Reads a script, runs it on the disks, and reports.
    Run,
    /// Reports on the disks, and reads no script.
    Report,
}

/// What the words of the program's line ask for.
#[derive(Clone, Copy, Debug, PartialEq, Eq)]
pub struct Options {
    pub mode: Mode,
    /// How many workers do the steps beside the script, from 0 to 8.
    pub workers: u32,
    /// The number that a script is made from. Modes that make none ignore it.
    pub number: u64,
    /// Whether the entries of the history follow the report.
    pub history: bool,
}
