// The calls of a disk, each as one call of the system on the file.
ghost use Rattle.std.specs.Prelude.{◌≡◌, ◌+◌, ◌-◌, ◌^◌, ◌≤◌, min, is_ok, length, OnOk, OnErr, IfOk, IsTrue, Some, if◌then◌else◌};

use sm_base::Failed;
use sm_disk::Disk;
use std::os::unix::fs::FileExt;
use std::{fs, io};

/// A file, as long as it was when it was handed in, or a disk of length 0 without one.
///
/// Its count of faults rises at each error of the system. Nothing is said of what the file holds:
/// a restart leaves it as it is, and what the system has not put onto the medium by then is lost
/// only if the machine stops.
#[derive(Drop)]
pub struct FileDisk {
    file: Option<fs::File>,
    len: u64,
    faults: u64,
}

impl FileDisk {
    ghost use Rattle.sm_filedisk.specs.Silent.{file_of, len_of, faults_of};

    /// A disk of this file, which was opened for reading and writing. Its length, `len`, is that of the
    /// file in bytes, as the system tells it now, and stays so however long the file becomes.
    ///
    /// # Errors
    ///
    /// The system's error of asking for the file's length. No disk was made then, and the file is closed.
    pub fn new(file: fs::File) -> io::Result<FileDisk>
        ensures file { IfOk result (λ disk. file_of disk ≡ Some file) }
        ensures faults { IfOk result (λ disk. faults_of disk ≡ 0) }
    {
        let len = file.metadata()?.len();
        Ok(FileDisk {
            file: Some(file),
            len,
            faults: 0,
        })
    }

    /// A disk of length 0, for a file that could not be opened. Each of its calls fails.
    pub fn missing() -> FileDisk
        ensures len { len_of result ≡ 0 }
        ensures faults { faults_of result ≡ 0 }
    {
        FileDisk {
            file: None,
            len: 0,
            faults: 0,
        }
    }

    // Counts an error of the system.
    fn counted(&mut self, done: io::Result<()>) -> Result<(), Failed>
        ensures answer { is_ok result ≡ is_ok done }
        ensures file { self.new.file ≡ self.old.file }
        ensures len { self.new.len ≡ self.old.len }
        ensures faults { self.new.faults ≡ (if is_ok done then self.old.faults else min (self.old.faults + 1) (2 ^ 64 - 1)) }
        ensures grows { self.old.faults ≤ self.new.faults }
    {
        match done {
            Ok(()) => Ok(()),
            Err(_) => {
                self.faults = self.faults.saturating_add(1);
                Err(Failed)
            }
        }
    }
}

fn no_file() -> io::Result<()> {
    Err(io::ErrorKind::NotFound.into())
}

impl Disk for FileDisk {
    ghost use Rattle.sm_disk.specs.Image.{part};
    ghost use Rattle.sm_disk.specs.Disk.{Steps, IsQuiet, IsSynced, Wrote, MayHoldAny, IsCounted};
    ghost use Rattle.sm_filedisk.specs.Silent.{state_of, Counts};

    ghost state = { state_of };

    fn len(&self) -> u64 {
        self.len
    }

    fn faults(&self) -> u64 {
        self.faults
    }

    fn read(&mut self, at: u64, into: &mut [u8]) -> Result<(), Failed>
        requires range { at + length into.old ≤ (state_of self.old).size }

        ensures bytes { OnOk result (IsTrue (state_of self.old).told → into.new ≡ part (state_of self.old).seen at (length into.old)) }
        ensures quiet { IsQuiet (state_of self.old) (state_of self.new) }
        ensures time { Steps (state_of self.old) (state_of self.new) }
        ensures cause { OnErr result (IsCounted (state_of self.old) (state_of self.new)) }

        ensures counts { Counts self.old (is_ok result) self.new }
    {
        let done = match &self.file {
            Some(file) => file.read_exact_at(into, at),
            None => no_file(),
        };
        self.counted(done)
    }

    fn write(&mut self, at: u64, bytes: &[u8]) -> Result<(), Failed>
        requires range { at + length bytes.now ≤ (state_of self.old).size }

        ensures bytes { OnOk result (IsTrue (state_of self.old).told → part (state_of self.new).seen at (length bytes.now) ≡ bytes.now) }
        ensures range { Wrote (state_of self.old) at (length bytes.now) (state_of self.new) }
        ensures pending { OnOk result (MayHoldAny (state_of self.old) at (length bytes.now) (state_of self.new)) }
        ensures time { Steps (state_of self.old) (state_of self.new) }
        ensures cause { OnErr result (IsCounted (state_of self.old) (state_of self.new)) }

        ensures counts { Counts self.old (is_ok result) self.new }
    {
        let done = match &self.file {
            Some(file) => file.write_all_at(bytes, at),
            None => no_file(),
        };
        self.counted(done)
    }

    fn sync(&mut self) -> Result<(), Failed>
        ensures synced { OnOk result (IsSynced (state_of self.new)) }
        ensures failed { OnErr result (IsQuiet (state_of self.old) (state_of self.new)) }
        ensures seen { (state_of self.new).seen ≡ (state_of self.old).seen }
        ensures images { (c : _) → (state_of self.new).may_leave c → (state_of self.old).may_leave c }
        ensures time { Steps (state_of self.old) (state_of self.new) }
        ensures cause { OnErr result (IsCounted (state_of self.old) (state_of self.new)) }

        ensures counts { Counts self.old (is_ok result) self.new }
    {
        let done = match &self.file {
            Some(file) => file.sync_data(),
            None => no_file(),
        };
        self.counted(done)
    }

    fn restart(&mut self) {}
}
