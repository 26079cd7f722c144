// The script of a call.
ghost use Rattle.std.specs.Prelude.{◌≡◌, ◌+◌, ◌≤◌, All, Ok, IfOk, IfErr};
ghost use Rattle.sm_base.specs.declared.limits.TheConstants.{LONGEST_SCRIPT};
ghost use Rattle.sm_stream.specs.Causes.{Rose};
ghost use Rattle.sm_stream.specs.Whole.{TookAtMost};
ghost use Rattle.sm_grammar.specs.Asked.{AsksScripted};
ghost use Rattle.sm_lab.specs.Reading.{Gave, GaveNone};

use sm_base::limits::LONGEST_SCRIPT;
use sm_grammar::{Script, ScriptFault, read_script};
use sm_output::Status;
use sm_stream::{ReadFault, Source, read_whole};
use std::alloc::Global;

/// The commands of the script that a source gives, or how the call ends without them.
pub fn read_commands<S: Source>(alloc: Global, script: &mut S) -> Result<Script, Status>
    ensures ok { IfOk result (λ commands. Gave (S.left script.old) (S.left script.new) (Ok commands)) }
    ensures asked { IfOk result (λ commands. All (λ c. AsksScripted c.task) commands) }
    ensures err { IfErr result (λ status. GaveNone (S.left script.old) (S.left script.new) (Rose (S.fault_count script.old) (S.fault_count script.new)) status) }
    ensures taken { TookAtMost (LONGEST_SCRIPT + 1) (S.left script.old) (S.left script.new) }
    ensures later { S.fault_count script.old ≤ S.fault_count script.new }
{
    let text = match read_whole(alloc, script, LONGEST_SCRIPT) {
        Ok(text) => text,
        Err(ReadFault::TooLong) => return Err(Status::ScriptTooLong),
        Err(ReadFault::Failed) => return Err(Status::ReadFault),
        Err(ReadFault::NoMemory) => return Err(Status::NoMemory),
    };
    match read_script(alloc, &text) {
        Ok(commands) => Ok(commands),
        Err(ScriptFault::BadLine { line, kind }) => Err(Status::BadLine { line, kind }),
        Err(ScriptFault::NoMemory) => Err(Status::NoMemory),
    }
}
