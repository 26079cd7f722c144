ghost use Rattle.std.specs.Prelude.{◌≡◌, ◌<◌, ◌^◌, ◌-◌, ◌≤◌, ◌↔◌, ℕ, All, List, length, IfOk, IfErr, Ok};
ghost use Rattle.sm_grammar.specs.Asked.{AsksScripted};
ghost use Rattle.sm_grammar.specs.declared.command.Command.{Command};
ghost use Rattle.sm_grammar.specs.declared.command.Task.{Task};
ghost use Rattle.sm_grammar.specs.Grammar.{task_in};
ghost use Rattle.sm_grammar.specs.Order.{IsReordered};
ghost use Rattle.sm_grammar.specs.Spelling.{Spelled, SpellsTask};
ghost use Rattle.sm_grammar.specs.Lines.{lines_of};
ghost use Rattle.sm_grammar.specs.Spelled.{LinesSpell};
ghost use Rattle.sm_grammar.specs.Script.{parse, Tells};

use crate::command::{Command, Script};
use crate::fault::{LineFault, ScriptFault};
use crate::grammar::{is_skipped, task_in};
use crate::lines::first_line;
use std::alloc::Global;

/// The commands of the lines of a script, taken from the front of the text once.
fn read_commands(alloc: Global, text: &[u8]) -> Result<Script, ScriptFault>
    requires { length text.now < 2 ^ 32 - 1 }
    ensures ok { IfOk result (λ script. parse text.now ≡ Ok script) }
    ensures few { IfOk result (λ script. length script ≤ length text.now) }
    ensures bad { IfErr result (λ fault. Tells fault (parse text.now)) }
{
    let mut commands = Vec::new(alloc);
    let mut number = 0u32;
    let mut rest = text;
    while !rest.is_empty() {
        let (line, more) = first_line(rest);
        number += 1;
        rest = more;
        if is_skipped(line) {
            continue;
        }
        match task_in(alloc, line) {
            Ok(task) => commands.push(Command { line: number, task })?,
            Err(LineFault::Bad(kind)) => return Err(ScriptFault::BadLine { line: number, kind }),
            Err(LineFault::NoMemory) => return Err(ScriptFault::NoMemory),
        }
    }
    Ok(Script::new(commands))
}

/// Reads a script, which has fewer than 2^32 - 1 bytes: the commands of its lines in their order.
/// `BadLine` names the first bad line and what is wrong with it; it comes exactly where there is one,
/// unless memory runs out before.
pub fn read_script(alloc: Global, text: &[u8]) -> Result<Script, ScriptFault>
    requires { length text.now < 2 ^ 32 - 1 }
    ensures ok { IfOk result (λ script. parse text.now ≡ Ok script) }
    ensures few { IfOk result (λ script. length script ≤ length text.now) }
    ensures bad { IfErr result (λ fault. Tells fault (parse text.now)) }
    ensures asked { IfOk result (λ script. All (λ c. AsksScripted c.task) script) }

    // The definition by the spelling of each line, both ways.
    ensures spelled { (commands : List Command) → (parse text.now ≡ Ok commands) ↔ LinesSpell 1 (lines_of text.now) commands }
    // A line that has the same options in another order asks for the same.
    ensures order { (line : List ℕ) (task : Task) (s : SpellsTask line task) (other : List ℕ) (spelled : List Spelled) → IsReordered line task s other spelled → task_in other ≡ Ok task }
{
    read_commands(alloc, text)
}
