use sm_base::Path;
use sm_model::Event;
use std::marker::Model;

/// What a command asks for: one event, or some in a row.
#[derive(Debug, Drop)]
pub enum Task {
    /// One event.
    Once(Event),
    /// As many writes, at blocks and with bytes that count up.
    Writes {
        path: Path,
        block: u32,
        count: u32,
        fill: u32,
    },
    /// At most as many steps of a worker, each printed. No command of the table asks for steps.
    Steps(u32),
    /// Steps of a worker until none is due. No command of the table asks for them.
    Settle,
}

/// What a line of the script asks for.
#[derive(Debug, Drop)]
pub struct Command {
    /// The number of the line, from 1.
    pub line: u32,
    /// What the line asks for.
    pub task: Task,
}

impl Command {
    ghost use Rattle.std.specs.Prelude.{◌≡◌};

    /// The number of the line, from 1.
    pub fn line(&self) -> u32
        ensures { result ≡ self.now.line }
    {
        self.line
    }
}

/// The commands of a script, in the order of their lines.
#[derive(Debug, Drop)]
pub struct Script {
    commands: Vec<Command>,
}

impl Model for Script {
    ghost use Rattle.std.specs.Prelude.{List};
    ghost use Rattle.sm_grammar.specs.declared.command.Command.{Command};

    ghost Value = { List Command };

    ghost view = { λ s. s.commands.items };
}

impl Script {
    ghost use Rattle.std.specs.Prelude.{◌≡◌};

    /// A script of these commands.
    pub fn new(commands: Vec<Command>) -> Script
        ensures { result ≡ commands.items }
    {
        Script { commands }
    }

    /// The commands, in order.
    pub fn commands(&self) -> &[Command]
        ensures { result.now ≡ self.now }
    {
        &self.commands
    }

    /// The commands, in order.
    pub fn into_commands(self) -> Vec<Command>
        ensures { result.items ≡ self }
    {
        self.commands
    }
}
