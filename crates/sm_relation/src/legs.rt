//! The legs of a transfer, which contracts see as a list of identities.

ghost use Rattle.std.specs.Prelude.{◌≡◌, IfOk};

use sm_base::{Ident, NoMemory};
use std::alloc::Global;
use std::marker::Model;

/// The snapshots that a transfer is still to bring to its destination, in their order.
#[derive(Debug, Drop)]
pub struct Legs {
    idents: Vec<Ident>,
}

impl Model for Legs {
    ghost use Rattle.std.specs.Prelude.{List};
    ghost use Rattle.sm_base.specs.declared.numbers.Ident.{Ident};

    ghost Value = { List Ident };

    ghost view = { λ l. l.idents.items };
}

impl Legs {
    /// The list of these identities. It takes no memory.
    pub fn from_vec(idents: Vec<Ident>) -> Legs
        ensures { result ≡ idents.items }
    {
        Legs { idents }
    }

    /// The identities. It takes no memory.
    pub fn into_vec(self) -> Vec<Ident>
        ensures { result.items ≡ self }
    {
        self.idents
    }

    /// The identities.
    pub fn as_slice(&self) -> &[Ident]
        ensures { result.now ≡ self.now }
    {
        &self.idents
    }

    /// An equal list.
    pub fn copy(&self, alloc: Global) -> Result<Legs, NoMemory>
        ensures { IfOk result (λ legs. legs ≡ self.now) }
    {
        Ok(Legs {
            idents: Vec::from_slice(alloc, &self.idents)?,
        })
    }
}
