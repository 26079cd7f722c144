// A value with its bytes, so that a commit takes no memory.
ghost use Rattle.std.specs.Prelude.{◌≡◌, IfOk};

use crate::record::Record;
use sm_base::NoMemory;
use std::alloc::Global;
use std::marker::Model;

/// A value that is ready to be committed: a commit of it takes no memory.
#[derive(Drop)]
pub struct Ready<R: Record + Drop> {
    pub(crate) value: R,
    pub(crate) bytes: Vec<u8>,
}

impl<R: Record + Drop> Model for Ready<R> {
    ghost use Rattle.sm_register.specs.Registered.{IsReady};

    ghost Value = { R };

    ghost view = { λ s. s.value };

    ghost invariant = { λ s. IsReady R.fits R.shows s.value s.bytes.items };
}

impl<R: Record + Drop> Ready<R> {
    /// Spells the value.
    pub fn new(alloc: Global, value: R) -> Result<Ready<R>, NoMemory>
        requires { R.fits value }
        ensures { IfOk result (λ ready. ready ≡ value) }
    {
        let bytes = value.encode(alloc)?;
        Ok(Ready { value, bytes })
    }
}
