// A catalogue is what disk 0 keeps in its slots.
ghost use Rattle.std.specs.Prelude.{◌≡◌};
ghost use Rattle.sm_catroot.specs.Catalog.{empty_catalog};

use crate::catalog::Catalog;
use crate::{MAGIC, reading, writing};
use sm_base::NoMemory;
use sm_register::{DecodeFault, Record};
use std::alloc::Global;

/// The catalogue of a node on which nothing was created.
fn empty(alloc: Global) -> Catalog
    ensures { result ≡ empty_catalog }
{
    Catalog {
        clock: 0,
        next_relation: 1,
        next_transfer: 1,
        volumes: Vec::new(alloc),
        policies: Vec::new(alloc),
        relations: Vec::new(alloc),
    }
}

/// A blank slot stands for the catalogue of a node on which nothing was created.
impl Record for Catalog {
    ghost use Rattle.sm_catroot.specs.Condition.{IsCatalog, again as read_again};
    ghost use Rattle.sm_catroot.specs.Kept.{ShowsCatalog, BreaksCatalog};
    ghost use Rattle.sm_catroot.specs.declared.TheConstants.{MAGIC as WORD};

    ghost fits = { IsCatalog };

    ghost shows = { ShowsCatalog };

    ghost breaks = { BreaksCatalog };

    ghost again = { read_again };

    ghost magic_word = { WORD };

    ghost none_long = { λ value long. long };

    fn magic() -> [u8; 8] {
        MAGIC
    }

    fn encode(&self, alloc: Global) -> Result<Vec<u8>, NoMemory> {
        writing::encode(alloc, self)
    }

    fn decode(alloc: Global, found: Option<Vec<u8>>) -> Result<Catalog, DecodeFault> {
        match found {
            None => Ok(empty(alloc)),
            Some(bytes) => reading::decode(alloc, &bytes),
        }
    }
}
