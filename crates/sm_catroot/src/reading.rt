//! A catalogue read from its record.

ghost use Rattle.std.specs.Prelude.{◌≡◌, ◌-◌, ◌^◌, ◌<◌, ℕ, Ok, Err, IfOk, IfErr, IfSome, length};
ghost use Rattle.sm_fields.specs.Grammar.{FirstFault};
ghost use Rattle.sm_fields.specs.Reading.{whole};
ghost use Rattle.sm_fields.specs.Reads.{Gives, Tells};
ghost use Rattle.sm_register.specs.Answer.{bad_byte, OrNoMemory};
ghost use Rattle.sm_catroot.specs.Catalog.{Catalog as Plain};
ghost use Rattle.sm_catroot.specs.Condition.{IsCatalog, again};
ghost use Rattle.sm_catroot.specs.Spelling.{spelling};
ghost use Rattle.sm_catroot.specs.Layout.{body, catalog_record};

use crate::MAGIC;
use crate::catalog::Catalog;
use crate::parts::read_numbers;
use crate::paths::read_volume_list;
use crate::policies::read_policy_list;
use crate::relations::read_relation_list;
use sm_fields::{Reader, read_head};
use sm_register::DecodeFault;
use std::alloc::Global;

#[tactic(auto, unfolding(crate::specs::Layout::body))]
fn read_body(alloc: Global, reader: &mut Reader) -> Result<Catalog, DecodeFault>
    ensures { Gives bad_byte (λ k. k) body reader.old result reader.new }
{
    let numbers = read_numbers(reader)?;
    let volumes = read_volume_list(alloc, reader)?;
    let policies = read_policy_list(alloc, reader)?;
    let relations = read_relation_list(alloc, reader)?;
    Ok(Catalog {
        clock: numbers.clock,
        next_relation: numbers.next_relation,
        next_transfer: numbers.next_transfer,
        volumes,
        policies,
        relations,
    })
}

/// A record that fills the bytes.
#[tactic(auto, unfolding(crate::specs::Layout::catalog_record))]
fn read_record(alloc: Global, bytes: &[u8]) -> Result<Catalog, DecodeFault>
    requires { length bytes.now < 2 ^ 32 - 1 }
    ensures { Tells bad_byte (λ k. k) result (whole (catalog_record (length bytes.now)) bytes.now) }
{
    let behind = (bytes.len() as u32).saturating_sub(12);
    let mut reader = Reader::new(bytes);
    read_head(&mut reader, &MAGIC, behind)?;
    let catalog = read_body(alloc, &mut reader)?;
    reader.end()?;
    Ok(catalog)
}

/// The catalogue that the bytes spell, all of them, fewer than `2^32 - 1`. Each of its transfers stopped
/// by a restart, since no disk keeps whether one runs.
///
/// A magic word that differs is a fault at its first byte that differs, also where the bytes end
/// before it; a stated length that is not the number of the bytes behind it is a fault at its first
/// byte.
pub fn decode(alloc: Global, bytes: &[u8]) -> Result<Catalog, DecodeFault>
    requires { length bytes.now < 2 ^ 32 - 1 }

    // What is read is a catalogue, and spelled so.
    ensures found { IfOk result (λ k. IsCatalog k × (again k ≡ k) × (bytes.now ≡ spelling k)) }

    // What is spelled so is read, unless memory runs out.
    ensures only { (k : Plain) → IsCatalog k → bytes.now ≡ spelling k → OrNoMemory result (Ok (again k)) }

    // A fault is the first, and the first fault is told, unless memory runs out.
    ensures first { IfErr result (λ e. IfSome (bad_byte e) (FirstFault (catalog_record (length bytes.now)) bytes.now)) }
    ensures fault { (at : ℕ) → FirstFault (catalog_record (length bytes.now)) bytes.now at → OrNoMemory result (Err (DecodeFault.Bad at)) }
{
    read_record(alloc, bytes)
}
