//! The numbers of a catalogue, and small parts of its fields.

ghost use Rattle.std.specs.Prelude.{◌≡◌, ◌&&◌, nat_le};
ghost use Rattle.sm_fields.specs.Format.{bits32, bits64, number, such_that};
ghost use Rattle.sm_fields.specs.Reads.{Gives, at_byte};
ghost use Rattle.sm_catroot.specs.Layout.{numbers as numbers_format, policy_kind as policy_kind_format, transfer_kind as transfer_kind_format, halves as halves_format};

use sm_base::limits::{LAST_NUMBER, LAST_SECOND};
use sm_base::{PolicyKind, RelNo, TransferKind, VolNo};
use sm_fields::{FieldFault, Reader};

/// The numbers at the front of a catalogue.
#[derive(Debug, Drop)]
pub struct Numbers {
    pub clock: u64,
    pub next_relation: u32,
    pub next_transfer: u64,
}

/// Which halves of a relationship stand.
#[derive(Debug, Drop)]
pub struct Halves {
    pub source: bool,
    pub destination: bool,
}

/// What stands of a relationship before its base and its transfer.
#[derive(Debug, Drop)]
pub struct RelationHead {
    pub number: RelNo,
    pub source: VolNo,
    pub destination: VolNo,
    pub policy: u32,
    pub halves: Halves,
    pub quiesced: bool,
}

/// What stands of a transfer before its legs.
#[derive(Debug, Drop)]
pub struct TransferHead {
    pub number: u64,
    pub kind: TransferKind,
    pub reserved: bool,
    pub checkpoint: u32,
}

fn read_clock(reader: &mut Reader) -> Result<u64, FieldFault>
    ensures { Gives at_byte (λ n. n) (such_that (number bits64) (λ n. nat_le n LAST_SECOND)) reader.old result reader.new }
{
    let here = FieldFault::here(reader);
    let value = reader.u64()?;
    if value > LAST_SECOND {
        return Err(here);
    }
    Ok(value)
}

fn read_next_relation(reader: &mut Reader) -> Result<u32, FieldFault>
    ensures { Gives at_byte (λ n. n) (such_that (number bits32) (λ n. nat_le 1 n)) reader.old result reader.new }
{
    let here = FieldFault::here(reader);
    let value = reader.u32()?;
    if value < 1 {
        return Err(here);
    }
    Ok(value)
}

fn read_next_transfer(reader: &mut Reader) -> Result<u64, FieldFault>
    ensures { Gives at_byte (λ n. n) (such_that (number bits64) (λ n. nat_le 1 n && nat_le n LAST_NUMBER)) reader.old result reader.new }
{
    let here = FieldFault::here(reader);
    let value = reader.u64()?;
    if value < 1 || value > LAST_NUMBER {
        return Err(here);
    }
    Ok(value)
}

#[tactic(auto, unfolding(crate::specs::Layout::numbers))]
pub fn read_numbers(reader: &mut Reader) -> Result<Numbers, FieldFault>
    ensures { Gives at_byte (λ n. n) numbers_format reader.old result reader.new }
{
    let clock = read_clock(reader)?;
    let next_relation = read_next_relation(reader)?;
    let next_transfer = read_next_transfer(reader)?;
    Ok(Numbers {
        clock,
        next_relation,
        next_transfer,
    })
}

#[tactic(auto, unfolding(crate::specs::Layout::policy_kind))]
pub fn read_policy_kind(reader: &mut Reader) -> Result<PolicyKind, FieldFault>
    ensures { Gives at_byte (λ k. k) policy_kind_format reader.old result reader.new }
{
    let here = FieldFault::here(reader);
    match reader.u8()? {
        0 => Ok(PolicyKind::AsyncMirror),
        1 => Ok(PolicyKind::Vault),
        _ => Err(here),
    }
}

#[tactic(auto, unfolding(crate::specs::Layout::transfer_kind))]
pub fn read_transfer_kind(reader: &mut Reader) -> Result<TransferKind, FieldFault>
    ensures { Gives at_byte (λ k. k) transfer_kind_format reader.old result reader.new }
{
    let here = FieldFault::here(reader);
    match reader.u8()? {
        0 => Ok(TransferKind::Initialize),
        1 => Ok(TransferKind::Update),
        2 => Ok(TransferKind::Resync),
        _ => Err(here),
    }
}

#[tactic(auto, unfolding(crate::specs::Layout::halves))]
pub fn read_halves(reader: &mut Reader) -> Result<Halves, FieldFault>
    ensures { Gives at_byte (λ h. h) halves_format reader.old result reader.new }
{
    let here = FieldFault::here(reader);
    let value = reader.u8()?;
    if value < 1 || value > 3 {
        return Err(here);
    }
    Ok(Halves {
        source: value != 2,
        destination: value != 1,
    })
}
