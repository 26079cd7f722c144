//! Transfers with their legs.

ghost use Rattle.std.specs.Prelude.{◌≡◌, ◌<◌};
ghost use Rattle.sm_defs.specs.Words.{same_ident};
ghost use Rattle.sm_fields.specs.Format.{identity, such_that};
ghost use Rattle.sm_fields.specs.Reads.{Gives, at_byte};
ghost use Rattle.sm_register.specs.Answer.{bad_byte};
ghost use Rattle.sm_catroot.specs.Layout.{transfer_head as head_format, leg_count as count_format, may_be_leg, reserved_leg, legs as legs_format, transfer as transfer_format};

use crate::MOST_LEGS;
use crate::parts::{TransferHead, read_transfer_kind};
use sm_base::{Ident, Reason, VolNo};
use sm_fields::{FieldFault, Reader, read_identity, read_truth};
use sm_register::DecodeFault;
use sm_relation::{Legs, Standing};
use std::alloc::Global;

#[tactic(auto, unfolding(crate::specs::Layout::transfer_head))]
fn read_head(reader: &mut Reader) -> Result<TransferHead, FieldFault>
    ensures { Gives at_byte (λ h. h) head_format reader.old result reader.new }
{
    let number = reader.u64()?;
    let kind = read_transfer_kind(reader)?;
    let reserved = read_truth(reader)?;
    let checkpoint = reader.u32()?;
    Ok(TransferHead {
        number,
        kind,
        reserved,
        checkpoint,
    })
}

#[tactic(auto, unfolding(crate::specs::Layout::leg_count))]
fn read_leg_count(reader: &mut Reader, reserved: bool) -> Result<u32, FieldFault>
    ensures { Gives at_byte (λ n. n) (count_format reserved) reader.old result reader.new }
{
    let here = FieldFault::here(reader);
    let count = reader.u32()?;
    if count > MOST_LEGS || (reserved && count < 1) {
        return Err(here);
    }
    Ok(count)
}

/// Whether it is the snapshot that the transfer of this number makes on the source.
fn is_reserved(ident: Ident, source: VolNo, number: u64) -> bool
    ensures { result ≡ same_ident ident (reserved_leg source.0 number) }
{
    ident.origin == source.0 && ident.seq as u128 == 2 * (number as u128) + 1
}

/// The leg at a place of so many.
fn read_leg(
    reader: &mut Reader,
    source: VolNo,
    head: &TransferHead,
    count: u32,
    place: u32,
) -> Result<Ident, FieldFault>
    requires { place < count }
    ensures { Gives at_byte (λ i. i) (such_that identity (may_be_leg source.0 head.now count place)) reader.old result reader.new }
{
    let here = FieldFault::here(reader);
    let ident = read_identity(reader)?;
    let is_awaited = head.reserved && place + 1 == count;
    if is_awaited && !is_reserved(ident, source, head.number) {
        return Err(here);
    }
    Ok(ident)
}

#[tactic(auto, unfolding(crate::specs::Layout::legs))]
fn read_legs(
    alloc: Global,
    reader: &mut Reader,
    source: VolNo,
    head: &TransferHead,
    count: u32,
) -> Result<Legs, DecodeFault>
    ensures { Gives bad_byte (λ l. l) (legs_format source.0 head.now count) reader.old result reader.new }
{
    let mut idents = Vec::new(alloc);
    for place in 0..count {
        let ident = read_leg(reader, source, head, count, place)?;
        idents.push(ident)?;
    }
    Ok(Legs::from_vec(idents))
}

/// A transfer of this source, which does not run.
#[tactic(auto, unfolding(crate::specs::Layout::transfer))]
pub fn read_transfer(
    alloc: Global,
    reader: &mut Reader,
    source: VolNo,
) -> Result<Standing, DecodeFault>
    ensures { Gives bad_byte (λ t. t) (transfer_format source.0) reader.old result reader.new }
{
    let head = read_head(reader)?;
    let count = read_leg_count(reader, head.reserved)?;
    let legs = read_legs(alloc, reader, source, &head, count)?;
    Ok(Standing {
        number: head.number,
        kind: head.kind,
        reserved: head.reserved,
        checkpoint: head.checkpoint,
        legs,
        stopped: Some(Reason::Restart),
    })
}
