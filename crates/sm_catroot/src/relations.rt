//! Relationships.

ghost use Rattle.std.specs.Prelude.{◌≡◌, ◌<◌, nat_lt, IfOk};
ghost use Rattle.sm_fields.specs.Format.{bits32, number, such_that, option};
ghost use Rattle.sm_fields.specs.Reads.{Gives, at_byte};
ghost use Rattle.sm_register.specs.Answer.{bad_byte};
ghost use Rattle.sm_catroot.specs.Layout.{relation_head as head_format, transfer as transfer_format, relation as relation_format, relations as relations_format, relation_list as list_format};

use crate::parts::{RelationHead, read_halves};
use crate::transfers::read_transfer;
use sm_base::limits::MOST_RELATIONS;
use sm_base::{RelNo, VolNo};
use sm_fields::{FieldFault, Reader, read_optional_identity, read_truth};
use sm_register::DecodeFault;
use sm_relation::{Relation, Standing};
use std::alloc::Global;

/// A number above the last one.
fn read_number(reader: &mut Reader, last: u32) -> Result<u32, FieldFault>
    ensures { Gives at_byte (λ n. n) (such_that (number bits32) (nat_lt last)) reader.old result reader.new }
{
    let here = FieldFault::here(reader);
    let value = reader.u32()?;
    if value <= last {
        return Err(here);
    }
    Ok(value)
}

#[tactic(auto, unfolding(crate::specs::Layout::relation_head))]
fn read_head(reader: &mut Reader, last: u32) -> Result<RelationHead, FieldFault>
    ensures { Gives at_byte (λ h. h) (head_format last) reader.old result reader.new }
{
    let number = RelNo(read_number(reader, last)?);
    let source = VolNo(reader.u32()?);
    let destination = VolNo(reader.u32()?);
    let policy = reader.u32()?;
    let halves = read_halves(reader)?;
    let quiesced = read_truth(reader)?;
    Ok(RelationHead {
        number,
        source,
        destination,
        policy,
        halves,
        quiesced,
    })
}

fn read_optional_transfer(
    alloc: Global,
    reader: &mut Reader,
    source: VolNo,
) -> Result<Option<Standing>, DecodeFault>
    ensures { Gives bad_byte (λ t. t) (option (transfer_format source.0)) reader.old result reader.new }
{
    if read_truth(reader)? {
        Ok(Some(read_transfer(alloc, reader, source)?))
    } else {
        Ok(None)
    }
}

/// A relationship whose number is above the last one.
#[tactic(auto, unfolding(crate::specs::Layout::relation))]
fn read_relation(alloc: Global, reader: &mut Reader, last: u32) -> Result<Relation, DecodeFault>
    ensures { Gives bad_byte (λ r. r) (relation_format last) reader.old result reader.new }
{
    let head = read_head(reader, last)?;
    let base = read_optional_identity(reader)?;
    let transfer = read_optional_transfer(alloc, reader, head.source)?;
    Ok(Relation {
        number: head.number,
        source: head.source,
        destination: head.destination,
        policy: head.policy,
        source_half: head.halves.source,
        destination_half: head.halves.destination,
        quiesced: head.quiesced,
        base,
        transfer,
    })
}

/// So many relationships.
#[tactic(auto, unfolding(crate::specs::Layout::relations))]
fn read_relations(
    alloc: Global,
    reader: &mut Reader,
    count: u32,
) -> Result<Vec<Relation>, DecodeFault>
    ensures { Gives bad_byte (λ r. r.items) (relations_format count) reader.old result reader.new }
{
    let mut relations = Vec::new(alloc);
    let mut last = 0;
    for _ in 0..count {
        let relation = read_relation(alloc, reader, last)?;
        last = relation.number.0;
        relations.push(relation)?;
    }
    Ok(relations)
}

/// How many relations, and these.
#[tactic(auto, unfolding(crate::specs::Layout::relation_list))]
pub fn read_relation_list(alloc: Global, reader: &mut Reader) -> Result<Vec<Relation>, DecodeFault>
    ensures { Gives bad_byte (λ l. l.items) list_format reader.old result reader.new }
{
    let count = reader.count(MOST_RELATIONS as u32)?;
    read_relations(alloc, reader, count)
}
