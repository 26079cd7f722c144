// What lands at a vault.
ghost use Rattle.std.specs.Prelude.{cond, ◌==◌};
ghost use Rattle.std.specs.Prelude.{◌≡◌, IfOk};
ghost use Rattle.sm_defs.specs.Image.{hole};
ghost use Rattle.sm_defs.specs.Missing.{first_block, first_number, rest, moved, landed_from, vault_landing};

use crate::lists::{behind_first, first_tag};
use crate::missing::is_missing;
use crate::values::{PlainBases, PlainBlock};
use sm_base::NoMemory;
use std::alloc::Global;

/// A block that nothing was written to.
#[tactic(auto, unfolding(sm_defs::specs::Image::hole))]
pub fn hole(alloc: Global) -> Result<PlainBlock, NoMemory>
    ensures { IfOk result (λ block. block ≡ hole) }
{
    Ok(PlainBlock {
        tag: 0,
        bytes: vec![in alloc; 0; 4096]?,
    })
}

fn first_block(alloc: Global, image: &[PlainBlock]) -> Result<PlainBlock, NoMemory>
    ensures { IfOk result (λ block. block ≡ first_block image.now) }
{
    match image {
        [] => hole(alloc),
        [block, ..] => block.copy(alloc),
    }
}

fn moved(alloc: Global, block: &PlainBlock, number: u32) -> Result<PlainBlock, NoMemory>
    ensures { IfOk result (λ there. there ≡ moved block.now number) }
{
    Ok(PlainBlock {
        tag: number,
        bytes: Vec::from_slice(alloc, &block.bytes)?,
    })
}

/// The first of a list of numbers, or 0 of none.
pub fn first_number(numbers: &[u32]) -> u32
    ensures { result ≡ first_number numbers.now }
{
    match numbers {
        [] => 0,
        [number, ..] => *number,
    }
}

fn other_numbers(numbers: &[u32]) -> &[u32]
    ensures { result.now ≡ rest numbers.now }
{
    match numbers {
        [] => numbers,
        [_, others @ ..] => others,
    }
}

fn kept_block(
    alloc: Global,
    block: &PlainBlock,
    destination: &[PlainBlock],
) -> Result<PlainBlock, NoMemory>
    ensures { IfOk result (λ there. there ≡ cond (block.now.tag == 0) hole (first_block destination.now)) }
{
    if block.tag == 0 {
        hole(alloc)
    } else {
        first_block(alloc, destination)
    }
}

fn landed_from(
    alloc: Global,
    leg: &[PlainBlock],
    source: &[PlainBlock],
    destination: &[PlainBlock],
    free: &[u32],
) -> Result<Vec<PlainBlock>, NoMemory>
    ensures { IfOk result (λ image. image.items ≡ landed_from leg.now source.now destination.now free.now) }
{
    match leg {
        [] => Ok(Vec::new(alloc)),
        [block, others @ ..] => {
            let (first, left) = if is_missing(block.tag, first_tag(source)) {
                (
                    moved(alloc, block, first_number(free))?,
                    other_numbers(free),
                )
            } else {
                (kept_block(alloc, block, destination)?, free)
            };
            let source_others = behind_first(source);
            let destination_others = behind_first(destination);
            let mut image = landed_from(alloc, others, source_others, destination_others, left)?;
            image.insert(0, first)?;
            Ok(image)
        }
    }
}

/// What a vault's leg becomes: each missing block takes the next of the numbers, a hole stays one,
/// and elsewhere stands the destination's block of the base. Where the numbers end, it takes 0.
pub fn vault_landing(
    alloc: Global,
    leg: &[PlainBlock],
    bases: &PlainBases,
    free: &[u32],
) -> Result<Vec<PlainBlock>, NoMemory>
    ensures { IfOk result (λ image. image.items ≡ vault_landing leg.now bases.now free.now) }
{
    landed_from(alloc, leg, &bases.at_source, &bases.at_destination, free)
}
