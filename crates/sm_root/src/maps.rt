//! Maps of blocks, read with a table of where each number stands.

ghost use Rattle.std.specs.Prelude.{◌≡◌, ◌+◌, ◌-◌, ◌^◌, ◌<◌, IfOk, length, if◌then◌else◌};
ghost use Rattle.sm_fields.specs.Format.{bits32, number, such_that};
ghost use Rattle.sm_fields.specs.Reads.{Gives};
ghost use Rattle.sm_root.specs.Answer.{bad_byte};
ghost use Rattle.sm_root.specs.ByTable.{free_at, with_number, after_map, map_by_table};

use crate::fault::RootFault;
use crate::lists::BlockMap;
use sm_fields::{FieldFault, Reader};
use std::alloc::Global;

/// Whether the number may stand at this place, and that it stands there from now on. A hole may stand
/// anywhere; another number must be one of the table's, and may stand nowhere else.
fn take_place(table: &mut [u32], place: u32, number: u32) -> bool
    requires { place < 2 ^ 32 - 1 }
    ensures may { result ≡ free_at table.old place number }
    ensures after { table.new ≡ (if result then with_number table.old place number else table.old) }
{
    if number == 0 {
        return true;
    }
    let index = number as usize;
    if index >= table.len() {
        return false;
    }
    let stood = table[index];
    if stood != 0 && stood != place + 1 {
        return false;
    }
    table[index] = place + 1;
    true
}

fn read_entry(reader: &mut Reader, place: u32, table: &mut [u32]) -> Result<u32, RootFault>
    requires { place < 2 ^ 32 - 1 }
    ensures reads { Gives bad_byte (λ n. n) (such_that (number bits32) (free_at table.old place)) reader.old result reader.new }
    ensures after { IfOk result (λ n. table.new ≡ with_number table.old place n) }
{
    let here = FieldFault::here(reader);
    let number = reader.u32()?;
    if !take_place(table, place, number) {
        return Err(RootFault::Bad { at: here.at });
    }
    Ok(number)
}

/// A map of so many blocks, whose numbers go into the table.
#[tactic(auto, unfolding(crate::specs::ByTable::map_by_table))]
pub fn read_map(
    alloc: Global,
    reader: &mut Reader,
    logical: u32,
    table: &mut [u32],
) -> Result<BlockMap, RootFault>
    ensures reads { Gives bad_byte (λ m. m) (map_by_table table.old logical) reader.old result reader.new }
    ensures after { IfOk result (λ m. table.new ≡ after_map table.old 0 m) }
{
    let mut numbers = Vec::new(alloc);
    for place in 0..logical {
        let number = read_entry(reader, place, table)?;
        numbers.push(number)?;
    }
    let map = BlockMap::from_vec(numbers)?;
    Ok(map)
}
