// Numbers of blocks, and indexes that landed.
ghost use Rattle.std.specs.Prelude.{◌≡◌, ◌<◌, ◌≤◌, ◌+◌, ◌^◌, length, IfOk};
ghost use Rattle.sm_defs.specs.Image.{stands};
ghost use Rattle.sm_defs.specs.Volume.{numbers};
ghost use Rattle.sm_defs.specs.Progress.{prefix_from, landed_prefix};

use sm_base::NoMemory;
use std::alloc::Global;

/// Whether a number stands in a list.
pub fn stands(numbers: &[u32], number: u64) -> bool
    ensures { result ≡ stands number numbers.now }
{
    numbers.iter().any(|n| u64::from(*n) == number)
}

fn numbers_from(alloc: Global, from: u32, count: u32) -> Result<Vec<u32>, NoMemory>
    requires { from + count < 2 ^ 32 }
    ensures { IfOk result (λ all. all.items ≡ numbers from count) }
{
    if count == 0 {
        return Ok(Vec::new(alloc));
    }
    let mut all = numbers_from(alloc, from + 1, count - 1)?;
    all.insert(0, from)?;
    Ok(all)
}

/// The numbers below a count, in ascending order.
pub fn numbers_below(alloc: Global, count: u32) -> Result<Vec<u32>, NoMemory>
    ensures { IfOk result (λ all. all.items ≡ numbers 0 count) }
{
    numbers_from(alloc, 0, count)
}

fn prefix_from(landed: &[u32], from: u64, count: u64) -> u64
    requires { from + count < 2 ^ 64 }
    ensures prefix { result ≡ prefix_from count from landed.now }
    ensures within { result ≤ from + count }
{
    if count == 0 || !stands(landed, from) {
        return from;
    }
    prefix_from(landed, from + 1, count - 1)
}

/// How many indexes landed before the first that did not.
pub fn landed_prefix(landed: &[u32]) -> usize
    ensures prefix { result ≡ landed_prefix landed.now }
    ensures within { result ≤ length landed.now }
{
    prefix_from(landed, 0, landed.len() as u64) as usize
}
