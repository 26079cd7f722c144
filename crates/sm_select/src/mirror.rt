// The plan of a mirror's leg.
ghost use Rattle.std.specs.Prelude.{◌≡◌, ◌<◌, ◌≤◌, ℕ, ◌==◌, ◌||◌, true, List, length, cond, slice_set, IfOk, map};
ghost use Rattle.std.specs.List.{All};
ghost use Rattle.sm_bits.specs.Places.{has};
ghost use Rattle.sm_defs.specs.Image.{Image, stands, tags};
ghost use Rattle.sm_defs.specs.Volume.{Snapshot};
ghost use Rattle.sm_defs.specs.Missing.{ascending};
ghost use Rattle.sm_select.specs.Planned.{mirror_plan, members, lacking, twice};
ghost use Rattle.sm_select.specs.PlanLaws.{HasNumbersOf, IsMirrorPlan};

use crate::plan::Plan;
use sm_base::NoMemory;
use sm_bits::BitMap;
use std::alloc::Global;

// Adds a number, if it is no hole.
fn add(set: &mut BitMap, number: u32)
    requires { number < length set.old }
    ensures { set.new ≡ cond (number == 0) set.old (slice_set set.old number true) }
{
    if number != 0 {
        set.set(number);
    }
}

// Adds the numbers of a map, but no hole.
fn add_all(set: &mut BitMap, map: &[u32])
    requires { All (λ t. t < length set.old) map.now }
    ensures long { length set.new ≡ length set.old }
    ensures hole { has set.new 0 ≡ has set.old 0 }
    ensures each { (n : ℕ) → 1 ≤ n → has set.new n ≡ (has set.old n || stands n map.now) }
{
    for number in map {
        add(set, *number);
    }
}

// The numbers of a map that a set does not have, in whole words.
fn numbers_lacking(alloc: Global, map: &[u32], have: &BitMap) -> Result<BitMap, NoMemory>
    requires { All (λ t. t < length have.now) map.now }
    ensures { IfOk result (λ set. members set ≡ ascending (lacking have.now map.now)) }
{
    let mut set = BitMap::new(alloc, have.len())?;
    add_all(&mut set, map);
    set.minus(have);
    Ok(set)
}

// The numbers of a set in ascending order, each beside itself.
#[tactic(auto, using(crate::proofs::MemberLemmas::all_above, crate::proofs::MemberLemmas::within))]
fn pairs_of(alloc: Global, set: &BitMap) -> Result<Vec<(u32, u32)>, NoMemory>
    ensures { IfOk result (λ pairs. pairs.items ≡ map twice (members set.now)) }
{
    let mut pairs = Vec::with_capacity(alloc, set.count() as usize)?;
    let mut from = 0;
    while let Some(number) = set.next_set(from) {
        pairs.push((number, number))?;
        // A member is a place, so the next number is at most the length.
        prove!(number < set.len());
        from = number + 1;
    }
    Ok(pairs)
}

/// The plan of a leg with these numbers, for a destination whose snapshots have the numbers of `have`: each
/// number that it lacks, in ascending order, and the map as it is. Each number of `target` is a place of `have`.
///
/// # Errors
///
/// [`NoMemory`] where memory is wanted for the plan; nothing else.
pub fn plan_mirror(alloc: Global, target: &[u32], have: &BitMap) -> Result<Plan, NoMemory>
    requires within { All (λ t. t < length have.now) target.now }
    ensures numbers { IfOk result (λ plan. plan ≡ mirror_plan target.now have.now) }
    ensures missing { (leg : Image) (there : List Snapshot) → tags leg ≡ target.now → HasNumbersOf have.now there → IfOk result (λ plan. IsMirrorPlan leg there plan) }
{
    let lacking = numbers_lacking(alloc, target, have)?;
    Ok(Plan {
        pairs: pairs_of(alloc, &lacking)?,
        map: Vec::from_slice(alloc, target)?,
    })
}
