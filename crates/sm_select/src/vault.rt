// The plan of a vault's leg.
ghost use Rattle.std.specs.Prelude.{◌≡◌, ◌<◌, ◌≤◌, ◌^◌, ◌++◌, ◌∷◌, [], length, cond, IfOk, OnOk, Err};
ghost use Rattle.sm_bits.specs.Places.{size};
ghost use Rattle.sm_defs.specs.Image.{Image, tags};
ghost use Rattle.sm_defs.specs.Volume.{Volume, free_tags};
ghost use Rattle.sm_defs.specs.Missing.{Bases, is_missing_at, vault_cost, rest};
ghost use Rattle.sm_select.specs.Planned.{members, kept_number, missing_count, paired, arranged, vault_plan};
ghost use Rattle.sm_select.specs.PlanLaws.{HasTags, IsVaultPlan};
ghost use Rattle.sm_select.specs.declared.plan.PlanFault.TheVariants as faults;

use crate::plan::{Plan, PlanFault};
use sm_base::NoMemory;
use sm_space::Space;
use std::alloc::Global;

fn is_missing(number: u32, base: u32) -> bool
    ensures { result ≡ is_missing_at number base }
{
    number != 0 && number != base
}

// How many blocks are missing.
fn count(target: &[u32], base: &[u32]) -> usize
    requires { length base.now ≡ length target.now }
    ensures is { result ≡ missing_count target.now base.now }
    ensures few { result ≤ length target.now }
{
    let mut count = 0;
    for place in 0..target.len() {
        if is_missing(target[place], base[place]) {
            count += 1;
        }
    }
    count
}

// What stands where no block is sent.
fn kept(number: u32, base: u32) -> u32
    ensures { result ≡ kept_number number base }
{
    if number == 0 { 0 } else { base }
}

// Takes the least free number.
#[tactic(auto, using(crate::proofs::MemberLemmas::none_left, crate::proofs::MemberLemmas::one_taken))]
fn next(space: &mut Space) -> u32
    requires { 0 < length (members space.old) }
    ensures { members space.old ≡ result ∷ members space.new }
{
    match space.take() {
        Some(number) => number,
        None => unreachable!(),
    }
}

// Plans one place: a block that is missing takes the least free number.
fn arrange(
    number: u32,
    source: u32,
    destination: u32,
    space: &mut Space,
    plan: &mut Plan,
) -> Result<(), NoMemory>
    requires { cond (is_missing_at number source) 1 0 ≤ length (members space.old) }
    ensures pairs { OnOk result (plan.new.pairs ≡ plan.old.pairs ++ paired (number ∷ []) (source ∷ []) (members space.old)) }
    ensures map { OnOk result (plan.new.map ≡ plan.old.map ++ arranged (number ∷ []) (source ∷ []) (destination ∷ []) (members space.old)) }
    ensures taken { OnOk result (members space.new ≡ cond (is_missing_at number source) (rest (members space.old)) (members space.old)) }
{
    if is_missing(number, source) {
        let free = next(space);
        plan.pairs.push((number, free))?;
        plan.map.push(free)?;
    } else {
        plan.map.push(kept(number, destination))?;
    }
    Ok(())
}

// Plans each place, where there is room.
fn arrange_all(
    alloc: Global,
    target: &[u32],
    source: &[u32],
    destination: &[u32],
    space: &mut Space,
) -> Result<Plan, NoMemory>
    requires source { length source.now ≡ length target.now }
    requires destination { length destination.now ≡ length target.now }
    requires room { missing_count target.now source.now ≤ length (members space.old) }
    ensures { IfOk result (λ plan. plan ≡ vault_plan target.now source.now destination.now (members space.old)) }
{
    let mut plan = Plan {
        pairs: Vec::new(alloc),
        map: Vec::with_capacity(alloc, target.len())?,
    };
    for place in 0..target.len() {
        arrange(
            target[place],
            source[place],
            destination[place],
            space,
            &mut plan,
        )?;
    }
    Ok(plan)
}

// The same over a copy of the space: its numbers are taken as the destination will take them, and stay free.
fn arranged_on(
    alloc: Global,
    target: &[u32],
    source: &[u32],
    destination: &[u32],
    space: &Space,
) -> Result<Plan, NoMemory>
    requires source { length source.now ≡ length target.now }
    requires destination { length destination.now ≡ length target.now }
    requires room { missing_count target.now source.now ≤ length (members space.now) }
    ensures { IfOk result (λ plan. plan ≡ vault_plan target.now source.now destination.now (members space.now)) }
{
    let mut space = space.copy(alloc)?;
    arrange_all(alloc, target, source, destination, &mut space)
}

/// The plan of a leg with these numbers, of which the base has these at the source and these at the destination,
/// for a destination with this space: place by place, each missing block takes the least free number that is left.
/// The three maps have equal length, fewer than 2^32 places. Without a base both base maps hold only holes.
///
/// # Errors
///
/// - [`PlanFault::NoSpace`] exactly where more blocks are missing than are free, with both numbers.
/// - [`PlanFault::NoMemory`] where there is room for the leg, and memory is wanted for the plan.
#[tactic(auto, using(crate::proofs::MemberLemmas::as_many_members, crate::proofs::PlanLemmas::cost_of))]
pub fn plan_vault(
    alloc: Global,
    target: &[u32],
    base_source: &[u32],
    base_destination: &[u32],
    space: &Space,
) -> Result<Plan, PlanFault>
    requires short { length target.now < 2 ^ 32 }
    requires source { length base_source.now ≡ length target.now }
    requires destination { length base_destination.now ≡ length target.now }
    ensures numbers { IfOk result (λ plan. plan ≡ vault_plan target.now base_source.now base_destination.now (members space.now)) }
    ensures missing { (leg : Image) (bases : Bases) (v : Volume) → tags leg ≡ target.now → HasTags base_source.now bases.at_source → HasTags base_destination.now bases.at_destination → members space.now ≡ free_tags v → IfOk result (λ plan. IsVaultPlan leg bases (free_tags v) plan) }
    ensures room { (leg : Image) (bases : Bases) → tags leg ≡ target.now → HasTags base_source.now bases.at_source → IfOk result (λ plan. vault_cost leg bases ≤ size space.now) }
    ensures full { (leg : Image) (bases : Bases) → tags leg ≡ target.now → HasTags base_source.now bases.at_source → size space.now < vault_cost leg bases → result ≡ Err (faults.NoSpace (vault_cost leg bases) (size space.now)) }
    ensures fault { (leg : Image) (bases : Bases) (need free : _) → tags leg ≡ target.now → HasTags base_source.now bases.at_source → result ≡ Err (faults.NoSpace need free) → (need ≡ vault_cost leg bases) × (free ≡ size space.now) × (free < need) }
{
    let need = count(target, base_source) as u32;
    let free = space.free();
    if free < need {
        return Err(PlanFault::NoSpace { need, free });
    }
    match arranged_on(alloc, target, base_source, base_destination, space) {
        Ok(plan) => Ok(plan),
        Err(NoMemory) => Err(PlanFault::NoMemory),
    }
}
