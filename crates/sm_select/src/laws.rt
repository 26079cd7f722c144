// What the plans are in the words of images and volumes.
ghost use Rattle.sm_select.specs.PlanLaws.{MirrorPlans, VaultPlans};

/// The plan of a mirror's leg has its missing numbers in ascending order, each at itself, and its map.
pub fn mirror_plans_the_leg()
    ensures { MirrorPlans }
{}

/// The plan of a vault's leg has its missing blocks in the order of their places at the least free numbers, and
/// the map of its landing.
pub fn vault_plans_the_leg()
    ensures { VaultPlans }
{}
