//! What holds of the spellings of roots.

ghost use Rattle.std.specs.Prelude.{◌≡◌, ◌^◌, ◌<◌, ◌≤◌, ◌↔◌, ℕ, List, Ok, Err, length};
ghost use Rattle.sm_fields.specs.Grammar.{Spells, FirstFault};
ghost use Rattle.sm_fields.specs.Place.{IsBytes};
ghost use Rattle.sm_fields.specs.Reading.{whole};
ghost use Rattle.sm_root.specs.declared.root.Root.{Root};
ghost use Rattle.sm_root.specs.Condition.{IsRoot};
ghost use Rattle.sm_root.specs.Layout.{root_record};
ghost use Rattle.sm_root.specs.Spelling.{spelling};

/// A root that is written is read again as itself, and what is read is written again as itself: the
/// layout gives bytes to exactly the roots, each root has one spelling, and no two roots have the same.
pub fn both_ways()
    ensures spelled { (r : Root) (bytes : List ℕ) → length bytes < 2 ^ 32 → (Spells (root_record (length bytes)) r bytes ↔ (IsRoot r × (bytes ≡ spelling r))) }
    ensures one_value { (r s : Root) → IsRoot r → IsRoot s → spelling r ≡ spelling s → r ≡ s }
    ensures written_is_read { (r : Root) → IsRoot r → whole (root_record (length (spelling r))) (spelling r) ≡ Ok r }
    ensures short { (r : Root) → IsRoot r → length (spelling r) ≤ 4225204 }
{}

/// Bytes are a root or have a first fault, and never both.
pub fn root_or_fault()
    ensures fault { (bytes : List ℕ) (at : ℕ) → IsBytes bytes → (whole (root_record (length bytes)) bytes ≡ Err at ↔ FirstFault (root_record (length bytes)) bytes at) }
    ensures root { (bytes : List ℕ) (r : Root) → IsBytes bytes → length bytes < 2 ^ 32 → (whole (root_record (length bytes)) bytes ≡ Ok r ↔ (IsRoot r × (bytes ≡ spelling r))) }
{}
