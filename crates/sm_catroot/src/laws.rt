//! What holds of the spellings of catalogues.

ghost use Rattle.std.specs.Prelude.{◌≡◌, ◌^◌, ◌<◌, ◌≤◌, ◌↔◌, ℕ, List, Ok, Err, length};
ghost use Rattle.sm_fields.specs.Grammar.{Spells, FirstFault};
ghost use Rattle.sm_fields.specs.Place.{IsBytes};
ghost use Rattle.sm_fields.specs.Reading.{whole};
ghost use Rattle.sm_catroot.specs.Catalog.{Catalog as Plain};
ghost use Rattle.sm_catroot.specs.Condition.{IsCatalog, again};
ghost use Rattle.sm_catroot.specs.Layout.{catalog_record};
ghost use Rattle.sm_catroot.specs.Spelling.{spelling};

/// A catalogue that is written is read again with no transfer running, and what is read is written again
/// as itself: the layout gives bytes to exactly the catalogues whose transfers do not run, each catalogue
/// has one spelling, and two of the same spelling differ at most in which transfers run.
pub fn both_ways()
    ensures spelled { (k : Plain) (bytes : List ℕ) → length bytes < 2 ^ 32 → (Spells (catalog_record (length bytes)) k bytes ↔ (IsCatalog k × (again k ≡ k) × (bytes ≡ spelling k))) }
    ensures one_value { (j k : Plain) → IsCatalog j → IsCatalog k → spelling j ≡ spelling k → again j ≡ again k }
    ensures written_is_read { (k : Plain) → IsCatalog k → whole (catalog_record (length (spelling k))) (spelling k) ≡ Ok (again k) }
    ensures short { (k : Plain) → IsCatalog k → length (spelling k) ≤ 218220 }
{}

/// Bytes are a catalogue or have a first fault, and never both.
pub fn catalog_or_fault()
    ensures fault { (bytes : List ℕ) (at : ℕ) → IsBytes bytes → (whole (catalog_record (length bytes)) bytes ≡ Err at ↔ FirstFault (catalog_record (length bytes)) bytes at) }
    ensures catalog { (bytes : List ℕ) (k : Plain) → IsBytes bytes → length bytes < 2 ^ 32 → (whole (catalog_record (length bytes)) bytes ≡ Ok k ↔ (IsCatalog k × (again k ≡ k) × (bytes ≡ spelling k))) }
{}
