//! What holds of the spellings themselves.

ghost use Rattle.std.specs.Prelude.{◌≡◌, ◌<◌, ◌≤◌, ◌↔◌, ◌+◌, ◌++◌, [], ℕ, Bool, List, Ok, Err, Option, length};
ghost use Rattle.sm_base.specs.declared.numbers.Ident.{Ident};
ghost use Rattle.sm_fields.specs.Format.{Size, number, text, count, truth, identity, option, numbers};
ghost use Rattle.sm_fields.specs.Grammar.{digits, limit, with_length, truth_digits, identity_digits, IsIdentity, Spells, Fault};
ghost use Rattle.sm_fields.specs.Place.{IsBytes};
ghost use Rattle.sm_fields.specs.Reading.{read, width};

/// A value has one spelling, and so has a list of numbers, whatever each is tested for.
pub fn one_spelling()
    ensures numbers { (size : Size) (n : ℕ) (a b : List ℕ) → Spells (number size) n a → Spells (number size) n b → a ≡ b }
    ensures texts { (most : ℕ) (t a b : List ℕ) → Spells (text most) t a → Spells (text most) t b → a ≡ b }
    ensures counts { (most n : ℕ) (a b : List ℕ) → Spells (count most) n a → Spells (count most) n b → a ≡ b }
    ensures truth_values { (v : Bool) (a b : List ℕ) → Spells truth v a → Spells truth v b → a ≡ b }
    ensures identities { (i : Ident) (a b : List ℕ) → Spells identity i a → Spells identity i b → a ≡ b }
    ensures options { (i : Option Ident) (a b : List ℕ) → Spells (option identity) i a → Spells (option identity) i b → a ≡ b }
    ensures lists { (size : Size) (holds : List ℕ → ℕ → Bool) (n : ℕ) (xs a b : List ℕ) → Spells (numbers size holds n) xs a → Spells (numbers size holds n) xs b → a ≡ b }
{}

/// What was written is read again, whatever stands behind it.
pub fn written_is_read()
    ensures numbers { (size : Size) (n at : ℕ) (rest : List ℕ) → n < limit size → read (number size) (record { at = at; rest = digits size n ++ rest }) ≡ Ok (n, record { at = at + width size; rest = rest }) }
    ensures texts { (most at : ℕ) (t rest : List ℕ) → length t ≤ most → read (text most) (record { at = at; rest = with_length t ++ rest }) ≡ Ok (t, record { at = at + (1 + length t); rest = rest }) }
    ensures truth_values { (v : Bool) (at : ℕ) (rest : List ℕ) → read truth (record { at = at; rest = truth_digits v ++ rest }) ≡ Ok (v, record { at = at + 1; rest = rest }) }
    ensures identities { (i : Ident) (at : ℕ) (rest : List ℕ) → IsIdentity i → read identity (record { at = at; rest = identity_digits i ++ rest }) ≡ Ok (i, record { at = at + 12; rest = rest }) }
{}

/// Reading fails exactly at the first fault: for numbers, texts, identities, options and lists.
pub fn first_fault()
    ensures numbers { (size : Size) (bytes : List ℕ) (at : ℕ) → IsBytes bytes → (read (number size) (record { at = 0; rest = bytes }) ≡ Err at ↔ Fault (number size) bytes at) }
    ensures texts { (most : ℕ) (bytes : List ℕ) (at : ℕ) → IsBytes bytes → (read (text most) (record { at = 0; rest = bytes }) ≡ Err at ↔ Fault (text most) bytes at) }
    ensures options { (bytes : List ℕ) (at : ℕ) → IsBytes bytes → (read (option identity) (record { at = 0; rest = bytes }) ≡ Err at ↔ Fault (option identity) bytes at) }
    ensures lists { (size : Size) (holds : List ℕ → ℕ → Bool) (n : ℕ) (bytes : List ℕ) (at : ℕ) → IsBytes bytes → (read (numbers size holds n) (record { at = 0; rest = bytes }) ≡ Err at ↔ Fault (numbers size holds n) bytes at) }
{}
