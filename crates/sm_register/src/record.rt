// What can be kept.
ghost use Rattle.std.specs.Prelude.{◌≡◌, ◌≤◌, ℕ, List, Ok, Err, length, vec_len, IfOk, IfErr, IfSome};
ghost use Rattle.sm_slots.specs.Stored.{Stored, Record as Bytes, BadLength, IsFramed, slot_len};
ghost use Rattle.sm_slots.specs.Slots.{stored_of};
ghost use Rattle.sm_register.specs.Answer.{bad_byte, OrNoMemory};

use crate::fault::DecodeFault;
use sm_base::NoMemory;
use std::alloc::Global;

/// A value that a slot spells.
pub trait Record {
    /// Which values have a spelling.
    ghost fits: { Self → Type 0 };

    /// What a slot spells where it spells this value.
    ghost shows: { Self → Stored → Type 0 };

    /// At which byte what a slot spells fits no value, where its length does not pass the slot.
    ghost breaks: { Stored → ℕ → Type 0 };

    /// The value that is read again: what no slot keeps is lost.
    ghost again: { Self → Self };

    /// The magic word.
    ghost magic_word: { List ℕ };

    /// The magic word of each spelling.
    fn magic() -> [u8; 8]
        ensures { result ≡ magic_word };

    /// Bytes that spell the value.
    fn encode(&self, alloc: Global) -> Result<Vec<u8>, NoMemory>
        requires fits { fits self.now }

        ensures shown { IfOk result (λ bytes. shows self.now (Bytes bytes.items)) }
        ensures framed { IfOk result (λ bytes. IsFramed bytes.items) }
        ensures room { IfOk result (λ bytes. vec_len bytes ≤ slot_len) };

    /// The value that a slot of these bytes spells, or a blank one for none.
    ///
    /// # Errors
    ///
    /// [`DecodeFault::Bad`] exactly where it spells none, with the first byte that fits no spelling;
    /// else [`DecodeFault::NoMemory`] where there is no memory for the value.
    fn decode(alloc: Global, found: Option<Vec<u8>>) -> Result<Self, DecodeFault>
        requires short { IfSome found (λ bytes. vec_len bytes ≤ slot_len) }

        ensures fits { IfOk result fits }
        ensures found { IfOk result (λ value. shows value (stored_of found)) }
        ensures only { (value : Self) → shows value (stored_of found) → OrNoMemory result (Ok (again value)) }
        ensures first { IfErr result (λ e. IfSome (bad_byte e) (breaks (stored_of found))) }
        ensures fault { (at : ℕ) → breaks (stored_of found) at → OrNoMemory result (Err (DecodeFault.Bad at)) };

    /// No value is longer than a slot.
    ghost none_long: { (value : Self) → shows value BadLength → ⊥ };
}
