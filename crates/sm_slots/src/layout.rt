// Where the selector and the slots lie, and what the head of a record tells.
ghost use Rattle.std.specs.Prelude.{◌≡◌, ◌+◌, ◌<◌, length, take, drop};
ghost use Rattle.std.specs.Int.{from_be_bytes, w32};
ghost use Rattle.sm_slots.specs.Stored.{slot_start, is_blank};

/// The length of a slot in bytes, and so of the longest record.
pub const SLOT_LEN: usize = 4_456_448;

/// The place of the selector.
pub const SELECTOR: u64 = 0;

/// How many bytes of a record tell whether it is one, and how long: its magic word and the length of its body.
pub const HEAD_LEN: usize = 12;

/// The place of the first byte of slot 0 or 1.
pub fn slot_start_of(slot: u8) -> u64
    requires { slot < 2 }
    ensures { result ≡ slot_start slot }
{
    4096 + SLOT_LEN as u64 * slot as u64
}

// Whether a magic word is that of no record.
pub fn is_zero(magic: &[u8]) -> bool
    ensures { result ≡ is_blank magic.now }
{
    magic.iter().all(|byte| *byte == 0)
}

// The length of a record by its head.
pub fn stated_len(head: &[u8]) -> usize
    requires { length head.now ≡ HEAD_LEN }
    ensures { result ≡ 12 + from_be_bytes w32 (take 4 (drop 8 head.now)) }
{
    let body = u32::from_be_bytes([head[8], head[9], head[10], head[11]]);
    HEAD_LEN + body as usize
}
