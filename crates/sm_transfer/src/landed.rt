// The marks of the indexes that have landed.
ghost use Rattle.std.specs.Prelude.{◌≡◌, ◌≤◌, ◌<◌, ℕ, true, false, length, replicate};
ghost use Rattle.sm_bits.specs.Places.{has};
ghost use Rattle.sm_defs.specs.Progress.{landed_prefix};
ghost use Rattle.sm_defs.specs.Volume.{numbers};
ghost use Rattle.sm_select.specs.Planned.{members};

use sm_bits::BitMap;

// Marks all indexes below a number in an empty set.
pub(crate) fn land_below(marks: &mut BitMap, end: u32)
    requires empty { marks.old ≡ replicate (length marks.old) false }
    requires within { end ≤ length marks.old }
    ensures long { length marks.new ≡ length marks.old }
    ensures landed { members marks.new ≡ numbers 0 end }
    ensures below { (k : ℕ) → k < end → has marks.new k ≡ true }
{
    for index in 0..end {
        marks.set(index);
    }
}

// Takes the marks off all indexes from one on, below which all are marked.
pub(crate) fn forget_from(marks: &mut BitMap, from: u32)
    requires within { from ≤ length marks.old }
    requires below { (k : ℕ) → k < from → has marks.old k ≡ true }
    ensures long { length marks.new ≡ length marks.old }
    ensures landed { members marks.new ≡ numbers 0 from }
    ensures below { (k : ℕ) → k < from → has marks.new k ≡ true }
{
    for index in from..marks.len() {
        marks.clear(index);
    }
}

// The end of the run of marks that begins at 0, where all below `from` are marked.
pub(crate) fn end_of_landed(marks: &BitMap, from: u32) -> u32
    requires within { from ≤ length marks.now }
    requires below { (k : ℕ) → k < from → has marks.now k ≡ true }
    ensures value { result ≡ landed_prefix (members marks.now) }
    ensures within { result ≤ length marks.now }
    ensures all { (k : ℕ) → k < result → has marks.now k ≡ true }
{
    for index in from..marks.len() {
        if !marks.test(index) {
            return index;
        }
    }
    marks.len()
}
