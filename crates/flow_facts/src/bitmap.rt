//! Marks: bits of words, 64 in each.

ghost use Rattle.std.specs.Prelude.{◌≡◌, ◌≢◌, ℕ, ◌<◌, ◌≤◌, ◌/◌, ◌==◌, true, false, length, slice_index_or, if◌then◌else◌};
ghost use Rattle.predicate_rel.specs.Pairs.{has_bit};
ghost use Rattle.flow_facts.specs.Tables.{is_marked, sum_of};

/// How many marks a word has.
pub(crate) const BLOCK: usize = 64;

/// The number of the lowest bit of a word that has one.
#[inline(always)]
pub(crate) fn first(word: u64) -> usize
    requires { word ≢ 0 }
    ensures range { result < BLOCK }
    ensures there { has_bit word result ≡ true }
    ensures none_below { (y : ℕ) → y < result → has_bit word y ≡ false }
{
    word.trailing_zeros() as usize
}

/// Sets the n-th mark.
#[inline(always)]
pub(crate) fn mark(words: &mut Vec<u64>, n: usize)
    requires { n / BLOCK < length words.old.items }
    ensures same_length { length words.new.items ≡ length words.old.items }
    ensures marks { (m : ℕ) → is_marked words.new.items m ≡ (if m == n then true else is_marked words.old.items m) }
    ensures others { (k : ℕ) → k ≢ n / BLOCK → slice_index_or words.new.items k 0 ≡ slice_index_or words.old.items k 0 }
{
    words[n / BLOCK] |= 1 << (n % BLOCK);
}

/// Clears the n-th mark.
#[inline(always)]
pub(crate) fn unmark(words: &mut Vec<u64>, n: usize)
    requires { n / BLOCK < length words.old.items }
    ensures same_length { length words.new.items ≡ length words.old.items }
    ensures marks { (m : ℕ) → is_marked words.new.items m ≡ (if m == n then false else is_marked words.old.items m) }
    ensures at_most { (k : ℕ) → slice_index_or words.new.items k 0 ≤ slice_index_or words.old.items k 0 }
    ensures less { is_marked words.old.items n ≡ true → sum_of words.new.items < sum_of words.old.items }
{
    words[n / BLOCK] &= !(1 << (n % BLOCK));
}
