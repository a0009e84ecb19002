// Writing a row of words: one index by its mask, whole rows by XOR, and zeros.
ghost use Rattle.std.specs.Prelude.{◌≡◌, true, false, ◌/◌, ◌<◌, length, replicate, slice_index, slice_set, ℕ};
ghost use Rattle.words.specs.Words.{at, put_at, flip, ands, xors, into};

use crate::word::{clear, flip, place, set, test};

// Changes the word that an index lies in; answers whether the index was there.
fn change_at<F: FnOnce(u64, usize) -> u64>(words: &mut [u64], index: usize, change: F) -> bool
    requires in_words { index / 64 < length words.old }
    requires callable { F.IsAlwaysCallable change }
    ensures changed { (w : ℕ) × F.post change (slice_index words.old (index / 64)) index w × (words.new ≡ slice_set words.old (index / 64) w) }
    ensures was { result ≡ at words.old index }
{
    let word = &mut words[place(index)];
    let was = test(*word, index);
    *word = change(*word, index);
    was
}

// Sets the bit of an index; answers whether it was there.
#[tactic(auto, unfolding(crate::specs::Words::put_at))]
pub fn set_at(words: &mut [u64], index: usize) -> bool
    requires { index / 64 < length words.old }
    ensures { (words.new ≡ put_at words.old index true) × (result ≡ at words.old index) }
{
    change_at(words, index, set)
}

// Clears the bit of an index; answers whether it was there.
#[tactic(auto, unfolding(crate::specs::Words::put_at))]
pub fn clear_at(words: &mut [u64], index: usize) -> bool
    requires { index / 64 < length words.old }
    ensures { (words.new ≡ put_at words.old index false) × (result ≡ at words.old index) }
{
    change_at(words, index, clear)
}

// Flips the bit of an index; answers whether it was there.
#[tactic(auto, unfolding(crate::specs::Words::flip))]
pub fn flip_at(words: &mut [u64], index: usize) -> bool
    requires { index / 64 < length words.old }
    ensures { (words.new ≡ flip words.old index) × (result ≡ at words.old index) }
{
    change_at(words, index, flip)
}

// XORs a row into words, as far as they reach. By index here and below: after `iter_mut().zip(..)` a proof knows nothing of the
// words that are left.
pub fn xor_in(words: &mut [u64], a: &[u64])
    ensures { words.new ≡ into words.old a.now }
{
    for i in 0..words.len().min(a.len()) {
        words[i] ^= a[i];
    }
}

// XORs what two rows have in common into words, as far as they reach. With `^=` the word is read last, which takes a tenth longer.
pub fn xor_in_and(words: &mut [u64], a: &[u64], b: &[u64])
    ensures { words.new ≡ into words.old (ands a.now b.now) }
{
    for i in 0..words.len().min(a.len()).min(b.len()) {
        words[i] = words[i] ^ (a[i] & b[i]);
    }
}

// XORs two rows into words, as far as they reach. After the loop the words or one of the rows has ended, so at most one of
// the two rests changes anything.
pub fn xor_in_xor(words: &mut [u64], a: &[u64], b: &[u64])
    ensures { words.new ≡ into words.old (xors a.now b.now) }
{
    let k = words.len().min(a.len()).min(b.len());
    for i in 0..k {
        words[i] ^= a[i] ^ b[i];
    }
    xor_in(&mut words[k..], &a[k..]);
    xor_in(&mut words[k..], &b[k..]);
}

// Sets all words to 0.
pub fn clear_all(words: &mut [u64])
    ensures { words.new ≡ replicate (length words.old) 0 }
{
    words.fill(0);
}
