// Words to ascending keys, lowest first, and keys into words.
ghost use Rattle.std.specs.Prelude.{◌≡◌, ◌++◌, ◌+◌, ◌*◌, ◌^◌, ◌≤◌, length, drop};
ghost use Rattle.std.proofs.lemmas.List.Edits.{sets};
ghost use Rattle.words.specs.Sets.{Below};
ghost use Rattle.words.specs.Words.{ones_from, members, count, flips};

use crate::word::{lowest, without_lowest};
use crate::write::flip_at;

// Writes the ones of a word to keys from place `to` on, lowest first, where its bit 0 is the index `base`; answers the
// place after the last. An iterator over the ones would have this one user, and be longer than the loop.
#[tactic(auto, using(crate::proofs::KeyLaws::walking))]
pub fn write_ones(base: usize, word: u64, keys: &mut [u32], to: usize) -> usize
    requires { (base + 64 ≤ 2 ^ 32) × (to + length (ones_from base 64 word) ≤ length keys.old) }
    ensures { (result ≡ to + length (ones_from base 64 word)) × (keys.new ≡ sets keys.old to (ones_from base 64 word)) }
{
    let mut left = word;
    let mut n = to;
    while left != 0 {
        keys[n] = (base + lowest(left)) as u32;
        n += 1;
        left = without_lowest(left);
    }
    n
}

// Writes the members to the front of keys, lowest first; answers how many they are.
pub fn to_keys(words: &[u64], keys: &mut [u32]) -> usize
    requires { (length words.now ≤ 8192) × (count words.now ≤ length keys.old) }
    ensures { (result ≡ count words.now) × (keys.new ≡ members words.now ++ drop result keys.old) }
{
    let mut n = 0;
    for (p, word) in words.iter().enumerate() {
        n = write_ones(64 * p, *word, keys, n);
    }
    n
}

// Flips the bit of each key, one after another. `bitset::indices::flip` does so with indices: one function for both would take a
// trait that says which index an item is, and be no shorter.
#[tactic(auto, using(crate::proofs::KeyLaws::flipping))]
pub fn flip_keys(words: &mut [u64], keys: &[u32])
    requires { Below (64 * length words.old) keys.now }
    ensures { words.new ≡ flips words.old keys.now }
{
    for key in keys {
        flip_at(words, *key as usize);
    }
}
