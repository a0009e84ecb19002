// One word, and the place and mask of an index.
#![tactic(auto, using(crate::proofs::RowLaws::on_words))]

ghost use Rattle.std.specs.Prelude.{◌≡◌, true, false, not, [], ◌∷◌, ◌<◌, ◌/◌, ◌%◌, ◌^◌};
ghost use Rattle.words.specs.Words.{bit, put, count, lowest};

// The place of the word that an index lies in.
pub fn place(index: usize) -> usize
    ensures { result ≡ index / 64 }
{
    index / 64
}

// The mask of an index within its word.
pub fn mask(index: usize) -> u64
    ensures { result ≡ 2 ^ (index % 64) }
{
    1u64 << (index % 64)
}

pub fn test(word: u64, index: usize) -> bool
    ensures { result ≡ bit word (index % 64) }
{
    word & mask(index) != 0
}

pub fn set(word: u64, index: usize) -> u64
    ensures { result ≡ put word (index % 64) true }
{
    word | mask(index)
}

pub fn clear(word: u64, index: usize) -> u64
    ensures { result ≡ put word (index % 64) false }
{
    word & !mask(index)
}

pub fn flip(word: u64, index: usize) -> u64
    ensures { result ≡ put word (index % 64) (not (bit word (index % 64))) }
{
    word ^ mask(index)
}

// How many ones the word has.
pub fn count(word: u64) -> usize
    ensures { result ≡ count (word ∷ []) }
{
    u64::count_ones(word) as usize
}

// The place of the lowest one; 64 where there is none.
pub fn lowest(word: u64) -> usize
    ensures { result ≡ lowest word }
{
    u64::trailing_zeros(word) as usize
}

// The word with its lowest one cleared.
pub fn without_lowest(word: u64) -> u64
    requires { 0 < word }
    ensures { result ≡ put word (lowest word) false }
{
    word & (word - 1)
}
