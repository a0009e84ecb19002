// A set over its words and keys, which are lent to be read: its check, and the reads. Scans over whole runs, none left
// early but where a wide set's count is wrong.
ghost use Rattle.std.specs.Prelude.{true, ◌≡◌, ◌≤◌, ◌<◌, IfOk};
ghost use Rattle.answers.specs.Answers.{truth, answer_of, number_of};
ghost use Rattle.adaptive_rules.specs.Bytes.{in_range, sound, Sound};
ghost use Rattle.adaptive_rules.specs.Calls.{containing, counting, emptiness, result_of};
ghost use Rattle.adaptive_index_set.specs.Contract.{lent_bytes, judged};

use crate::Header;
use crate::checked::Checked;
use answers::Refusal;
use answers::judge::{Judgeable, judge};
use ascending::scan::ascending;
use words::row::{count_all, zero_from};

const FEWEST_WORDS: usize = 32;

const MOST_WORDS: usize = 8192;

const MOST_KEYS: usize = 16384;

#[derive(Clone, Copy)]
pub struct Lent<'a> {
    pub header: Header,
    pub words: &'a [u64],
    pub keys: &'a [u32],
}

#[tactic(auto, unfolding(crate::specs::Contract::judged, crate::specs::Contract::bytes_of, adaptive_rules::specs::Bytes::in_range, adaptive_rules::specs::Bytes::sound))]
impl<'a> Judgeable for Lent<'a> {
    ghost judged = { λ s. judged (lent_bytes s) };

    fn is_in_range(&self) -> bool {
        (FEWEST_WORDS..=MOST_WORDS).contains(&self.words.len()) && self.keys.len() <= MOST_KEYS
    }

    fn is_sound(&self) -> bool {
        match self.header.mode {
            Header::DENSE if self.header.span <= Header::NARROW => self.is_narrow(),
            Header::DENSE => self.is_wide(),
            Header::SPARSE => self.is_sparse(),
            _ => false,
        }
    }
}

#[tactic(auto, unfolding(crate::specs::Contract::bytes_of, adaptive_rules::specs::Bytes::in_range, adaptive_rules::specs::Bytes::sound, adaptive_rules::specs::Bytes::view, adaptive_rules::specs::Bytes::stored, adaptive_rules::specs::Bytes::sound_narrow, adaptive_rules::specs::Bytes::sound_wide, adaptive_rules::specs::Bytes::sound_sparse))]
impl<'a> Lent<'a> {
    // Whether a header that says narrow is right; below, one that says wide, and one that says sparse.
    fn is_narrow(self) -> bool
        requires { (in_range (lent_bytes self) ≡ true) × (self.header.mode ≡ 0) × (self.header.span ≤ 32) }
        ensures { result ≡ sound (lent_bytes self.entry) }
    {
        (self.header.count == 0) & zero_from(self.words, self.header.span) & zero_from(self.keys, 0)
    }

    #[tactic(auto, using(crate::proofs::Soundness::count_small, crate::proofs::Soundness::wide_long, crate::proofs::Soundness::wide_counted), unfolding(crate::specs::Contract::bytes_of, adaptive_rules::specs::Bytes::in_range))]
    fn is_wide(self) -> bool
        requires { (in_range (lent_bytes self) ≡ true) × (self.header.mode ≡ 0) × (32 < self.header.span) }
        ensures { result ≡ sound (lent_bytes self.entry) }
    {
        let span = self.header.span;
        if self.words.len() < span {
            return false;
        }
        let count = count_all(self.words);
        if self.header.count != count {
            return false;
        }
        (self.words[span - 1] != 0)
            & (span <= Header::HOLDS * count)
            & zero_from(self.words, span)
            & zero_from(self.keys, 0)
    }

    fn is_sparse(self) -> bool
        requires { (in_range (lent_bytes self) ≡ true) × (self.header.mode ≡ 1) }
        ensures { result ≡ sound (lent_bytes self.entry) }
    {
        let count = self.header.count;
        if self.keys.len() < count {
            return false;
        }
        (self.header.span == 0)
            & ascending(&self.keys[..count])
            & zero_from(self.keys, count)
            & zero_from(self.words, 0)
    }
}

impl<'a> Lent<'a> {
    // The set as one that is known to be sound.
    pub fn known(self) -> Checked<'a>
        requires { Sound (lent_bytes self) }
        ensures { result.lent ≡ self.entry }
    {
        Checked { lent: self }
    }

    pub fn contains(self, index: usize) -> Result<bool, Refusal>
        ensures { answer_of truth result ≡ (result_of (containing index) (lent_bytes self.entry)).answer }
    {
        judge(&[self])?;
        self.known().contains(index)
    }

    pub fn len(self) -> Result<usize, Refusal>
        ensures { answer_of (λ n. n) result ≡ (result_of counting (lent_bytes self.entry)).answer }
    {
        judge(&[self])?;
        Ok(self.known().len())
    }

    pub fn is_empty(self) -> Result<bool, Refusal>
        ensures { answer_of truth result ≡ (result_of emptiness (lent_bytes self.entry)).answer }
    {
        judge(&[self])?;
        Ok(self.known().is_empty())
    }
}
