// The calls over sets that are known to be sound: no scan of whole buffers. Each meets the equation of the full call.
#![tactic(auto, using(crate::proofs::Calls::reads), unfolding(crate::specs::Steps::storage_of, crate::specs::Contract::bytes_of, adaptive_rules::specs::Bytes::in_range, adaptive_rules::specs::Bytes::sound, adaptive_rules::specs::Bytes::sound_narrow, adaptive_rules::specs::Bytes::sound_wide, adaptive_rules::specs::Bytes::sound_sparse, answers::specs::Answers::answer_of))]

ghost use Rattle.std.specs.Prelude.{◌≡◌, Ok};
ghost use Rattle.answers.specs.Answers.{truth, answer_of};
ghost use Rattle.adaptive_rules.specs.Bytes.{Sound};
ghost use Rattle.adaptive_rules.specs.Calls.{containing, counting, emptiness, clearing, result_of};
ghost use Rattle.adaptive_index_set.specs.Contract.{bytes_of, lent_bytes, left};

use crate::storage::Storage;
use crate::{Header, Lent};
use answers::Refusal;
use ascending::search::{lookup, told};
use words::row;
use words::row::count_all;

// The largest index of a member: a key has 32 bits.
const LARGEST: usize = 4294967295;

// A set that is known to be sound, to be read. What is written is a header with its words and keys lent beside it, sound by a
// `requires`: of a struct that holds a `&mut` a contract can say what stands behind it at the end only by the places of its
// fields, which is no plainer.
#[derive(Clone, Copy)]
pub struct Checked<'a> {
    pub lent: Lent<'a>,
    pub ghost sound: { Sound (lent_bytes lent) },
}

impl<'a> Checked<'a> {
    pub fn contains(self, index: usize) -> Result<bool, Refusal>
        ensures { answer_of truth result ≡ (result_of (containing index) (lent_bytes self.entry.lent)).answer }
    {
        if LARGEST < index {
            return Err(Refusal::Index);
        }
        let Lent {
            header,
            words,
            keys,
        } = self.lent;
        Ok(match Storage::from(header) {
            Storage::Sparse(count) => told(lookup(&keys[..count], index as u32)),
            _ => row::contains(words, index),
        })
    }

    // How many members there are: stored, or counted where narrow.
    pub fn len(self) -> usize
        ensures { answer_of (λ n. n) (Ok result) ≡ (result_of counting (lent_bytes self.entry.lent)).answer }
    {
        match Storage::from(self.lent.header) {
            Storage::Narrow(span) => count_all(&self.lent.words[..span]),
            Storage::Wide(_, count) => count,
            Storage::Sparse(count) => count,
        }
    }

    pub fn is_empty(self) -> bool
        ensures { answer_of truth (Ok result) ≡ (result_of emptiness (lent_bytes self.entry.lent)).answer }
    {
        self.len() == 0
    }
}

pub fn clear(header: Header, words: &mut [u64], keys: &mut [u32]) -> Header
    requires { Sound (bytes_of header words.old keys.old) }
    ensures { left header (Ok result) words.new keys.new ≡ result_of clearing (bytes_of header words.old keys.old) }
{
    match Storage::from(header) {
        Storage::Narrow(span) => {
            words[..span].fill(0);
            Header::narrow(span)
        }
        Storage::Wide(span, _) => {
            words[..span].fill(0);
            Header::narrow(0)
        }
        Storage::Sparse(count) => {
            keys[..count].fill(0);
            Header::narrow(0)
        }
    }
}
