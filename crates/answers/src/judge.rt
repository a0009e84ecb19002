// Judging the sets of a call: the lengths of all first, then the soundness of each, the target's before the operands'.
ghost use Rattle.std.specs.Prelude.{◌≡◌, true, map, All};
ghost use Rattle.std.specs.List.{list_all};
ghost use Rattle.answers.specs.Judging.{Judged, verdict};
ghost use Rattle.answers.specs.Answers.{number_of};

use crate::Refusal;

// A set as a call is given it: its header, with what it is lent.
pub trait Judgeable {
    ghost judged: { Self → Judged };

    fn is_in_range(&self) -> bool
        ensures { result ≡ (judged self.now).in_range };

    fn is_sound(&self) -> bool
        requires { (judged self.now).in_range ≡ true }
        ensures { result ≡ (judged self.now).sound };
}

// Whether every set is lent a length in range.
pub fn are_in_range<S: Judgeable>(sets: &[S]) -> bool
    ensures { result ≡ list_all (λ s. (S.judged s).in_range) sets.now }
{
    sets.iter().all(|set| set.is_in_range())
}

// Whether every set is sound.
pub fn are_sound<S: Judgeable>(sets: &[S]) -> bool
    requires { All (λ s. (S.judged s).in_range ≡ true) sets.now }
    ensures { result ≡ list_all (λ s. (S.judged s).sound) sets.now }
{
    sets.iter().all(|set| set.is_sound())
}

// What the sets of a call are refused for, if for anything.
#[tactic(auto, using(crate::proofs::Judging::verdict_all), unfolding(crate::specs::Answers::number_of, crate::specs::Answers::number))]
pub fn judge<S: Judgeable>(sets: &[S]) -> Result<(), Refusal>
    ensures { number_of result ≡ verdict (map S.judged sets.now) }
{
    if !are_in_range(sets) {
        return Err(Refusal::Length);
    }
    if !are_sound(sets) {
        return Err(Refusal::Unsound);
    }
    Ok(())
}
