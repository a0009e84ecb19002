// Writing runs of elements.
ghost use Rattle.std.specs.Prelude.{true, ◌≡◌, ◌+◌, ◌≤◌, length, drop};
ghost use Rattle.std.proofs.lemmas.List.Edits.{sets};
ghost use Rattle.words.specs.Words.{zeros};
ghost use Rattle.ascending.specs.Order.{row};

use words::number::Number;

// Copies a run over another from a place on; answers the place behind it.
#[tactic(auto, using(crate::proofs::RowLaws::copied))]
pub fn copy<T: Copy>(from: &[T], to: &mut [T], place: usize) -> usize
    requires { place + length from.now ≤ length to.old }
    ensures { (result ≡ place + length from.now) × (to.new ≡ sets to.old place from.now) }
{
    let end = place + from.len();
    to[place..end].copy_from_slice(from);
    end
}

// Members in front and 0 behind them, over a buffer that is 0 behind its first `count`.
pub fn store<T: Number>(elements: &mut [T], count: usize, members: &[T])
    requires { (length members.now ≤ length elements.old) × (count ≤ length elements.old) × (zeros (drop count (T.values elements.old)) ≡ true) }
    ensures { T.values elements.new ≡ row (length elements.old) (T.values members.now) }
{
    let n = copy(members, elements, 0);
    if n < count {
        elements[n..count].fill(T::ZERO);
    }
}
