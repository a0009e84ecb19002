// Merging two runs of ascending elements, told by which elements are kept.
ghost use Rattle.std.specs.Prelude.{[], ◌≡◌, ◌+◌, ◌≤◌, length, take};
ghost use Rattle.std.proofs.lemmas.List.Edits.{sets};
ghost use Rattle.words.specs.Sets.{pick};
ghost use Rattle.ascending.specs.Merging.{merged};
ghost use Rattle.ascending.specs.Steps.{Headed};

use crate::merging::{Kept, Places, left, step};
use crate::store::copy;
use words::number::Number;

// Merges until one of the two has ended. Each turn writes the lower head, and the next one writes over it unless it is kept:
// which head is lower can't be foreseen, so no branch hangs on it, as one would on an iterator that goes on or doesn't.
fn merge_heads<T: Number>(kept: Kept, a: &[T], b: &[T], out: &mut [T]) -> Places
    requires { length a.now + length b.now ≤ length out.old }
    ensures { Headed kept (T.values a.now) (T.values b.now) result (T.values out.new) }
{
    let mut at = Places::default();
    while let (Some(&x), Some(&y)) = (a.get(at.left), b.get(at.right)) {
        out[at.kept] = x.min(y);
        at = step(kept, at, x < y, y < x);
    }
    at
}

// What is left of a run where the other has ended, if it is kept.
fn append<T: Copy>(kept: bool, rest: &[T], out: &mut [T], n: usize) -> usize
    requires { n + length rest.now ≤ length out.old }
    ensures { (result ≡ n + length (pick kept rest.now [])) × (out.new ≡ sets out.old n (pick kept rest.now [])) }
{
    if kept { copy(rest, out, n) } else { n }
}

// Writes the merge of two runs to the front of `out`, which has room for both; answers how many elements it has.
pub fn merge<T: Number>(kept: Kept, a: &[T], b: &[T], out: &mut [T]) -> usize
    requires { length a.now + length b.now ≤ length out.old }
    ensures { (result ≡ length (merged kept (T.values a.now) (T.values b.now)))
        × (take result (T.values out.new) ≡ merged kept (T.values a.now) (T.values b.now)) }
{
    let at = merge_heads(kept, a, b, out);
    let n = append(kept.left, &a[at.left..], out, at.kept);
    append(kept.right, &b[at.right..], out, n)
}

// How many elements the merge of two runs has. It walks as `merge_heads` does: one walk for both would take a closure that
// writes or not, and its contract what each turn leaves.
pub fn merge_count<T: Number>(kept: Kept, a: &[T], b: &[T]) -> usize
    ensures { result ≡ length (merged kept (T.values a.now) (T.values b.now)) }
{
    let mut at = Places::default();
    while let (Some(x), Some(y)) = (a.get(at.left), b.get(at.right)) {
        at = step(kept, at, x < y, y < x);
    }
    at.kept + left(kept.left, a.len(), at.left) + left(kept.right, b.len(), at.right)
}
