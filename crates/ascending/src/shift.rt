// Putting an element in at a place, and taking one out, by shifting those behind it once. The memory is the caller's, and fixed;
// so he says how many of its elements count.
ghost use Rattle.std.specs.Prelude.{◌++◌, ◌∷◌, ◌≡◌, ◌+◌, ◌≤◌, ◌<◌, length, take, drop};
ghost use Rattle.ascending.specs.Places.{insert_at, remove_at};

use words::number::Number;

// Puts an element in at a place among the first `count`; those from there on move up by one.
#[tactic(auto, using(crate::proofs::PlaceLaws::opened))]
pub fn insert_at<T: Copy>(elements: &mut [T], count: usize, place: usize, element: T)
    requires { (place ≤ count) × (count < length elements.old) }
    ensures { elements.new ≡ insert_at place element (take count elements.old) ++ drop (count + 1) elements.old }
{
    elements.copy_within(place..count, place + 1);
    elements[place] = element;
}

// Takes out the one at a place among the first `count`; those behind it move down by one, and where the last stood is 0.
#[tactic(auto, using(crate::proofs::PlaceLaws::closed))]
pub fn remove_at<T: Number>(elements: &mut [T], count: usize, place: usize)
    requires { (place < count) × (count ≤ length elements.old) }
    ensures { elements.new ≡ remove_at place (take count elements.old) ++ (T.ZERO ∷ drop count elements.old) }
{
    elements.copy_within(place + 1..count, place);
    elements[count - 1] = T::ZERO;
}
