// Searching ascending elements: `Ok` names the place where an element stands, `Err` the one where it would be put.
ghost use Rattle.std.specs.Prelude.{◌≡◌, ◌+◌, ◌<◌, ◌^◌, Ok};
ghost use Rattle.words.specs.Sets.{Ascending};
ghost use Rattle.answers.specs.Answers.{truth, answer_of};
ghost use Rattle.ascending.specs.Search.{found, place_of, later, told};

use words::number::Number;

// Where an element stands, or where it would be put: in the half that can hold it, the middle one set aside.
pub fn lookup<T: Number>(elements: &[T], element: T) -> Result<usize, usize>
    requires { Ascending (T.values elements.now) }
    ensures { result ≡ found (T.value element) (T.values elements.now) }
{
    if elements.is_empty() {
        return Err(0);
    }
    let middle = elements.len() / 2;
    let there = elements[middle];
    if there == element {
        return Ok(middle);
    }
    if element < there {
        return lookup(&elements[..middle], element);
    }
    let start = middle + 1;
    shifted(lookup(&elements[start..], element), start)
}

// What a search in the part from `start` on answers, as an answer of the whole.
#[tactic(auto, unfolding(crate::specs::Search::place_of, crate::specs::Search::later))]
fn shifted(found: Result<usize, usize>, start: usize) -> Result<usize, usize>
    requires { start + place_of found < 2 ^ 64 }
    ensures { result ≡ later start found }
{
    found
        .map(|place| start + place)
        .map_err(|place| start + place)
}

// What a search's answer comes to: whether the element is there.
#[tactic(auto, unfolding(crate::specs::Search::told, answers::specs::Answers::answer_of, answers::specs::Answers::truth))]
pub fn told(found: Result<usize, usize>) -> bool
    ensures { answer_of truth (Ok result) ≡ told found }
{
    found.is_ok()
}
