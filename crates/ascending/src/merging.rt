// A merge of two ascending lists, told by what it keeps.
ghost use Rattle.std.specs.Prelude.{true, false, ◌≡◌, ◌+◌, ◌-◌, ◌≤◌, ◌<◌, ◌^◌};
ghost use Rattle.words.specs.Sets.{pick};
ghost use Rattle.ascending.specs.Merging.{past, keeps, stepped};

// Whether a merge keeps the elements of the left list only, of the right one only, and of both. Flags, which are added up: a
// closure that is asked at each pair of heads would hang a branch on them.
#[derive(Clone, Copy)]
pub struct Kept {
    pub left: bool,
    pub right: bool,
    pub both: bool,
}

// How far a merge has come in the left list and in the right one, and how many elements it has kept.
#[derive(Clone, Copy, Default)]
pub struct Places {
    pub left: usize,
    pub right: usize,
    pub kept: usize,
}

// The symmetric difference, and the intersection.
pub fn difference() -> Kept
    ensures { result ≡ record { left = true; right = true; both = false } }
{
    Kept {
        left: true,
        right: true,
        both: false,
    }
}

pub fn intersection() -> Kept
    ensures { result ≡ record { left = false; right = false; both = true } }
{
    Kept {
        left: false,
        right: false,
        both: true,
    }
}

// A place, or the next one where it has been passed.
#[tactic(auto, unfolding(crate::specs::Merging::past))]
fn past(place: usize, passed: bool) -> usize
    requires { place + 1 < 2 ^ 64 }
    ensures { result ≡ past place passed }
{
    place + usize::from(passed)
}

#[tactic(auto, unfolding(crate::specs::Merging::keeps))]
fn keeps(kept: Kept, less: bool, more: bool) -> bool
    ensures { result ≡ keeps kept less more }
{
    if less {
        kept.left
    } else if more {
        kept.right
    } else {
        kept.both
    }
}

// Past the lower of two heads, or past both where they are equal: `less` says that the left head is the lower one, `more`
// that the right one is.
#[tactic(auto, unfolding(crate::specs::Merging::stepped))]
pub fn step(kept: Kept, at: Places, less: bool, more: bool) -> Places
    requires { (at.left + 1 < 2 ^ 64) × (at.right + 1 < 2 ^ 64) × (at.kept + 1 < 2 ^ 64) }
    ensures { result ≡ stepped kept at less more }
{
    Places {
        left: past(at.left, !more),
        right: past(at.right, !less),
        kept: past(at.kept, keeps(kept, less, more)),
    }
}

// How many elements of a list are left, if they are kept.
pub fn left(kept: bool, length: usize, passed: usize) -> usize
    requires { passed ≤ length }
    ensures { result ≡ pick kept (length - passed) 0 }
{
    if kept { length - passed } else { 0 }
}
