// How a header of a sound set says that its members are stored.
ghost use Rattle.std.specs.Prelude.{◌≡◌};
ghost use Rattle.adaptive_index_set.specs.Steps.{storage_of};

use crate::Header;

// In words, narrow with a span, or wide with a span and a count; or in so many keys.
#[derive(Clone, Copy, Debug, PartialEq, Eq)]
pub enum Storage {
    Narrow(usize),
    Wide(usize, usize),
    Sparse(usize),
}

#[tactic(auto, unfolding(crate::specs::Steps::storage_of))]
impl From<Header> for Storage {
    ghost from_gives = { λ header storage. storage ≡ storage_of header };

    fn from(header: Header) -> Storage {
        if header.mode != Header::DENSE {
            Storage::Sparse(header.count)
        } else if header.span <= Header::NARROW {
            Storage::Narrow(header.span)
        } else {
            Storage::Wide(header.span, header.count)
        }
    }
}
