// XORing ascending elements into a sound set, by a merge into a scratch. That merge counts what comes out before anything of
// the set is written: only the final state has to fit.
ghost use Rattle.std.specs.Prelude.{◌≡◌, ◌+◌, ◌≤◌, length};
ghost use Rattle.ascending.specs.Merging.{merged};
ghost use Rattle.sorted_vec_set.specs.Calls.{Sound, bytes_of, left, alone};
ghost use Rattle.sorted_vec_set.specs.Steps.{flipping};

use crate::SortedVecSet;
use answers::Refusal;
use ascending::merge::merge;
use ascending::merging::{Kept, difference};
use ascending::store::store;

// Three sizes of scratch, so that a small set doesn't pay for clearing a large one. The largest has room for a full set and
// what two full sets make.
const SMALL: usize = 256;

const MIDDLE: usize = 4096;

const LARGE: usize = 24576;

// Room for what two full sets make.
const PAIR: usize = 16384;

// By way of a scratch with room for the set and the operand.
#[tactic(auto, unfolding(crate::specs::Steps::flipping, crate::specs::Calls::result, crate::specs::Calls::refused, crate::specs::Calls::encode, crate::specs::Calls::members, crate::specs::Calls::left))]
fn xor_through<const ROOM: usize>(
    set: SortedVecSet,
    elements: &mut [u64],
    operand: &[u64],
) -> Result<SortedVecSet, Refusal>
    requires { Sound set elements.old × (set.count + length operand.now ≤ ROOM) × (ROOM ≤ 24576) }
    ensures { left alone set result elements.new ≡ flipping operand.now (bytes_of set elements.old) }
{
    let mut scratch = [0; ROOM];
    let count = merge(difference(), &elements[..set.count], operand, &mut scratch);
    if elements.len() < count {
        return Err(Refusal::Room);
    }
    store(elements, set.count, &scratch[..count]);
    Ok(SortedVecSet { count })
}

// XORs elements in: a set's, or up to twice as many that two sets make.
pub fn xor_in(
    set: SortedVecSet,
    elements: &mut [u64],
    operand: &[u64],
) -> Result<SortedVecSet, Refusal>
    requires { Sound set elements.old × (length operand.now ≤ 16384) }
    ensures { left alone set result elements.new ≡ flipping operand.now (bytes_of set elements.old) }
{
    let most = set.count + operand.len();
    if most <= SMALL {
        xor_through::<SMALL>(set, elements, operand)
    } else if most <= MIDDLE {
        xor_through::<MIDDLE>(set, elements, operand)
    } else {
        xor_through::<LARGE>(set, elements, operand)
    }
}

// XORs in what a merge of two runs keeps, by way of a scratch with room for both.
fn fuse_through<const ROOM: usize>(
    kept: Kept,
    a: &[u64],
    b: &[u64],
    set: SortedVecSet,
    elements: &mut [u64],
) -> Result<SortedVecSet, Refusal>
    requires { Sound set elements.old × (length a.now + length b.now ≤ ROOM) × (ROOM ≤ 16384) }
    ensures { left alone set result elements.new ≡ flipping (merged kept a.now b.now) (bytes_of set elements.old) }
{
    let mut scratch = [0; ROOM];
    let count = merge(kept, a, b, &mut scratch);
    xor_in(set, elements, &scratch[..count])
}

// XORs in what a merge of two sets' elements keeps.
pub fn fuse_in(
    kept: Kept,
    a: &[u64],
    b: &[u64],
    set: SortedVecSet,
    elements: &mut [u64],
) -> Result<SortedVecSet, Refusal>
    requires { Sound set elements.old × (length a.now ≤ 8192) × (length b.now ≤ 8192) }
    ensures { left alone set result elements.new ≡ flipping (merged kept a.now b.now) (bytes_of set elements.old) }
{
    let most = a.len() + b.len();
    if most <= SMALL {
        fuse_through::<SMALL>(kept, a, b, set, elements)
    } else if most <= MIDDLE {
        fuse_through::<MIDDLE>(kept, a, b, set, elements)
    } else {
        fuse_through::<PAIR>(kept, a, b, set, elements)
    }
}
