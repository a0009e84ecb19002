// The functions at both widths, on no elements, on the key 0 and on the width's largest number.
use crate::merge::{merge, merge_count};
use crate::merging::{difference, intersection};
use crate::scan::{ascending, equal};
use crate::search::lookup;
use crate::shift::{insert_at, remove_at};
use crate::store::store;
use words::row::zero_from;

macro_rules! reads {
    ($rt:expr, $number:ty) => {{
        let none: [$number; 0] = [];
        let row: [$number; 3] = [0, 7, <$number>::MAX];
        let flat: [$number; 3] = [7, 0, 0];
        assert!($rt; ascending(&none));
        assert!($rt; ascending(&row));
        assert!($rt; !ascending(&flat));
        assert!($rt; equal(&row, &[0, 7, <$number>::MAX]));
        assert!($rt; !equal(&row, &flat));
        assert!($rt; !equal(&row, &none));
        assert!($rt; zero_from(&flat, 1));
        assert!($rt; zero_from(&row, 3));
        assert!($rt; !zero_from(&row, 1));
        assert_eq!($rt; lookup(&none, 0), Err(0));
        assert_eq!($rt; lookup(&row, 0), Ok(0));
        assert_eq!($rt; lookup(&row, <$number>::MAX), Ok(2));
        assert_eq!($rt; lookup(&row, 8), Err(2));
    }};
}

macro_rules! writes {
    ($rt:expr, $number:ty) => {{
        let mut row: [$number; 3] = [0, <$number>::MAX, 0];
        insert_at(&mut row, 2, 1, 7);
        assert_eq!($rt; row, [0, 7, <$number>::MAX]);
        remove_at(&mut row, 3, 0);
        assert_eq!($rt; row, [7, <$number>::MAX, 0]);
        let mut row: [$number; 3] = [7, 8, 0];
        store(&mut row, 2, &[<$number>::MAX]);
        assert_eq!($rt; row, [<$number>::MAX, 0, 0]);
        store(&mut row, 1, &[]);
        assert_eq!($rt; row, [0, 0, 0]);
    }};
}

macro_rules! merges {
    ($rt:expr, $number:ty) => {{
        let none: [$number; 0] = [];
        let a: [$number; 2] = [0, 7];
        let b: [$number; 2] = [7, <$number>::MAX];
        let mut out: [$number; 4] = [1; 4];
        assert_eq!($rt; merge(difference(), &a, &b, &mut out), 2);
        assert!($rt; equal(&out[..2], &[0, <$number>::MAX]));
        assert_eq!($rt; merge(intersection(), &a, &b, &mut out), 1);
        assert!($rt; equal(&out[..1], &[7]));
        assert_eq!($rt; merge(difference(), &none, &b, &mut out), 2);
        assert!($rt; equal(&out[..2], &b));
        assert_eq!($rt; merge_count(difference(), &a, &b), 2);
        assert_eq!($rt; merge_count(intersection(), &a, &b), 1);
        assert_eq!($rt; merge_count(intersection(), &a, &none), 0);
    }};
}

#[test]
#[tactic(auto, unfolding(words::specs::Sets::From))]
fn reads_both_widths(rt: HostRuntime) {
    reads!(rt, u32);
    reads!(rt, u64);
}

#[test]
#[tactic(auto, unfolding(words::specs::Words::zeros))]
fn writes_both_widths(rt: HostRuntime) {
    writes!(rt, u32);
    writes!(rt, u64);
}

#[test]
fn merges_both_widths(rt: HostRuntime) {
    merges!(rt, u32);
    merges!(rt, u64);
}
