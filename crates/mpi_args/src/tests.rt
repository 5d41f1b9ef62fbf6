use crate::{fold, rank_fits, tag_fits};
use mpc_values::{Datatype, Op};

const INT_MIN: i64 = -2147483648;

const INT_MAX: i64 = 2147483647;

#[test]
fn folds_at_the_ends_of_an_int(rt: HostRuntime) {
    for (op, a, b, want) in [
        (Op::Max, INT_MIN, INT_MAX, INT_MAX),
        (Op::Min, INT_MIN, INT_MAX, INT_MIN),
        (Op::Sum, INT_MAX, 1, INT_MIN),
        (Op::Sum, INT_MIN, -1, INT_MAX),
        (Op::Sum, INT_MIN, INT_MIN, 0),
        (Op::Sum, INT_MAX, INT_MAX, -2),
        (Op::Sum, i64::MAX, 1, 0),
        (Op::Prod, INT_MAX, 2, -2),
        (Op::Prod, INT_MIN, -1, INT_MIN),
        (Op::Prod, INT_MAX, INT_MAX, 1),
        (Op::Prod, 46341, 46341, -2147479015),
        (Op::Prod, 65536, 65536, 0),
        (Op::Prod, i64::MAX, i64::MAX, 1),
        (Op::Land, INT_MIN, INT_MAX, 1),
        (Op::Land, INT_MIN, 0, 0),
        (Op::Band, INT_MIN, INT_MAX, 0),
        (Op::Band, -1, INT_MIN, INT_MIN),
        (Op::Lor, 0, INT_MIN, 1),
        (Op::Lor, 0, 0, 0),
        (Op::Bor, INT_MIN, INT_MAX, -1),
        (Op::Lxor, INT_MIN, INT_MAX, 0),
        (Op::Lxor, 0, INT_MAX, 1),
        (Op::Bxor, INT_MIN, INT_MAX, -1),
        (Op::Bxor, -1, INT_MAX, INT_MIN),
    ] {
        assert_eq!(rt;
            fold(op, Datatype::Int, a, b),
            want,
            "{op:?} of {a} and {b}"
        );
    }
}

#[test]
fn folds_at_the_ends_of_a_long(rt: HostRuntime) {
    for (op, a, b, want) in [
        (Op::Max, i64::MIN, i64::MAX, i64::MAX),
        (Op::Min, i64::MIN, i64::MAX, i64::MIN),
        (Op::Sum, i64::MAX, 1, i64::MIN),
        (Op::Sum, i64::MIN, -1, i64::MAX),
        (Op::Sum, INT_MAX, 1, 2147483648),
        (Op::Prod, i64::MAX, 2, -2),
        (Op::Prod, i64::MIN, -1, i64::MIN),
        (Op::Prod, 65536, 65536, 4294967296),
        (Op::Prod, 4294967296, 4294967296, 0),
        (Op::Land, i64::MIN, i64::MAX, 1),
        (Op::Land, 0, i64::MAX, 0),
        (Op::Band, i64::MIN, i64::MAX, 0),
        (Op::Lor, i64::MIN, 0, 1),
        (Op::Lor, 0, 0, 0),
        (Op::Bor, i64::MIN, i64::MAX, -1),
        (Op::Lxor, i64::MIN, i64::MAX, 0),
        (Op::Lxor, i64::MIN, 0, 1),
        (Op::Bxor, i64::MIN, i64::MAX, -1),
    ] {
        assert_eq!(rt;
            fold(op, Datatype::Long, a, b),
            want,
            "{op:?} of {a} and {b}"
        );
    }
}

#[test]
fn peers_and_tags_at_their_limits(rt: HostRuntime) {
    // The peer, the size of its group, and whether it fits in a send and in a receive.
    for (rank, size, sent, received) in [
        (0, 4, true, true),
        (3, 4, true, true),
        (4, 4, false, false),
        (-1, 4, false, true),
        (-2, 4, true, true),
        (-3, 4, false, false),
        (0, 0, false, false),
        (i32::MIN, u32::MAX, false, false),
        (i32::MAX, u32::MAX, true, true),
    ] {
        assert_eq!(rt;
            rank_fits(rank, size, false),
            sent,
            "a send to {rank} of {size}"
        );
        assert_eq!(rt;
            rank_fits(rank, size, true),
            received,
            "a receive from {rank} of {size}"
        );
    }
    for (tag, sent, received) in [
        (0, true, true),
        (32767, true, true),
        (32768, false, false),
        (-1, false, true),
        (-2, false, false),
        (i32::MIN, false, false),
        (i32::MAX, false, false),
    ] {
        assert_eq!(rt; tag_fits(tag, false), sent, "a send of tag {tag}");
        assert_eq!(rt; tag_fits(tag, true), received, "a receive of tag {tag}");
    }
}
