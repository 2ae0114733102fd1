//! Counts on either side of a wrap, by hand.

use sm_counters::{Count, ahead, within};

const HALF: u32 = 2147483648;

const LAST: u32 = 4294967295;

#[test]
fn counts_go_on_from_zero(rt: HostRuntime) {
    let cases = [
        (0, 1),
        (HALF - 1, HALF),
        (HALF, HALF + 1),
        (LAST - 1, LAST),
        (LAST, 0),
    ];
    for (count, want) in cases {
        assert_eq!(rt; Count(count).plus_one().0, want, "after {count}");
    }
}

#[test]
fn counts_are_ahead(rt: HostRuntime) {
    let cases = [
        (0, 0, 0),
        (0, 1, 1),
        (1, 0, LAST),
        (0, HALF, HALF),
        (HALF, 0, HALF),
        (1, HALF, HALF - 1),
        (HALF, 1, HALF + 1),
        (0, LAST, LAST),
        (LAST, 0, 1),
        (1, LAST, LAST - 1),
        (LAST, 1, 2),
        (HALF, LAST, HALF - 1),
        (LAST, HALF, HALF + 1),
        (LAST, LAST, 0),
    ];
    for (from, to, want) in cases {
        assert_eq!(rt; ahead(Count(from), Count(to)), want, "{to} after {from}");
    }
}

// Four stanzas sent after 4294967294: the last has the count 2.
#[test]
fn a_window_across_the_wrap(rt: HostRuntime) {
    let cases = [
        (LAST - 1, Some(0)),
        (LAST, Some(1)),
        (0, Some(2)),
        (1, Some(3)),
        (2, Some(4)),
        (3, None),
        (HALF, None),
        (LAST - 2, None),
    ];
    for (h, want) in cases {
        assert_eq!(rt; within(Count(LAST - 1), 4, Count(h)), want, "{h}");
    }
}

#[test]
fn windows_end_where_they_end(rt: HostRuntime) {
    let cases = [
        (0, 0, 0, Some(0)),
        (0, 0, 1, None),
        (0, 0, LAST, None),
        (0, LAST, LAST, Some(LAST)),
        (0, LAST - 1, LAST, None),
        (1, LAST, 0, Some(LAST)),
        (1, LAST - 1, 0, None),
        (HALF, HALF, 0, Some(HALF)),
        (HALF, HALF - 1, 0, None),
        (LAST, 0, 0, None),
        (LAST, 1, 0, Some(1)),
        (LAST, HALF, HALF, None),
        (LAST, HALF + 1, HALF, Some(HALF + 1)),
    ];
    for (base, length, h, want) in cases {
        assert_eq!(rt;
            within(Count(base), length, Count(h)),
            want,
            "{h} in {length} after {base}"
        );
    }
}
