//! Ids by hand, and every decision, also where two reasons stand together.

use sm_counters::Count;
use sm_resume::{Decision, Facts, ResumeId, decide};
use std::alloc::AllocError;

// The digits `000102030405060708090a0b0c0d0e0f`.
const DIGITS: [u8; 16] = [0, 1, 2, 3, 4, 5, 6, 7, 8, 9, 10, 11, 12, 13, 14, 15];

// The digits `ffeeddccbbaa99887766554433221100`.
const FALLING: [u8; 16] = [
    255, 238, 221, 204, 187, 170, 153, 136, 119, 102, 85, 68, 51, 34, 17, 0,
];

#[test]
fn numbers_are_read(rt: HostRuntime) {
    let cases = [
        ("0-000102030405060708090a0b0c0d0e0f", Some(0)),
        ("1-000102030405060708090a0b0c0d0e0f", Some(1)),
        ("907-000102030405060708090a0b0c0d0e0f", Some(907)),
        (
            "18446744073709551615-000102030405060708090a0b0c0d0e0f",
            Some(18446744073709551615),
        ),
        (
            "18446744073709551616-000102030405060708090a0b0c0d0e0f",
            None,
        ),
        (
            "99999999999999999999-000102030405060708090a0b0c0d0e0f",
            None,
        ),
        (
            "100000000000000000000-000102030405060708090a0b0c0d0e0f",
            None,
        ),
        ("01-000102030405060708090a0b0c0d0e0f", None),
        ("00-000102030405060708090a0b0c0d0e0f", None),
        ("+1-000102030405060708090a0b0c0d0e0f", None),
        (" 1-000102030405060708090a0b0c0d0e0f", None),
        ("1a-000102030405060708090a0b0c0d0e0f", None),
        ("-000102030405060708090a0b0c0d0e0f", None),
    ];
    for (text, session) in cases {
        let want = session.map(|session| ResumeId {
            session,
            digits: DIGITS,
        });
        assert_eq!(rt; ResumeId::read(text.as_bytes()), want, "{text}");
    }
}

#[test]
fn digits_are_read(rt: HostRuntime) {
    let cases = [
        ("1-ffeeddccbbaa99887766554433221100", Some(FALLING)),
        ("1-000102030405060708090a0b0c0d0e0f", Some(DIGITS)),
        ("1-000102030405060708090A0b0c0d0e0f", None),
        ("1-000102030405060708090a0b0c0d0e0F", None),
        ("1-000102030405060708090a0b0c0d0e0g", None),
        ("1-000102030405060708090a0b0c0d0e0", None),
        ("1-000102030405060708090a0b0c0d0e0f0", None),
        ("1-", None),
        ("", None),
        ("1000102030405060708090a0b0c0d0e0f", None),
        ("1 000102030405060708090a0b0c0d0e0f", None),
        ("1--000102030405060708090a0b0c0d0e0f", None),
        ("1-0001020304050607-8090a0b0c0d0e0f", None),
        ("1-000102030405060708090a0b0c0d0e0f-", None),
    ];
    for (text, digits) in cases {
        let want = digits.map(|digits| ResumeId { session: 1, digits });
        assert_eq!(rt; ResumeId::read(text.as_bytes()), want, "{text}");
    }
}

#[test]
fn ids_are_written(rt: HostRuntime) -> Result<(), AllocError> {
    let cases = [
        (0, DIGITS, "id=0-000102030405060708090a0b0c0d0e0f"),
        (10, FALLING, "id=10-ffeeddccbbaa99887766554433221100"),
        (
            18446744073709551615,
            DIGITS,
            "id=18446744073709551615-000102030405060708090a0b0c0d0e0f",
        ),
    ];
    for (session, digits, want) in cases {
        let mut out = Vec::from_slice(rt.alloc(), b"id=")?;
        ResumeId { session, digits }.write(&mut out)?;
        assert!(rt; out.as_slice() == want.as_bytes(), "{want}");
    }
    Ok(())
}

// The answer to a client of the session with the digits `DIGITS` of whose entries those after the
// count 4294967294 were kept, up to the count 2.
fn answer(digits: [u8; 16], yours: bool, ended: bool, h: u32) -> Decision {
    let id = ResumeId {
        session: 1,
        digits: DIGITS,
    };
    let kept = Count(4294967294);
    decide(
        &id,
        Some(&Facts {
            digits,
            yours,
            ended,
            kept,
            sent: Count(2),
        }),
        Count(h),
    )
}

#[test]
fn the_first_reason_decides(rt: HostRuntime) {
    let too_high = Decision::TooHigh {
        h: 3,
        kept: 4294967294,
        sent: 2,
    };
    let cases = [
        (DIGITS, true, false, 1, Decision::Take(3)),
        (DIGITS, true, false, 3, too_high),
        (DIGITS, true, true, 1, Decision::Ended),
        (DIGITS, true, true, 3, Decision::Ended),
        (DIGITS, false, false, 1, Decision::NotYours),
        (DIGITS, false, false, 3, Decision::NotYours),
        (DIGITS, false, true, 1, Decision::NotYours),
        (DIGITS, false, true, 3, Decision::NotYours),
        (FALLING, true, false, 1, Decision::Unknown),
        (FALLING, true, false, 3, Decision::Unknown),
        (FALLING, true, true, 1, Decision::Unknown),
        (FALLING, false, false, 1, Decision::Unknown),
        (FALLING, false, true, 3, Decision::Unknown),
    ];
    for (i, (digits, yours, ended, h, want)) in cases.iter().enumerate() {
        assert_eq!(rt; answer(*digits, *yours, *ended, *h), *want, "case {i}");
    }
    let id = ResumeId {
        session: 1,
        digits: DIGITS,
    };
    assert_eq!(rt; decide(&id, None, Count(0)), Decision::Unknown);
}

#[test]
fn counts_are_taken_across_the_wrap(rt: HostRuntime) {
    let cases = [(4294967294, 0), (4294967295, 1), (0, 2), (1, 3), (2, 4)];
    for (h, entries) in cases {
        assert_eq!(rt;
            answer(DIGITS, true, false, h),
            Decision::Take(entries),
            "{h}"
        );
    }
    for h in [3, 2147483648, 4294967293] {
        let want = Decision::TooHigh {
            h,
            kept: 4294967294,
            sent: 2,
        };
        assert_eq!(rt; answer(DIGITS, true, false, h), want, "{h}");
    }
}

// The last byte alone tells these digits from the session's.
#[test]
fn every_digit_counts(rt: HostRuntime) {
    let mut digits = DIGITS;
    digits[15] = 14;
    assert_eq!(rt; answer(digits, true, false, 1), Decision::Unknown);
}
