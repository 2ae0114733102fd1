//! Lists by hand. The lines are those of the password `pencil` of RFC 5802, section 5, and RFC 7677, section 3; their keys, and the
//! decoy, are values of python3's `hashlib` and `hmac`.

use account_book::*;
use hash_keys::HashKey;
use jid_core::Part;
use scram_core::{Found, Hello, Mechanism};
use std::alloc::Global;
use std::process::Abort;
use std::test::Fail;

const SECRET: [u8; 32] = [
    0, 1, 2, 3, 4, 5, 6, 7, 8, 9, 10, 11, 12, 13, 14, 15, 16, 17, 18, 19, 20, 21, 22, 23, 24, 25,
    26, 27, 28, 29, 30, 31,
];

const LINE_1: &[u8] =
    b"user 4096 QSXCR+Q6sek8bf92 6dlGYMOdZcOPutkcNY8U2g7vK9Y= D+CSWLOshSulAsxiupA+qs2/fTE= FO+9jBb3MUukt6jJnzjPZOWc5ow/Pu6JtPyju0aqaE8= qxJ1SbmSAi5EcS0J5Ck/cKAm/+Ixa+Kwp63f4OHDgzo=\n";

const LINE_256: &[u8] =
    b"user 4096 W22ZaJ0SNY7soEsUEjb6gQ== g2pEzX2tMaoibxTD4YfBJkq1y8w= ZGkNjsmKwVX5C5z80vGxHZ02jOI= WG5d8oPm3OtcPnkdi4Uo7BkeZkBFzpcXkuLmtbsT4qY= wfPLwcE6nTWhTAmQ7tl2KeoiWGPlZqQxSrmfPwDl2dU=\n";

const SALT_1: &[u8] = b"\x41\x25\xc2\x47\xe4\x3a\xb1\xe9\x3c\x6d\xff\x76";

const SALT_256: &[u8] = b"\x5b\x6d\x99\x68\x9d\x12\x35\x8e\xec\xa0\x4b\x14\x12\x36\xfa\x81";

#[test]
fn lines_are_made_of_a_password(rt: HostRuntime) -> Result<(), Fail> {
    let name = Part::local(rt.alloc(), b"user")?;
    for (salt, want) in [(SALT_1, LINE_1), (SALT_256, LINE_256)] {
        let line = make_line(rt.alloc(), &name, b"pencil", salt)?;
        assert!(rt; line.as_slice() == want);
    }
    Ok(())
}

const NONCE_1: &[u8] = b"3rfcNHYJY1ZVvWVs7j";

const NONCE_256: &[u8] = b"%hvYDpWUa2RaTCAfuxFIlj)hNlF$k0";

// A list, and an exchange with its `user`: the mechanism, the client's first text, its last, and what that is answered.
type Login = (
    &'static [u8],
    Mechanism,
    &'static [u8],
    &'static [u8],
    &'static [u8],
);

const LOGINS: [Login; 2] = [
    (
        LINE_1,
        Mechanism::Sha1,
        b"n,,n=user,r=fyko+d2lbbFgONRv9qkxdawL",
        b"c=biws,r=fyko+d2lbbFgONRv9qkxdawL3rfcNHYJY1ZVvWVs7j,p=v0X8v3Bz2T0CJGbJQyF0X+HI4Ts=",
        b"v=rmF9pqV8S7suAoZWja4dJRkFsKQ=",
    ),
    (
        LINE_256,
        Mechanism::Sha256,
        b"n,,n=user,r=rOprNGfwEbeRWgbNEkqO",
        b"c=biws,r=rOprNGfwEbeRWgbNEkqO%hvYDpWUa2RaTCAfuxFIlj)hNlF$k0,p=dHzbZapWIk4jUhN+Ute9ytag9zjfMHgsqmmiz7AndVQ=",
        b"v=6rriTRBi23WpRR/wtup+mMhUZUn/dB5nLTJRsjl95G4=",
    ),
];

fn expect_login<R: Abort>(rt: &R, alloc: Global, login: &Login) -> Result<(), Fail> {
    let (list, mechanism, first, last, want) = login;
    let accounts = Accounts::read(alloc, list, SECRET, HashKey::fixed())?;
    let hello = Hello::read(alloc, first, b"example.org")?;
    let Some(account) = accounts.find(hello.name()) else {
        panic!(rt; "no account");
    };
    let found = Found::Known(&account.keys);
    let (scram, _) = match mechanism {
        Mechanism::Sha1 => hello.challenge(alloc, *mechanism, NONCE_1, found)?,
        Mechanism::Sha256 => hello.challenge(alloc, *mechanism, NONCE_256, found)?,
    };
    let success = scram.last(alloc, last)?;
    assert!(rt; success.bytes() == *want);
    Ok(())
}

#[test]
fn the_accounts_of_lines_log_in(rt: HostRuntime) -> Result<(), Fail> {
    for login in LOGINS.iter() {
        expect_login(&rt, rt.alloc(), login)?;
    }
    Ok(())
}

// The fields of a line with all bytes of the salt and the keys zero.
const FIELDS: [&[u8]; 7] = [
    b"carol",
    b"4096",
    b"AAAAAAAAAAA=",
    b"AAAAAAAAAAAAAAAAAAAAAAAAAAA=",
    b"AAAAAAAAAAAAAAAAAAAAAAAAAAA=",
    b"AAAAAAAAAAAAAAAAAAAAAAAAAAAAAAAAAAAAAAAAAAA=",
    b"AAAAAAAAAAAAAAAAAAAAAAAAAAAAAAAAAAAAAAAAAAA=",
];

// Appends the line of these fields with another text in one place.
fn push_line(line: &mut Vec<u8>, place: usize, text: &[u8]) -> Result<(), Fail> {
    for (i, field) in FIELDS.iter().enumerate() {
        if i > 0 {
            line.push(b' ')?;
        }
        line.extend_from_slice(if i == place { text } else { *field })?;
    }
    line.push(b'\n')?;
    Ok(())
}

// The number and the kind of the line at fault.
type Fault = Option<(u64, LineKind)>;

fn fault_of(alloc: Global, list: &[u8]) -> Result<Fault, Fail> {
    match Accounts::read(alloc, list, SECRET, HashKey::fixed()) {
        Ok(_) => Ok(None),
        Err(BookFault::Line { line, kind }) => Ok(Some((line, kind))),
        Err(BookFault::NoMemory) => Err(NoMemory.into()),
    }
}

// A text in the place of a field, and the kind of the line's fault.
type FieldCase = (usize, &'static [u8], Option<LineKind>);

const FIELD_CASES: [FieldCase; 38] = [
    (0, b"a.b-c", None),
    (0, b"Carol", Some(LineKind::Name)),
    (0, b"", Some(LineKind::Name)),
    (0, b"carol@example.org", Some(LineKind::Name)),
    (0, b"car\tol", Some(LineKind::Name)),
    (0, b" carol", Some(LineKind::Fields)),
    (0, b"carol 4096", Some(LineKind::Fields)),
    (0, b"4096\ncarol", Some(LineKind::Fields)),
    (1, b"1000000", None),
    (1, b"4095", Some(LineKind::Rounds)),
    (1, b"1000001", Some(LineKind::Rounds)),
    (1, b"04096", Some(LineKind::Rounds)),
    (1, b"+4096", Some(LineKind::Rounds)),
    (1, b"4096.", Some(LineKind::Rounds)),
    (1, b"18446744073709555712", Some(LineKind::Rounds)),
    (1, b"", Some(LineKind::Rounds)),
    (
        2,
        b"AAAAAAAAAAAAAAAAAAAAAAAAAAAAAAAAAAAAAAAAAAAAAAAAAAAAAAAAAAAAAAAAAAAAAAAAAAAAAAAAAAAAAA==",
        None,
    ),
    (
        2,
        b"AAAAAAAAAAAAAAAAAAAAAAAAAAAAAAAAAAAAAAAAAAAAAAAAAAAAAAAAAAAAAAAAAAAAAAAAAAAAAAAAAAAAAAA=",
        Some(LineKind::Salt),
    ),
    (2, b"AAAAAAAAAA==", Some(LineKind::Salt)),
    (2, b"AAAAAAAAAAA", Some(LineKind::Salt)),
    (2, b"AAAAAAAAAAB=", Some(LineKind::Salt)),
    (2, b"AAAAAAAAAA-_", Some(LineKind::Salt)),
    (2, b"", Some(LineKind::Salt)),
    (3, b"AAAAAAAAAAAAAAAAAAAAAAAAAA==", Some(LineKind::Key)),
    (3, b"AAAAAAAAAAAAAAAAAAAAAAAAAAAA", Some(LineKind::Key)),
    (3, b"AAAAAAAAAAAAAAAAAAAAAAAAAAB=", Some(LineKind::Key)),
    (3, b"", Some(LineKind::Key)),
    (4, b"AAAAAAAAAAAAAAAAAAAAAAAAAA==", Some(LineKind::Key)),
    (4, b"AAAAAAAAAAAAAAAAAAAAAAAAAAAA", Some(LineKind::Key)),
    (4, b"", Some(LineKind::Key)),
    (5, b"AAAAAAAAAAAAAAAAAAAAAAAAAAA=", Some(LineKind::Key)),
    (
        5,
        b"AAAAAAAAAAAAAAAAAAAAAAAAAAAAAAAAAAAAAAAAAAAA",
        Some(LineKind::Key),
    ),
    (5, b"", Some(LineKind::Key)),
    (
        6,
        b"AAAAAAAAAAAAAAAAAAAAAAAAAAAAAAAAAAAAAAAAAAAA",
        Some(LineKind::Key),
    ),
    (
        6,
        b"AAAAAAAAAAAAAAAAAAAAAAAAAAAAAAAAAAAAAAAAAAA=\r",
        Some(LineKind::Key),
    ),
    (6, b"", Some(LineKind::Key)),
    (
        6,
        b"AAAAAAAAAAAAAAAAAAAAAAAAAAAAAAAAAAAAAAAAAAA= ",
        Some(LineKind::Fields),
    ),
    // The fault of the line before it comes first.
    (6, b"A\ncarol", Some(LineKind::Key)),
];

// The line stands after others.
fn expect_fault<R: Abort>(
    rt: &R,
    alloc: Global,
    ahead: &[u8],
    number: u64,
    case: &FieldCase,
) -> Result<(), Fail> {
    let (place, text, kind) = case;
    let mut list = Vec::from_slice(alloc, ahead)?;
    push_line(&mut list, *place, text)?;
    let want = match kind {
        Some(kind) => Some((number, *kind)),
        None => None,
    };
    assert!(rt; fault_of(alloc, list.as_slice())? == want);
    Ok(())
}

#[test]
fn faults_of_fields_are_told(rt: HostRuntime) -> Result<(), Fail> {
    for case in FIELD_CASES.iter() {
        expect_fault(&rt, rt.alloc(), b"", 1, case)?;
        expect_fault(&rt, rt.alloc(), LINE_1, 2, case)?;
    }
    Ok(())
}

// A list, and its fault.
type ListCase = (&'static [u8], Fault);

const LIST_CASES: [ListCase; 8] = [
    (b"", None),
    (b"\n", Some((1, LineKind::Fields))),
    (b"alice 4096\n", Some((1, LineKind::Fields))),
    (b"alice 4096", Some((1, LineKind::Fields))),
    (b"Alice 4095 A A A A A\n", Some((1, LineKind::Name))),
    (b"alice 4095 A A A A A\n", Some((1, LineKind::Rounds))),
    (b"alice 4096 A A A A A\n", Some((1, LineKind::Salt))),
    // A line that has no LF.
    (
        b"alice 4096 AAAAAAAAAAA= AAAAAAAAAAAAAAAAAAAAAAAAAAA= AAAAAAAAAAAAAAAAAAAAAAAAAAA= AAAAAAAAAAAAAAAAAAAAAAAAAAAAAAAAAAAAAAAAAAA= AAAAAAAAAAAAAAAAAAAAAAAAAAAAAAAAAAAAAAAAAAA=",
        Some((1, LineKind::Fields)),
    ),
];

#[test]
fn faults_of_lists_are_told(rt: HostRuntime) -> Result<(), Fail> {
    for (i, (list, want)) in LIST_CASES.iter().enumerate() {
        assert!(rt; fault_of(rt.alloc(), list)? == *want, "case {i}");
    }
    Ok(())
}

// The list of these names.
fn list_of(alloc: Global, names: &[&[u8]]) -> Result<Vec<u8>, Fail> {
    let mut list = Vec::new(alloc);
    for name in names.iter() {
        push_line(&mut list, 0, name)?;
    }
    Ok(list)
}

const NAME_CASES: [([&[u8]; 4], Fault); 5] = [
    ([b"a", b"b", b"ab", b"ba"], None),
    ([b"a", b"a", b"b", b"b"], Some((2, LineKind::Twice))),
    ([b"a", b"b", b"c", b"a"], Some((4, LineKind::Twice))),
    ([b"a", b"b", b"b", b"A"], Some((3, LineKind::Twice))),
    ([b"a", b"B", b"a", b"a"], Some((2, LineKind::Name))),
];

#[test]
fn names_stand_once(rt: HostRuntime) -> Result<(), Fail> {
    for (i, (names, want)) in NAME_CASES.iter().enumerate() {
        let list = list_of(rt.alloc(), names)?;
        assert!(rt; fault_of(rt.alloc(), list.as_slice())? == *want, "case {i}");
    }
    Ok(())
}

fn push_number(list: &mut Vec<u8>, number: usize) -> Result<(), Fail> {
    let name = format!(in *list.allocator(); "u{}", number)?;
    push_line(list, 0, name.as_bytes())
}

// The list of 4,096 names.
fn full_list(alloc: Global) -> Result<Vec<u8>, Fail> {
    let mut list = Vec::new(alloc);
    for number in 0..4096 {
        push_number(&mut list, number)?;
    }
    Ok(list)
}

// What stands after 4,096 lines, and the fault.
const LAST_CASES: [ListCase; 4] = [
    (b"", None),
    (LINE_1, Some((4097, LineKind::TooMany))),
    (b"u7\n", Some((4097, LineKind::Fields))),
    (b"u7", Some((4097, LineKind::Fields))),
];

#[test]
fn a_list_has_at_most_4096_lines(rt: HostRuntime) -> Result<(), Fail> {
    let full = full_list(rt.alloc())?;
    for (i, (more, want)) in LAST_CASES.iter().enumerate() {
        let mut list = Vec::from_slice(rt.alloc(), full.as_slice())?;
        list.extend_from_slice(more)?;
        assert!(rt; fault_of(rt.alloc(), list.as_slice())? == *want, "case {i}");
    }
    Ok(())
}

// Of two faults of a line past the most, the earlier kind is told.
#[test]
fn a_name_twice_comes_before_too_many(rt: HostRuntime) -> Result<(), Fail> {
    let mut list = full_list(rt.alloc())?;
    push_number(&mut list, 4095)?;
    let fault = fault_of(rt.alloc(), list.as_slice())?;
    assert!(rt; fault == Some((4097, LineKind::Twice)));
    Ok(())
}

const SOUGHT: [(&[u8], bool); 6] = [
    (b"u0", true),
    (b"u4095", true),
    (b"u4096", false),
    (b"U0", false),
    (b"", false),
    (b"u00", false),
];

#[test]
fn accounts_are_found_by_name(rt: HostRuntime) -> Result<(), Fail> {
    let list = full_list(rt.alloc())?;
    let accounts = Accounts::read(rt.alloc(), list.as_slice(), SECRET, HashKey::fixed())?;
    assert_eq!(rt; accounts.names().len(), 4096);
    for (i, (name, known)) in SOUGHT.iter().enumerate() {
        let found = match accounts.find(name) {
            Some(account) => account.name.bytes() == *name,
            None => false,
        };
        assert_eq!(rt; found, *known, "case {i}");
    }
    Ok(())
}

#[test]
fn decoys_are_of_the_secret(rt: HostRuntime) -> Result<(), Fail> {
    let accounts = Accounts::read(rt.alloc(), b"", SECRET, HashKey::fixed())?;
    assert!(rt; accounts.names().is_empty());
    let salt: &[u8] = b"\x81\x06\x41\xe3\xc3\x1c\x71\xc9\x75\x87\xb0\x5f\xb9\xdb\x25\xb7";
    assert!(rt; accounts.decoy(b"carol").as_slice() == salt);
    Ok(())
}
