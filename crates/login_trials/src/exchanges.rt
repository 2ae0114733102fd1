//! Exchanges by hand. The vectors are those of RFC 5802, section 5, and RFC 7677, section 3; where a comment says so,
//! values of python3's `hashlib` and `hmac`.

use base64::engine::general_purpose::STANDARD;
use hmac_kdf::{hi_sha1, hi_sha256, hmac_sha1, hmac_sha256};
use scram_core::*;
use sha1::Sha1;
use sha2::{Digest, Sha256};
use std::alloc::Global;
use std::test::Fail;

pub(crate) const FIRST_1: &[u8] = b"n,,n=user,r=fyko+d2lbbFgONRv9qkxdawL";

const FIRST_256: &[u8] = b"n,,n=user,r=rOprNGfwEbeRWgbNEkqO";

const OWN_1: &[u8] = b"3rfcNHYJY1ZVvWVs7j";

const OWN_256: &[u8] = b"%hvYDpWUa2RaTCAfuxFIlj)hNlF$k0";

const LAST_1: &[u8] =
    b"c=biws,r=fyko+d2lbbFgONRv9qkxdawL3rfcNHYJY1ZVvWVs7j,p=v0X8v3Bz2T0CJGbJQyF0X+HI4Ts=";

const LAST_256: &[u8] =
    b"c=biws,r=rOprNGfwEbeRWgbNEkqO%hvYDpWUa2RaTCAfuxFIlj)hNlF$k0,p=dHzbZapWIk4jUhN+Ute9ytag9zjfMHgsqmmiz7AndVQ=";

const SUCCESS_1: &[u8] = b"v=rmF9pqV8S7suAoZWja4dJRkFsKQ=";

const SUCCESS_256: &[u8] = b"v=6rriTRBi23WpRR/wtup+mMhUZUn/dB5nLTJRsjl95G4=";

// The keys of the password `pencil` with 4096 rounds.
fn keys_of(alloc: Global, salt_text: &[u8]) -> Result<Keys, Fail> {
    let salt = STANDARD.decode(alloc, salt_text)?;
    let salted1 = hi_sha1(b"pencil", salt.as_slice(), 4096);
    let salted256 = hi_sha256(b"pencil", salt.as_slice(), 4096);
    Ok(Keys {
        rounds: 4096,
        stored1: Sha1::digest(&hmac_sha1(&salted1, b"Client Key")),
        server1: hmac_sha1(&salted1, b"Server Key"),
        stored256: Sha256::digest(&hmac_sha256(&salted256, b"Client Key")),
        server256: hmac_sha256(&salted256, b"Server Key"),
        salt,
    })
}

fn challenged(
    alloc: Global,
    mechanism: Mechanism,
    first: &[u8],
    found: Found,
) -> Result<(Scram, Challenge), ScramFault> {
    let hello = Hello::read(alloc, first, b"example.org")?;
    let made = match mechanism {
        Mechanism::Sha1 => hello.challenge(alloc, mechanism, OWN_1, found)?,
        Mechanism::Sha256 => hello.challenge(alloc, mechanism, OWN_256, found)?,
    };
    Ok(made)
}

pub(crate) fn answer_of(
    alloc: Global,
    mechanism: Mechanism,
    texts: &[&[u8]; 2],
    found: Found,
) -> Result<Vec<u8>, ScramFault> {
    let (scram, _) = challenged(alloc, mechanism, texts[0], found)?;
    let success = scram.last(alloc, texts[1])?;
    Ok(success.bytes().to_vec(alloc)?)
}

pub(crate) fn is_answer(
    answer: &Result<Vec<u8>, ScramFault>,
    want: &Result<&[u8], ScramFault>,
) -> bool {
    match (answer, want) {
        (Ok(text), Ok(want)) => text.as_slice() == *want,
        (Err(fault), Err(want)) => *fault == *want,
        _ => false,
    }
}

#[test]
fn challenges_are_those_of_the_rfcs(rt: HostRuntime) -> Result<(), Fail> {
    let alloc = rt.alloc();
    let keys = keys_of(alloc, b"QSXCR+Q6sek8bf92")?;
    let (_, challenge) = challenged(alloc, Mechanism::Sha1, FIRST_1, Found::Known(&keys))?;
    let text: &[u8] = b"r=fyko+d2lbbFgONRv9qkxdawL3rfcNHYJY1ZVvWVs7j,s=QSXCR+Q6sek8bf92,i=4096";
    assert_eq!(rt; challenge.bytes(), text);
    let (_, challenge) = challenged(alloc, Mechanism::Sha256, FIRST_256, Found::Unknown([7; 16]))?;
    let text: &[u8] =
        b"r=rOprNGfwEbeRWgbNEkqO%hvYDpWUa2RaTCAfuxFIlj)hNlF$k0,s=BwcHBwcHBwcHBwcHBwcHBw==,i=4096";
    assert_eq!(rt; challenge.bytes(), text);
    Ok(())
}

// The first text of RFC 5802, and what the last is answered.
type LastCase = (&'static [u8], Result<&'static [u8], ScramFault>);

#[test]
fn last_texts_over_sha1(rt: HostRuntime) -> Result<(), Fail> {
    let keys = keys_of(rt.alloc(), b"QSXCR+Q6sek8bf92")?;
    let cases: [LastCase; 8] = [
        (LAST_1, Ok(SUCCESS_1)),
        // One bit of the proof, of the nonce and of the binding.
        (
            b"c=biws,r=fyko+d2lbbFgONRv9qkxdawL3rfcNHYJY1ZVvWVs7j,p=v1X8v3Bz2T0CJGbJQyF0X+HI4Ts=",
            Err(ScramFault::ProofDiffers),
        ),
        (
            b"c=biws,r=fyko+d2lbbFgONRv9qkxdawL3rfcNHYJY1ZVvWVs7k,p=v0X8v3Bz2T0CJGbJQyF0X+HI4Ts=",
            Err(ScramFault::NonceDiffers),
        ),
        (
            b"c=biwt,r=fyko+d2lbbFgONRv9qkxdawL3rfcNHYJY1ZVvWVs7j,p=v0X8v3Bz2T0CJGbJQyF0X+HI4Ts=",
            Err(ScramFault::BindingDiffers),
        ),
        // Two at once: the earlier cause is told.
        (b"c=biwt,r=fyko,p=", Err(ScramFault::BindingDiffers)),
        (b"c=biws,r=fyko,p=", Err(ScramFault::NonceDiffers)),
        (b"c=,r=fyko,p=", Err(ScramFault::BindingDiffers)),
        (b"c=biwt,r=fyko,p=A", Err(ScramFault::Malformed(17))),
    ];
    for (i, (last, want)) in cases.iter().enumerate() {
        let answer = answer_of(
            rt.alloc(),
            Mechanism::Sha1,
            &[FIRST_1, *last],
            Found::Known(&keys),
        );
        assert!(rt; is_answer(&answer, want), "case {i}");
    }
    Ok(())
}

#[test]
fn last_texts_of_other_forms(rt: HostRuntime) -> Result<(), Fail> {
    let keys = keys_of(rt.alloc(), b"QSXCR+Q6sek8bf92")?;
    let cases: [LastCase; 6] = [
        // A proof of 19 bytes, of 21, and of none.
        (
            b"c=biws,r=fyko+d2lbbFgONRv9qkxdawL3rfcNHYJY1ZVvWVs7j,p=v0X8v3Bz2T0CJGbJQyF0X+HI4Q==",
            Err(ScramFault::ProofDiffers),
        ),
        (
            b"c=biws,r=fyko+d2lbbFgONRv9qkxdawL3rfcNHYJY1ZVvWVs7j,p=v0X8v3Bz2T0CJGbJQyF0X+HI4TsA",
            Err(ScramFault::ProofDiffers),
        ),
        (
            b"c=biws,r=fyko+d2lbbFgONRv9qkxdawL3rfcNHYJY1ZVvWVs7j,p=",
            Err(ScramFault::ProofDiffers),
        ),
        // A further attribute is part of what is proved.
        (
            b"c=biws,r=fyko+d2lbbFgONRv9qkxdawL3rfcNHYJY1ZVvWVs7j,x=1,p=v0X8v3Bz2T0CJGbJQyF0X+HI4Ts=",
            Err(ScramFault::ProofDiffers),
        ),
        // `m=`, and an attribute after the proof.
        (
            b"c=biws,r=fyko+d2lbbFgONRv9qkxdawL3rfcNHYJY1ZVvWVs7j,m=1,p=v0X8v3Bz2T0CJGbJQyF0X+HI4Ts=",
            Err(ScramFault::Malformed(52)),
        ),
        (
            b"c=biws,r=fyko+d2lbbFgONRv9qkxdawL3rfcNHYJY1ZVvWVs7j,p=v0X8v3Bz2T0CJGbJQyF0X+HI4Ts=,x=1",
            Err(ScramFault::Malformed(82)),
        ),
    ];
    for (i, (last, want)) in cases.iter().enumerate() {
        let answer = answer_of(
            rt.alloc(),
            Mechanism::Sha1,
            &[FIRST_1, *last],
            Found::Known(&keys),
        );
        assert!(rt; is_answer(&answer, want), "case {i}");
    }
    Ok(())
}

#[test]
fn last_texts_over_sha256(rt: HostRuntime) -> Result<(), Fail> {
    let keys = keys_of(rt.alloc(), b"W22ZaJ0SNY7soEsUEjb6gQ==")?;
    let cases: [LastCase; 6] = [
        (LAST_256, Ok(SUCCESS_256)),
        (
            b"c=biws,r=rOprNGfwEbeRWgbNEkqO%hvYDpWUa2RaTCAfuxFIlj)hNlF$k1,p=dHzbZapWIk4jUhN+Ute9ytag9zjfMHgsqmmiz7AndVQ=",
            Err(ScramFault::NonceDiffers),
        ),
        (
            b"c=biwt,r=rOprNGfwEbeRWgbNEkqO%hvYDpWUa2RaTCAfuxFIlj)hNlF$k0,p=dHzbZapWIk4jUhN+Ute9ytag9zjfMHgsqmmiz7AndVQ=",
            Err(ScramFault::BindingDiffers),
        ),
        (
            b"c=biws,r=rOprNGfwEbeRWgbNEkqO%hvYDpWUa2RaTCAfuxFIlj)hNlF$k0,p=dHzbZapWIk4jUhN+Ute9ytag9zjfMHgsqmmiz7AndVR=",
            Err(ScramFault::Malformed(105)),
        ),
        (
            b"c=biws,r=rOprNGfwEbeRWgbNEkqO%hvYDpWUa2RaTCAfuxFIlj)hNlF$k0,p=dHzbZapWIk4jUhN+Ute9ytag9zjfMHgsqmmiz7AndUQ=",
            Err(ScramFault::ProofDiffers),
        ),
        (
            b"c=biws,r=rOprNGfwEbeRWgbNEkqO%hvYDpWUa2RaTCAfuxFIlj)hNlF$k0,p=v0X8v3Bz2T0CJGbJQyF0X+HI4Ts=",
            Err(ScramFault::ProofDiffers),
        ),
    ];
    for (i, (last, want)) in cases.iter().enumerate() {
        let answer = answer_of(
            rt.alloc(),
            Mechanism::Sha256,
            &[FIRST_256, *last],
            Found::Known(&keys),
        );
        assert!(rt; is_answer(&answer, want), "case {i}");
    }
    Ok(())
}

// An unknown name is answered as a known one whose proof differs, and never by success.
#[test]
fn an_unknown_name_has_no_proof(rt: HostRuntime) {
    let cases: [LastCase; 4] = [
        (LAST_256, Err(ScramFault::ProofDiffers)),
        (
            b"c=biws,r=rOprNGfwEbeRWgbNEkqO%hvYDpWUa2RaTCAfuxFIlj)hNlF$k0,p=AAAAAAAAAAAAAAAAAAAAAAAAAAAAAAAAAAAAAAAAAAA=",
            Err(ScramFault::ProofDiffers),
        ),
        (
            b"c=biws,r=rOprNGfwEbeRWgbNEkqO,p=",
            Err(ScramFault::NonceDiffers),
        ),
        (
            b"c=eSws,r=rOprNGfwEbeRWgbNEkqO,p=",
            Err(ScramFault::BindingDiffers),
        ),
    ];
    for (i, (last, want)) in cases.iter().enumerate() {
        let answer = answer_of(
            rt.alloc(),
            Mechanism::Sha256,
            &[FIRST_256, *last],
            Found::Unknown([7; 16]),
        );
        assert!(rt; is_answer(&answer, want), "case {i}");
    }
}

// By python3: a `y` opening, an authzid, escapes in the name, and further attributes in both texts.
#[test]
fn further_attributes_are_proved(rt: HostRuntime) -> Result<(), Fail> {
    let keys = keys_of(rt.alloc(), b"QSXCR+Q6sek8bf92")?;
    let cases: [LastCase; 3] = [
        (
            b"c=eSxhPWE9MkNiPTNEY0BleGFtcGxlLm9yZyw=,r=fyko+d2lbbFgONRv9qkxdawL3rfcNHYJY1ZVvWVs7j,k=\xe2\x82\xac,B==,p=J9doJHViIwfwXHEI9MYN0tGHzWE=",
            Ok(b"v=3Ha5yXFBRViZDy0EmDylDqa8xFk="),
        ),
        (
            b"c=eSxhPWE9MkNiPTNEY0BleGFtcGxlLm9yZyw=,r=fyko+d2lbbFgONRv9qkxdawL3rfcNHYJY1ZVvWVs7j,k=\xe2\x82\xad,B==,p=J9doJHViIwfwXHEI9MYN0tGHzWE=",
            Err(ScramFault::ProofDiffers),
        ),
        (
            b"c=eSws,r=fyko+d2lbbFgONRv9qkxdawL3rfcNHYJY1ZVvWVs7j,k=\xe2\x82\xac,B==,p=J9doJHViIwfwXHEI9MYN0tGHzWE=",
            Err(ScramFault::BindingDiffers),
        ),
    ];
    let first: &[u8] =
        b"y,a=a=2Cb=3Dc@example.org,n=a=2Cb=3Dc,r=fyko+d2lbbFgONRv9qkxdawL,x=\xc3\xa9=1,Q=z";
    for (i, (last, want)) in cases.iter().enumerate() {
        let answer = answer_of(
            rt.alloc(),
            Mechanism::Sha1,
            &[first, *last],
            Found::Known(&keys),
        );
        assert!(rt; is_answer(&answer, want), "case {i}");
    }
    Ok(())
}

pub(crate) fn name_of(alloc: Global, first: &[u8]) -> Result<Vec<u8>, ScramFault> {
    let hello = Hello::read(alloc, first, b"example.org")?;
    Ok(hello.name().to_vec(alloc)?)
}

#[test]
fn names_are_read(rt: HostRuntime) {
    let cases: [LastCase; 12] = [
        (b"n,,n=user,r=a", Ok(b"user")),
        (b"y,,n=u,r=a", Ok(b"u")),
        (b"n,,n=a=2Cb=3Dc,r=a", Ok(b"a,b=c")),
        (b"n,,n==3D=2C,r=a", Ok(b"=,")),
        (b"n,,n=3D=3D3D2C,r=a", Ok(b"3D=3D2C")),
        (
            b"n,,n=\xf0\x9f\x98\x80\xed\x9f\xbf\x7f\x01,r=a",
            Ok(b"\xf0\x9f\x98\x80\xed\x9f\xbf\x7f\x01"),
        ),
        (b"n,,n=u,r=a,x=1,Y==\xc3\xa9", Ok(b"u")),
        (b"n,a=u@example.org,n=u,r=a", Ok(b"u")),
        (b"n,a=a=2Cb@example.org,n=a=2Cb,r=a", Ok(b"a,b")),
        (b"n,a=v@example.org,n=u,r=a", Err(ScramFault::BadAuthzid)),
        (b"n,a=u@example.com,n=u,r=a", Err(ScramFault::BadAuthzid)),
        (b"n,a=u@@example.org,n=u,r=a", Err(ScramFault::BadAuthzid)),
    ];
    for (i, (first, want)) in cases.iter().enumerate() {
        let name = name_of(rt.alloc(), first);
        assert!(rt; is_answer(&name, want), "case {i}");
    }
}
