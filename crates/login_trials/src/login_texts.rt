//! Login texts outside the grammar of RFC 5802, section 7, and the limits of nonces: where each is told to be malformed.

use crate::exchanges::{FIRST_1, answer_of, is_answer, name_of};
use scram_core::*;
use std::alloc::Global;
use std::test::Fail;

// A first text, and the length of its longest front that begins one.
type PlaceCase = (&'static [u8], usize);

#[test]
fn first_texts_outside_the_grammar(rt: HostRuntime) {
    let cases: [PlaceCase; 28] = [
        (b"", 0),
        (b"n,,x=1,n=u,r=a", 3),
        (b"p=tls-unique,,n=u,r=a", 0),
        (b"N,,n=u,r=a", 0),
        (b"n,m=1,n=u,r=a", 2),
        (b"n,,m=1,n=u,r=a", 3),
        (b"n,,n=u,m=1,r=a", 7),
        (b"n,,n=u,r=a,m=1", 11),
        (b"n,,n=u,r=a,p=1", 11),
        (b"n,,n=u,r=a,xx=1", 12),
        (b"n,,n=u,r=a,x=,y=1", 13),
        (b"n,,n=u,r=a,x=\x00", 13),
        (b"n,,n=u,r=a,", 11),
        (b"n,a=foo,n=foo,r=a", 7),
        (b"n,a=@x,n=x,r=a", 6),
        (b"n,a=x@,n=x,r=a", 6),
        (b"n,a=,n=x,r=a", 4),
        (b"n,,n=,r=a", 5),
        (b"n,,n=a=2D,r=a", 8),
        (b"n,,n=a=4,r=a", 7),
        (b"n,,n=a=3d,r=a", 8),
        (b"n,,n=\xc0\x80,r=a", 5),
        (b"n,,n=\xc3(,r=a", 6),
        (b"n,,n=\xe0\x80\x80,r=a", 6),
        (b"n,,n=\xed\xa0\x80,r=a", 6),
        (b"n,,n=\xf4\x90\x80\x80,r=a", 6),
        (b"n,,n=\xe2\x82,r=a", 7),
        (b"n,,n=u,r=\xc3\xa9", 9),
    ];
    for (i, (first, place)) in cases.iter().enumerate() {
        let fault = Err(ScramFault::Malformed(*place));
        assert!(rt; is_answer(&name_of(rt.alloc(), first), &fault), "case {i}");
    }
}

#[test]
fn last_texts_outside_the_grammar(rt: HostRuntime) {
    let cases: [PlaceCase; 17] = [
        (b"", 0),
        (b"m=1,c=biws,r=a,p=", 0),
        (b"c=biws,m=1,r=a,p=", 7),
        (b"c=biws,x=1,r=a,p=", 7),
        (b"c=biws,r=a,m=1,p=", 11),
        (b"c=biws,r=a,c=,p=", 11),
        (b"c=biws,r=a,p=,x=1", 13),
        (b"c=biws,r=a,pp", 12),
        (b"c=biws,r=a,x=1", 14),
        (b"c=biws,r=a", 10),
        (b"c=biw,r=a,p=", 5),
        (b"c=bix=,r=a,p=", 5),
        (b"c=bi==,r=a,p=", 4),
        (b"c=b===,r=a,p=", 3),
        (b"c=biws=,r=a,p=", 6),
        (b"c=bi-s,r=a,p=", 4),
        (b"c= iws,r=a,p=", 2),
    ];
    for (i, (last, place)) in cases.iter().enumerate() {
        let answer = answer_of(
            rt.alloc(),
            Mechanism::Sha1,
            &[FIRST_1, *last],
            Found::Unknown([0; 16]),
        );
        assert!(rt;
            is_answer(&answer, &Err(ScramFault::Malformed(*place))),
            "case {i}"
        );
    }
}

fn first_with_nonce(alloc: Global, bytes: usize) -> Result<Vec<u8>, Fail> {
    let mut text = Vec::from_slice(alloc, b"n,,n=u,r=")?;
    for _ in 0..bytes {
        text.push(b'~')?;
    }
    Ok(text)
}

// RFC 5802 sets no limit on a nonce. Here it has at most 256 bytes in the first text, and 512 in the last.
#[test]
fn nonces_of_the_first_text_have_a_limit(rt: HostRuntime) -> Result<(), Fail> {
    let cases: [(usize, Result<&[u8], ScramFault>); 5] = [
        (0, Err(ScramFault::Malformed(9))),
        (1, Ok(b"u")),
        (256, Ok(b"u")),
        (257, Err(ScramFault::Malformed(265))),
        (512, Err(ScramFault::Malformed(265))),
    ];
    for (bytes, want) in cases.iter() {
        let first = first_with_nonce(rt.alloc(), *bytes)?;
        let name = name_of(rt.alloc(), first.as_slice());
        assert!(rt; is_answer(&name, want), "{bytes} bytes");
    }
    Ok(())
}

fn last_with_nonce(alloc: Global, bytes: usize) -> Result<Vec<u8>, Fail> {
    let mut text = Vec::from_slice(alloc, b"c=biws,r=")?;
    for _ in 0..bytes {
        text.push(b'!')?;
    }
    text.extend_from_slice(b",p=")?;
    Ok(text)
}

#[test]
fn nonces_of_the_last_text_have_a_limit(rt: HostRuntime) -> Result<(), Fail> {
    let cases: [(usize, ScramFault); 5] = [
        (0, ScramFault::Malformed(9)),
        (1, ScramFault::NonceDiffers),
        (256, ScramFault::NonceDiffers),
        (512, ScramFault::NonceDiffers),
        (513, ScramFault::Malformed(521)),
    ];
    for (bytes, want) in cases.iter() {
        let last = last_with_nonce(rt.alloc(), *bytes)?;
        let texts = [FIRST_1, last.as_slice()];
        let answer = answer_of(rt.alloc(), Mechanism::Sha1, &texts, Found::Unknown([0; 16]));
        assert!(rt; is_answer(&answer, &Err(*want)), "{bytes} bytes");
    }
    Ok(())
}

// What is said of the front of this length: that it is malformed where it ends, unless it is whole.
fn is_placed(answer: &Result<Vec<u8>, ScramFault>, length: usize, whole: &[usize]) -> bool {
    match answer {
        Err(ScramFault::Malformed(place)) => *place == length && !whole.contains(&length),
        _ => whole.contains(&length),
    }
}

#[test]
fn texts_cut_after_every_byte(rt: HostRuntime) {
    let first: &[u8] =
        b"y,a=a=2Cb=3Dc\xc3\xa9@\xe2\x82\xac,n=\xf0\x9f\x98\x80=2C,r=abc,x=1\xc3\xa9,Q==z";
    for n in 0..=first.len() {
        let name = name_of(rt.alloc(), &first[..n]);
        assert!(rt; is_placed(&name, n, &[33, 34, 35, 39, 41, 45, 46]), "{n}");
    }
    let last: &[u8] = b"c=biws,r=abc,x=1,B=\xe2\x82\xac,p=v0X8v3Bzdg==";
    for n in 0..=last.len() {
        let texts = [FIRST_1, &last[..n]];
        let answer = answer_of(rt.alloc(), Mechanism::Sha1, &texts, Found::Unknown([0; 16]));
        assert!(rt; is_placed(&answer, n, &[25, 29, 33, 37]), "{n}");
    }
}
