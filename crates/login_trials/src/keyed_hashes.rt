//! Vectors from outside: the RFCs' own, and, where a comment says so, values of python3's `hmac` and
//! `hashlib.pbkdf2_hmac`.

use hmac_kdf::*;

// A key, a text and the digest in hexadecimal.
type MacCase = (&'static [u8], &'static [u8], &'static [u8]);

// A password, a salt, the number of rounds and the digest in hexadecimal.
type HiCase = (&'static [u8], &'static [u8], u32, &'static [u8]);

// The key of the fourth cases of RFC 2202 and RFC 4231.
const COUNTING: [u8; 25] = [
    1, 2, 3, 4, 5, 6, 7, 8, 9, 10, 11, 12, 13, 14, 15, 16, 17, 18, 19, 20, 21, 22, 23, 24, 25,
];

const LONG_KEY_TEXT: &[u8] = b"Test Using Larger Than Block-Size Key - Hash Key First";

const LONG_TEXT: &[u8] =
    b"Test Using Larger Than Block-Size Key and Larger Than One Block-Size Data";

const LONGER_TEXT: &[u8] =
    b"This is a test using a larger than block-size key and a larger than block-size data. The key needs to be hashed before being used by the HMAC algorithm.";

const LONG_PASSWORD: &[u8] = b"passwordPASSWORDpassword";

const LONG_SALT: &[u8] = b"saltSALTsaltSALTsaltSALTsaltSALTsalt";

const AUTH_MESSAGE_5802: &[u8] =
    b"n=user,r=fyko+d2lbbFgONRv9qkxdawL,r=fyko+d2lbbFgONRv9qkxdawL3rfcNHYJY1ZVvWVs7j,s=QSXCR+Q6sek8bf92,i=4096,c=biws,r=fyko+d2lbbFgONRv9qkxdawL3rfcNHYJY1ZVvWVs7j";

const AUTH_MESSAGE_7677: &[u8] =
    b"n=user,r=rOprNGfwEbeRWgbNEkqO,r=rOprNGfwEbeRWgbNEkqO%hvYDpWUa2RaTCAfuxFIlj)hNlF$k0,s=W22ZaJ0SNY7soEsUEjb6gQ==,i=4096,c=biws,r=rOprNGfwEbeRWgbNEkqO%hvYDpWUa2RaTCAfuxFIlj)hNlF$k0";

// The value of a lower-case hexadecimal digit.
fn digit_value(digit: u8) -> u8 {
    if digit < b'a' {
        digit.wrapping_sub(b'0')
    } else {
        digit.wrapping_sub(b'a' - 10)
    }
}

// Whether the text spells the digest in lower-case hexadecimal.
fn spells(text: &[u8], digest: &[u8]) -> bool {
    if text.len() / 2 != digest.len() {
        return false;
    }
    for (i, byte) in digest.iter().enumerate() {
        if digit_value(text[2 * i]) != byte / 16 || digit_value(text[2 * i + 1]) != byte % 16 {
            return false;
        }
    }
    true
}

// The seven cases of RFC 2202, 3.
#[test]
fn hmac_sha1_of_rfc_2202(rt: HostRuntime) {
    let cases: [MacCase; 7] = [
        (
            &[0x0b; 20],
            b"Hi There",
            b"b617318655057264e28bc0b6fb378c8ef146be00",
        ),
        (
            b"Jefe",
            b"what do ya want for nothing?",
            b"effcdf6ae5eb2fa2d27416d5f184df9c259a7c79",
        ),
        (
            &[0xaa; 20],
            &[0xdd; 50],
            b"125d7342b9ac11cd91a39af48aa17b4f63f175d3",
        ),
        (
            &COUNTING,
            &[0xcd; 50],
            b"4c9007f4026250c6bc8414f9bf50c86c2d7235da",
        ),
        (
            &[0x0c; 20],
            b"Test With Truncation",
            b"4c1a03424b55e07fe7f27be1d58bb9324a9a5a04",
        ),
        (
            &[0xaa; 80],
            LONG_KEY_TEXT,
            b"aa4ae5e15272d00e95705637ce8a3b55ed402112",
        ),
        (
            &[0xaa; 80],
            LONG_TEXT,
            b"e8e99d0f45237d786d6bbaa7965c7808bbff1a91",
        ),
    ];
    for (i, (key, text, want)) in cases.iter().enumerate() {
        assert!(rt; spells(want, &hmac_sha1(key, text)), "case {}", i + 1);
    }
}

// RFC 4231, 4; of the fifth digest it gives the first 128 bits, and python3 the others.
#[test]
fn hmac_sha256_of_rfc_4231(rt: HostRuntime) {
    let cases: [MacCase; 7] = [
        (
            &[0x0b; 20],
            b"Hi There",
            b"b0344c61d8db38535ca8afceaf0bf12b881dc200c9833da726e9376c2e32cff7",
        ),
        (
            b"Jefe",
            b"what do ya want for nothing?",
            b"5bdcc146bf60754e6a042426089575c75a003f089d2739839dec58b964ec3843",
        ),
        (
            &[0xaa; 20],
            &[0xdd; 50],
            b"773ea91e36800e46854db8ebd09181a72959098b3ef8c122d9635514ced565fe",
        ),
        (
            &COUNTING,
            &[0xcd; 50],
            b"82558a389a443c0ea4cc819899f2083a85f0faa3e578f8077a2e3ff46729665b",
        ),
        (
            &[0x0c; 20],
            b"Test With Truncation",
            b"a3b6167473100ee06e0c796c2955552bfa6f7c0a6a8aef8b93f860aab0cd20c5",
        ),
        (
            &[0xaa; 131],
            LONG_KEY_TEXT,
            b"60e431591ee0b67f0d8a26aacbf5b77f8e0bc6213728c5140546040f0ee37f54",
        ),
        (
            &[0xaa; 131],
            LONGER_TEXT,
            b"9b09ffa71b942fcb27635fbcd5b0e944bfdc63644f0713938a7f51535c3a35e2",
        ),
    ];
    for (i, (key, text, want)) in cases.iter().enumerate() {
        assert!(rt; spells(want, &hmac_sha256(key, text)), "case {}", i + 1);
    }
}

// Keys of no byte and about the length of a block. The digests are python3's.
#[test]
fn hmac_sha1_at_a_block(rt: HostRuntime) {
    let cases: [MacCase; 4] = [
        (b"", b"", b"fbdb1d1b18aa6c08324b7d64b71fb76370690e1d"),
        (
            &[0xaa; 63],
            b"edge",
            b"b0ee43ee362883cbf5a27b1d47f768c6bf44ca12",
        ),
        (
            &[0xaa; 64],
            b"edge",
            b"61386fedda28729893593e5dbb9f5ff21f2c5e28",
        ),
        (
            &[0xaa; 65],
            b"edge",
            b"532ba05d22111b755166d766a718fe34266179b3",
        ),
    ];
    for (key, text, want) in cases {
        assert!(rt;
            spells(want, &hmac_sha1(key, text)),
            "a key of {}",
            key.len()
        );
    }
}

// The same over SHA-256.
#[test]
fn hmac_sha256_at_a_block(rt: HostRuntime) {
    let cases: [MacCase; 4] = [
        (
            b"",
            b"",
            b"b613679a0814d9ec772f95d778c35fc5ff1697c493715653c6c712144292c5ad",
        ),
        (
            &[0xaa; 63],
            b"edge",
            b"7e80816c018c8fceb1439d523e4ffe167b087fd3aea2f1d64f5114d0f4f9cc27",
        ),
        (
            &[0xaa; 64],
            b"edge",
            b"6a599c2e1bd634e06e5e757c87aefabb46596905a0e71e41cd131e931dc8dd3d",
        ),
        (
            &[0xaa; 65],
            b"edge",
            b"35b8c3e65dabe81902fa78f61def8031fb2bb3b9af41bfc2ff0c84063069e566",
        ),
    ];
    for (key, text, want) in cases {
        assert!(rt;
            spells(want, &hmac_sha256(key, text)),
            "a key of {}",
            key.len()
        );
    }
}

// The first three of RFC 6070, 2, and the first 20 bytes of its fifth: its others have 16,777,216
// rounds or less than one block of output. The last is python3's, with a password beyond one block.
#[test]
fn hi_sha1_of_rfc_6070(rt: HostRuntime) {
    let cases: [HiCase; 5] = [
        (
            b"password",
            b"salt",
            1,
            b"0c60c80f961f0e71f3a9b524af6012062fe037a6",
        ),
        (
            b"password",
            b"salt",
            2,
            b"ea6c014dc72d6f8ccd1ed92ace1d41f0d8de8957",
        ),
        (
            b"password",
            b"salt",
            4096,
            b"4b007901b765489abead49d926f721d065a429c1",
        ),
        (
            LONG_PASSWORD,
            LONG_SALT,
            4096,
            b"3d2eec4fe41c849b80c8d83662c0e44a8b291a96",
        ),
        (
            &[0xaa; 65],
            b"salt",
            3,
            b"c198b33849ddf78219d2a85421a0f6443da6938f",
        ),
    ];
    for (password, salt, rounds, want) in cases {
        assert!(rt;
            spells(want, &hi_sha1(password, salt, rounds)),
            "{rounds} rounds"
        );
    }
}

// The first 32 bytes of the two of RFC 7914, 11, and python3's for the cases of RFC 6070.
const OF_RFC_7914: [HiCase; 7] = [
    (
        b"passwd",
        b"salt",
        1,
        b"55ac046e56e3089fec1691c22544b605f94185216dde0465e68b9d57c20dacbc",
    ),
    (
        b"Password",
        b"NaCl",
        80000,
        b"4ddcd8f60b98be21830cee5ef22701f9641a4418d04c0414aeff08876b34ab56",
    ),
    (
        b"password",
        b"salt",
        1,
        b"120fb6cffcf8b32c43e7225256c4f837a86548c92ccc35480805987cb70be17b",
    ),
    (
        b"password",
        b"salt",
        2,
        b"ae4d0c95af6b46d32d0adff928f06dd02a303f8ef3c251dfd6e2d85a95474c43",
    ),
    (
        b"password",
        b"salt",
        4096,
        b"c5e478d59288c841aa530db6845c4c8d962893a001ce4e11a4963873aa98134a",
    ),
    (
        LONG_PASSWORD,
        LONG_SALT,
        4096,
        b"348c89dbcbd32b2f32d814b8116e84cf2b17347ebc1800181c4e2a1fb8dd53e1",
    ),
    (
        &[0xaa; 65],
        b"salt",
        3,
        b"1313359d5b82b96658b09646d0f293a3d8017e6cb124eb3b489766526adb30d0",
    ),
];

#[test]
fn hi_sha256_of_rfc_7914(rt: HostRuntime) {
    for (password, salt, rounds, want) in OF_RFC_7914 {
        assert!(rt;
            spells(want, &hi_sha256(password, salt, rounds)),
            "{rounds} rounds"
        );
    }
}

// The exchange of RFC 5802, 5. It gives the server's signature, here in hexadecimal, which follows
// from the salted password by two HMACs; the salted password itself is python3's.
#[test]
fn salted_password_of_rfc_5802(rt: HostRuntime) {
    let salt = [
        0x41, 0x25, 0xc2, 0x47, 0xe4, 0x3a, 0xb1, 0xe9, 0x3c, 0x6d, 0xff, 0x76,
    ];
    let salted = hi_sha1(b"pencil", &salt, 4096);
    assert!(rt; spells(b"1d96ee3a529b5a5f9e47c01f229a2cb8a6e15f7d", &salted));
    let signature = hmac_sha1(&hmac_sha1(&salted, b"Server Key"), AUTH_MESSAGE_5802);
    assert!(rt; spells(b"ae617da6a57c4bbb2e0286568dae1d251905b0a4", &signature));
}

// The exchange of RFC 7677, 3, likewise.
#[test]
fn salted_password_of_rfc_7677(rt: HostRuntime) {
    let salt = [
        0x5b, 0x6d, 0x99, 0x68, 0x9d, 0x12, 0x35, 0x8e, 0xec, 0xa0, 0x4b, 0x14, 0x12, 0x36, 0xfa,
        0x81,
    ];
    let salted = hi_sha256(b"pencil", &salt, 4096);
    let wanted = b"c4a49510323ab4f952cac1fa99441939e78ea74d6be81ddf7096e87513dc615d";
    assert!(rt; spells(wanted, &salted));
    let signature = hmac_sha256(&hmac_sha256(&salted, b"Server Key"), AUTH_MESSAGE_7677);
    let wanted = b"eabae24d1062db75a9451ff0b6ea7e98c8546549ff741e672d3251b2397de46e";
    assert!(rt; spells(wanted, &signature));
}
