//! HMAC-SHA-256 by the examples of RFC 4231.
use std::alloc::Global;
use wires_greeting::hmac_sha256;

struct Example {
    key: &'static [u8],
    message: &'static [u8],
    digest: &'static str,
}

/// Of one example the first 16 bytes are published.
const EXAMPLES: [Example; 7] = [
    Example {
        key: &[0x0b; 20],
        message: b"Hi There",
        digest: "b0344c61d8db38535ca8afceaf0bf12b881dc200c9833da726e9376c2e32cff7",
    },
    Example {
        key: b"Jefe",
        message: b"what do ya want for nothing?",
        digest: "5bdcc146bf60754e6a042426089575c75a003f089d2739839dec58b964ec3843",
    },
    Example {
        key: &[0xaa; 20],
        message: &[0xdd; 50],
        digest: "773ea91e36800e46854db8ebd09181a72959098b3ef8c122d9635514ced565fe",
    },
    Example {
        key: &[
            1, 2, 3, 4, 5, 6, 7, 8, 9, 10, 11, 12, 13, 14, 15, 16, 17, 18, 19, 20, 21, 22, 23, 24,
            25,
        ],
        message: &[0xcd; 50],
        digest: "82558a389a443c0ea4cc819899f2083a85f0faa3e578f8077a2e3ff46729665b",
    },
    Example {
        key: &[0x0c; 20],
        message: b"Test With Truncation",
        digest: "a3b6167473100ee06e0c796c2955552b",
    },
    Example {
        key: &[0xaa; 131],
        message: b"Test Using Larger Than Block-Size Key - Hash Key First",
        digest: "60e431591ee0b67f0d8a26aacbf5b77f8e0bc6213728c5140546040f0ee37f54",
    },
    Example {
        key: &[0xaa; 131],
        message: b"This is a test using a larger than block-size key and a larger than block-size data. The key needs to be hashed before being used by the HMAC algorithm.",
        digest: "9b09ffa71b942fcb27635fbcd5b0e944bfdc63644f0713938a7f51535c3a35e2",
    },
];

// The place of the first whose digest doesn't begin so.
fn first_wrong(alloc: Global) -> Option<usize> {
    for (place, example) in EXAMPLES.iter().enumerate() {
        let begins_so = match hex::encode(alloc, hmac_sha256(example.key, example.message)) {
            Ok(digest) => digest.as_str().starts_with(example.digest),
            Err(_) => false,
        };
        if !begins_so {
            return Some(place);
        }
    }
    None
}

#[test]
fn digests_are_those_published(rt: HostRuntime) {
    assert_eq!(rt; first_wrong(rt.alloc()), None);
}
