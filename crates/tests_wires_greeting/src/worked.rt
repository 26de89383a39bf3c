//! Greetings worked by hand: what each side sends, byte by byte, and what comes of it. The digests are those of another
//! implementation.
use std::alloc::Global;
use std::net::{IpAddr, Ipv4Addr};
use wires_greeting::{CoordinatorSide, FederateSide, Greeting, Key, files_digest};

const SECRET: &[u8] = b"0123456789abcdef";

/// Who may take part, of four federates: all.
const ALL: [bool; 4] = [true; 4];

/// The federate's random bytes.
const FEDERATE_RANDOM: [u8; 32] = [
    0, 1, 2, 3, 4, 5, 6, 7, 8, 9, 10, 11, 12, 13, 14, 15, 16, 17, 18, 19, 20, 21, 22, 23, 24, 25,
    26, 27, 28, 29, 30, 31,
];

/// The coordinator's.
const COORDINATOR_RANDOM: [u8; 32] = [
    32, 33, 34, 35, 36, 37, 38, 39, 40, 41, 42, 43, 44, 45, 46, 47, 48, 49, 50, 51, 52, 53, 54, 55,
    56, 57, 58, 59, 60, 61, 62, 63,
];

/// The protocol, federate 3, the digest of the files "federation" and "inputs", and the federate's random bytes.
const GREETING: &str = "66656472756e2031\
0003\
572b6b97a26c898997271341cc81715a609946eaf2baa0bf155a98f3ac368a21\
000102030405060708090a0b0c0d0e0f101112131415161718191a1b1c1d1e1f";

/// The coordinator's random bytes, as they are written.
const RANDOM: &str = "202122232425262728292a2b2c2d2e2f303132333435363738393a3b3c3d3e3f";

/// A secret, or none, and whether the run is finished; the coordinator's answer, and what both sides prove.
struct Worked {
    secret: Option<&'static [u8]>,
    finished: bool,
    answer: &'static str,
    coordinator: &'static str,
    federate: &'static str,
}

/// Without a secret the key is empty; one of more bytes than a block of SHA-256 has is hashed.
const WORKED: [Worked; 5] = [
    Worked {
        secret: Some(SECRET),
        finished: false,
        answer: "01",
        coordinator: "fbee6a45880b0dddc9edbb4c9a6c85d846a6bb7c91c82052b5785566f6f0094c",
        federate: "703328e6ff4111600d9ea4bcfec4d13e6fcd5936b472c97a36b83fbdf9ac7fef",
    },
    Worked {
        secret: None,
        finished: false,
        answer: "01",
        coordinator: "bc664787dd76208f5ce6c770bbe27961c9b20b14d41243561864239bf48c42dc",
        federate: "98b2e486d6b518fc5d4605a14c855f0831fdf8fc25aaab0a281be48562baa0fa",
    },
    Worked {
        secret: Some(b"0123456789abcdef0123456789abcdef0123456789abcdef0123456789abcdef"),
        finished: false,
        answer: "01",
        coordinator: "859b7f68601bb33b94f02821c730c3a4991d67fc886e7a4ff222d7db6cd00159",
        federate: "80190aea718d392ed4836763116effc57ae449fcb0962890e824860a3682866e",
    },
    Worked {
        secret: Some(b"0123456789abcdef0123456789abcdef0123456789abcdef0123456789abcdef0"),
        finished: false,
        answer: "01",
        coordinator: "e4001a288cb571176fac96893915c84b6a41d3c05ca61c787782618a07b47d34",
        federate: "706aab190d0888bb296f909c260f7db25917c575328e31e97666ebf181940d6b",
    },
    Worked {
        secret: Some(SECRET),
        finished: true,
        answer: "04",
        coordinator: "954f1f1fb92164e60464a04705b013fab31b25e2b83d688d75cdfa6ea22330b3",
        federate: "56c576a276f98c66d81671c913180271c25f6300e8f896b7cfb1331fb3223163",
    },
];

// The key of a secret, or the one of loopback.
fn key_of(secret: Option<&[u8]>) -> Option<Key> {
    match secret {
        Some(secret) => Key::of_secret(secret).ok(),
        None => Key::without_secret(&IpAddr::V4(Ipv4Addr::new(127, 0, 0, 1))).ok(),
    }
}

// Whether these bytes are those that are written so.
fn are(alloc: Global, bytes: &[u8], text: &str) -> bool {
    match hex::encode(alloc, bytes) {
        Ok(written) => written.as_str() == text,
        Err(_) => false,
    }
}

// Whether both sides say so, and federate 3 is let in by it, or was told that the run is finished, and not before.
fn is_as_worked(alloc: Global, worked: &Worked) -> Option<bool> {
    let key = key_of(worked.secret)?;
    let files = files_digest(b"federation", b"inputs");
    let greeting = Greeting {
        federate: 3,
        files,
        random: FEDERATE_RANDOM,
    };
    let mut federate = FederateSide::new(key, greeting);
    let mut coordinator = CoordinatorSide::new(key, files);
    let message = federate.message();
    let challenge = coordinator.greeted(&message, &COORDINATOR_RANDOM, &ALL, worked.finished)?;
    let proof = federate.challenged(&challenge)?;
    let before = (coordinator.let_in(), coordinator.told());
    coordinator.proved(&proof);
    let is_said = are(alloc, &message, GREETING)
        && are(alloc, &challenge[..1], worked.answer)
        && are(alloc, &challenge[1..33], RANDOM)
        && are(alloc, &challenge[33..], worked.coordinator)
        && are(alloc, &proof, worked.federate);
    let behind = if worked.finished {
        (None, Some(3))
    } else {
        (Some(3), None)
    };
    let now = (coordinator.let_in(), coordinator.told());
    Some(is_said && before == (None, None) && now == behind)
}

// The place of the first that isn't.
fn first_wrong(alloc: Global) -> Option<usize> {
    WORKED
        .iter()
        .position(|worked| is_as_worked(alloc, worked) != Some(true))
}

#[test]
fn each_message_is_as_worked(rt: HostRuntime) {
    assert_eq!(rt; first_wrong(rt.alloc()), None);
}
