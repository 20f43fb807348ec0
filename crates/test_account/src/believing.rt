//! When a progress is believed without asking the server. The texts were written by hand, from the example of
//! OPERATING.

use kmip_belief::{Terms, is_believed, keys_saved, known_count, push_origin};
use kmip_client::Client;
use kmip_plan::read_plan;
use kmip_progress::Progress;
use std::process::Abort;
use std::test::Fail;

/// Three keys.
const PLAN: &str = "\
[[key]]
name = \"k1\"
algorithm = \"AES\"
length = 256
usage = [\"encrypt\", \"decrypt\"]
target = \"active\"

[[key]]
name = \"k2\"
algorithm = \"HMAC-SHA256\"
length = 256
usage = [\"mac-generate\"]
target = \"active\"

[[key]]
name = \"k3\"
algorithm = \"AES\"
length = 128
usage = [\"encrypt\"]
target = \"created\"
";

/// The objects of the first two keys are known.
const PROGRESS: &str =
    "kmip-progress 2\nk1 active - 2 31\nk2 active - 2 32\nk3 created - 0 -\nend 3\n";

const SERVER: &str = "tcp 192.0.2.7:5696";

/// The time of the origins.
const KEPT: u64 = 1_790_000_000;

/// The origin that a run of the plan writes.
const ORIGIN: &str = "\
kmipctl origin 1
server tcp 192.0.2.7:5696
kept 1790000000
key k1 AES 256 0000000c
key k2 HMAC-SHA256 256 00000080
key k3 AES 128 00000004
";

/// What stands in an origin, for how many keys it says that the progress was saved against the server, and whether the
/// progress is believed.
const ORIGINS: [(&str, Option<usize>, bool); 12] = [
    (ORIGIN, Some(3), true),
    (
        "kmipctl origin 1\nserver tcp 192.0.2.7:5696\nkept 1\nkey k1 AES 256 0000000c\nkey k2 HMAC-SHA256 256 00000080\n",
        Some(2),
        true,
    ),
    // The second key is known, and has no line.
    (
        "kmipctl origin 1\nserver tcp 192.0.2.7:5696\nkept 1\nkey k1 AES 256 0000000c\n",
        Some(1),
        false,
    ),
    (
        "kmipctl origin 1\nserver tcp 192.0.2.7:5696\nkept 1\n",
        Some(0),
        false,
    ),
    // Another port, another host, and a socket.
    (
        "kmipctl origin 1\nserver tcp 192.0.2.7:5697\nkept 1\nkey k1 AES 256 0000000c\nkey k2 HMAC-SHA256 256 00000080\n",
        None,
        false,
    ),
    (
        "kmipctl origin 1\nserver tcp 192.0.2.70:5696\nkept 1\nkey k1 AES 256 0000000c\nkey k2 HMAC-SHA256 256 00000080\n",
        None,
        false,
    ),
    (
        "kmipctl origin 1\nserver unix /run/kmip\nkept 1\nkey k1 AES 256 0000000c\nkey k2 HMAC-SHA256 256 00000080\n",
        None,
        false,
    ),
    // Another usage, another length, another algorithm and another name of the second key.
    (
        "kmipctl origin 1\nserver tcp 192.0.2.7:5696\nkept 1\nkey k1 AES 256 0000000c\nkey k2 HMAC-SHA256 256 00000180\n",
        None,
        false,
    ),
    (
        "kmipctl origin 1\nserver tcp 192.0.2.7:5696\nkept 1\nkey k1 AES 256 0000000c\nkey k2 HMAC-SHA256 128 00000080\n",
        None,
        false,
    ),
    (
        "kmipctl origin 1\nserver tcp 192.0.2.7:5696\nkept 1\nkey k1 AES 256 0000000c\nkey k2 AES 256 00000080\n",
        None,
        false,
    ),
    (
        "kmipctl origin 1\nserver tcp 192.0.2.7:5696\nkept 1\nkey k1 AES 256 0000000c\nkey k20 HMAC-SHA256 256 00000080\n",
        None,
        false,
    ),
    ("", None, false),
];

/// Terms on which nothing is believed but by the origin.
const STRICT: Terms<'static> = Terms {
    server: SERVER,
    is_rehearsal: false,
    limit: 10,
    is_vouched_for: false,
    is_refreshed: false,
};

/// Terms, and whether a progress without an origin, and one with the whole origin, is believed on these.
const TERMS: [(Terms<'static>, bool, bool); 6] = [
    (STRICT, false, true),
    (
        Terms {
            is_rehearsal: true,
            ..STRICT
        },
        true,
        true,
    ),
    (
        Terms {
            is_vouched_for: true,
            ..STRICT
        },
        true,
        true,
    ),
    (Terms { limit: 0, ..STRICT }, true, true),
    (
        Terms {
            is_refreshed: true,
            is_vouched_for: true,
            ..STRICT
        },
        false,
        false,
    ),
    (
        Terms {
            is_refreshed: true,
            limit: 0,
            ..STRICT
        },
        true,
        true,
    ),
];

#[test]
fn believes_an_origin_of_each_known_key(rt: HostRuntime) -> Result<(), Fail> {
    let alloc = rt.alloc();
    let plan = read_plan(alloc, PLAN)?;
    let progress = Progress::read_text(alloc, &plan, PROGRESS)?;
    let client = Client::resume(alloc, &plan, &progress)?;
    assert_eq!(rt; known_count(&client), 2);
    for (text, saved, believed) in &ORIGINS {
        assert_eq!(rt;
            keys_saved(alloc, text.as_bytes(), SERVER, plan.keys())?,
            *saved
        );
        assert_eq!(rt;
            is_believed(alloc, &client, Some(text), &STRICT)?,
            *believed
        );
    }
    Ok(())
}

#[test]
fn believes_on_its_terms(rt: HostRuntime) -> Result<(), Fail> {
    let alloc = rt.alloc();
    let plan = read_plan(alloc, PLAN)?;
    let progress = Progress::read_text(alloc, &plan, PROGRESS)?;
    let client = Client::resume(alloc, &plan, &progress)?;
    for (terms, without, with) in &TERMS {
        assert_eq!(rt; is_believed(alloc, &client, None, terms)?, *without);
        assert_eq!(rt; is_believed(alloc, &client, Some(ORIGIN), terms)?, *with);
    }
    let fresh = Client::fresh(alloc, &plan)?;
    assert_eq!(rt; known_count(&fresh), 0);
    assert_eq!(rt; is_believed(alloc, &fresh, None, &STRICT)?, true);
    Ok(())
}

#[test]
fn writes_what_it_believes(rt: HostRuntime) -> Result<(), Fail> {
    let alloc = rt.alloc();
    let plan = read_plan(alloc, PLAN)?;
    let mut text = Vec::new(alloc);
    push_origin(alloc, SERVER, KEPT, plan.keys(), &mut text)?;
    assert_eq!(rt; text.as_slice(), ORIGIN.as_bytes());
    Ok(())
}
