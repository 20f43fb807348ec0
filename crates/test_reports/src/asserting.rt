//! What the tests of the crate share: a plan, a key, and lines that have to stand in a text.

use kmip_objects::KeyAttrs;
use kmip_plan::{Key, Target};
use kmip_ttlv::{NoMemory, Text};
use std::alloc::Global;
use std::process::Abort;

/// A plan of two keys. The name of the first has a quotation mark and a backslash.
pub(crate) const PLAN: &str = r#"
[[key]]
name = 'a"b\c'
algorithm = "AES"
length = 256
usage = ["encrypt", "decrypt"]
target = "active"

[[key]]
name = "second"
algorithm = "HMAC-SHA256"
length = 256
usage = ["mac-generate"]
target = "discarded"
"#;

/// Each line stands in the text, in this order and with a line feed, and nothing else does.
pub(crate) fn assert_lines(
    rt: &impl Abort,
    alloc: Global,
    text: &[u8],
    lines: &[&str],
) -> Result<(), NoMemory> {
    let mut expected = Vec::new(alloc);
    for line in lines {
        expected.extend_from_slice(line.as_bytes())?;
        expected.push(b'\n')?;
    }
    assert!(rt; text == expected.as_slice(), "in {text:?}");
    Ok(())
}

/// A key with this name, of which the Revocation Reason Code is 0.
pub(crate) fn key(
    alloc: Global,
    name: &str,
    algorithm: u32,
    length: i32,
    usage: i32,
    target: Target,
) -> Result<Key, NoMemory> {
    let name = Text::copied(alloc, name)?;
    let attrs = KeyAttrs {
        name,
        algorithm,
        length,
        usage,
    };
    Ok(Key {
        attrs,
        target,
        reason: 0,
    })
}
