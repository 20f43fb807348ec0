//! Lines of a look that were worked out by hand: a key of each kind.

use crate::asserting::{assert_lines, key};
use kmip_client::{Clash, Knowledge, Phase};
use kmip_look::{Looked, Shown, Why};
use kmip_look_command::push_looked;
use kmip_plan::Target;
use kmip_report::Form;
use kmip_ttlv::{NoMemory, Text};
use std::alloc::Global;
use std::test::Fail;

const LOOK_LINES: [&str; 8] = [
    r#"{"version":1,"key":"database-2026","target":"active","identifier":"17","state":"Active","verdict":"finished","to_do":[],"type":2,"algorithm":"AES","length":256,"usage":12,"not_told":null}"#,
    r#"{"version":1,"key":"refused","target":"active","identifier":null,"state":null,"verdict":"working","to_do":[],"type":null,"algorithm":null,"length":null,"usage":null,"not_told":"refused, reason 12 (Permission Denied)"}"#,
    r#"{"version":1,"key":"silent","target":"active","identifier":"1\"\n8","state":null,"verdict":"working","to_do":[],"type":null,"algorithm":null,"length":null,"usage":null,"not_told":"no reply"}"#,
    r#"{"version":1,"key":"none","target":"destroyed","identifier":null,"state":null,"verdict":"working","to_do":["Create","Activate","Revoke","Destroy"],"type":null,"algorithm":null,"length":null,"usage":null,"not_told":null}"#,
    r#"{"version":1,"key":"going","target":"revoked","identifier":"19","state":"PreActive","verdict":"working","to_do":["Activate","Revoke"],"type":2,"algorithm":"HMAC-SHA256","length":256,"usage":384,"not_told":null}"#,
    r#"{"version":1,"key":"other","target":"active","identifier":"20","state":"9","verdict":"conflict attributes","to_do":[],"type":3,"algorithm":"77","length":4294967295,"usage":2147483648,"not_told":null}"#,
    r#"{"version":1,"key":"twice","target":"active","identifier":null,"state":null,"verdict":"conflict two-objects","to_do":[],"type":null,"algorithm":null,"length":null,"usage":null,"not_told":null}"#,
    r#"{"version":1,"finished":1,"of":7}"#,
];

/// A key, what is known of it, and what was told of it: Object Type, Cryptographic Algorithm, Cryptographic
/// Length, Cryptographic Usage Mask and State.
#[derive(Clone, Copy)]
struct Row {
    name: &'static str,
    algorithm: u32,
    usage: i32,
    target: Target,
    identifier: Option<&'static str>,
    done: usize,
    phase: Phase,
    clash: Option<Clash>,
    shown: Option<(u32, u32, i32, i32, u32)>,
    why: Why,
}

/// A key of which nothing is known.
const UNKNOWN: Row = Row {
    name: "",
    algorithm: 3,
    usage: 12,
    target: Target::Active,
    identifier: None,
    done: 0,
    phase: Phase::Look,
    clash: None,
    shown: None,
    why: Why::NoReply,
};

/// The keys of the lines above, in their order.
const ROWS: [Row; 7] = [
    Row {
        name: "database-2026",
        identifier: Some("17"),
        done: 2,
        phase: Phase::Go,
        shown: Some((2, 3, 256, 12, 2)),
        ..UNKNOWN
    },
    Row {
        name: "refused",
        why: Why::Refused(Some(12)),
        ..UNKNOWN
    },
    Row {
        name: "silent",
        identifier: Some("1\"\n8"),
        phase: Phase::Check,
        ..UNKNOWN
    },
    Row {
        name: "none",
        target: Target::Destroyed,
        phase: Phase::Make,
        ..UNKNOWN
    },
    Row {
        name: "going",
        algorithm: 9,
        usage: 384,
        target: Target::Revoked,
        identifier: Some("19"),
        done: 1,
        phase: Phase::Go,
        shown: Some((2, 9, 256, 384, 1)),
        ..UNKNOWN
    },
    Row {
        name: "other",
        identifier: Some("20"),
        phase: Phase::Check,
        clash: Some(Clash::Attributes),
        shown: Some((3, 77, -1, i32::MIN, 9)),
        ..UNKNOWN
    },
    Row {
        name: "twice",
        clash: Some(Clash::TwoObjects),
        ..UNKNOWN
    },
];

/// What is said of the key of a row.
fn looked(alloc: Global, row: &Row) -> Result<Looked, NoMemory> {
    let identifier = match row.identifier {
        Some(uid) => Some(Text::copied(alloc, uid)?),
        None => None,
    };
    let known = Knowledge {
        identifier,
        done: row.done,
        phase: row.phase,
        clash: row.clash,
    };
    let shown = match row.shown {
        Some((object_type, algorithm, length, usage, state)) => Some(Shown {
            object_type: Some(object_type),
            algorithm: Some(algorithm),
            length: Some(length),
            usage: Some(usage),
            state: Some(state),
        }),
        None => None,
    };
    Ok(Looked {
        known,
        shown,
        why: row.why,
    })
}

#[test]
fn writes_how_keys_stand(rt: HostRuntime) -> Result<(), Fail> {
    let alloc = rt.alloc();
    let mut keys = Vec::new(alloc);
    let mut lookeds = Vec::new(alloc);
    for row in &ROWS {
        let made = key(alloc, row.name, row.algorithm, 256, row.usage, row.target)?;
        keys.push(made)?;
        lookeds.push(looked(alloc, row)?)?;
    }
    let mut text = Vec::new(alloc);
    let is_refused = push_looked(
        alloc,
        Form::Json,
        keys.as_slice(),
        lookeds.as_slice(),
        &mut text,
    )?;
    assert!(rt; is_refused, "not all keys are finished");
    assert_lines(&rt, alloc, text.as_slice(), &LOOK_LINES)?;
    Ok(())
}
