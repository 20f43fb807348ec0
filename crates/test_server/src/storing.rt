//! The answers of two stores, a list and one with maps, to the same calls.
ghost use Rattle.std.specs.Prelude.{IfOk, IsTrue};
ghost use Rattle.kmip_store.specs.Calling.{may_call};

use crate::asserting::assert_text;
use kmip_objects::{Attrs, KeyAttrs, attrs_fit};
use kmip_store::{Answer, Call, IndexedStore, ListStore, call_both};
use kmip_ttlv::{NoMemory, Text};
use rand_chacha::ChaCha20Rng;
use rand_core::{Rng, SeedableRng};
use std::alloc::{AllocError, Global};
use std::process::Abort;
use std::test::Fail;

/// A call by its method and what it is given, and what it is answered.
#[derive(Drop)]
struct Row(&'static str, &'static str, &'static str);

/// The calls of a store with room for two objects. The material is of the stream of ChaCha20 under a
/// key of zeros (RFC 8439, appendix A.1).
const ROWS: [Row; 40] = [
    Row("count", "", "counted 0"),
    Row("locate", "a", "located none"),
    Row("find", "1", "found none"),
    Row("activate", "1", "refused NotFound"),
    Row("revoke", "1", "refused NotFound"),
    Row("destroy", "1", "refused NotFound"),
    Row("create", "a", "created 1"),
    Row("create", "a", "refused SameName"),
    Row("find", "1", "found 1 with 76b8e0ada0f13d90405d6ae55386bd28"),
    Row("locate", "a", "located 1"),
    Row("revoke", "1", "refused WrongState"),
    Row("create", "b", "created 2"),
    Row("create", "c", "refused Full"),
    Row("create", "b", "refused SameName"),
    Row("count", "", "counted 2"),
    Row("find", "2", "found 2 with bdd219b8a08ded1aa836efcc8b770dc7"),
    Row("find", "3", "found none"),
    Row("find", "01", "found none"),
    Row("locate", "c", "located none"),
    Row("locate", "b", "located 2"),
    Row("activate", "2", "moved"),
    Row("activate", "2", "refused WrongState"),
    Row("destroy", "2", "refused WrongState"),
    Row("locate", "b", "located 2"),
    Row("revoke", "2", "moved"),
    Row("revoke", "2", "refused WrongState"),
    Row("activate", "2", "refused WrongState"),
    Row("find", "2", "found 2 with bdd219b8a08ded1aa836efcc8b770dc7"),
    Row("destroy", "2", "moved"),
    Row("destroy", "2", "refused WrongState"),
    Row("find", "2", "found 2 with nothing"),
    Row("locate", "b", "located none"),
    Row("locate all", "b", "located 2"),
    Row("create", "b", "refused SameName"),
    Row("at", "1", "found 2 with nothing"),
    Row("at", "0", "found 1 with 76b8e0ada0f13d90405d6ae55386bd28"),
    Row("at", "2", "found none"),
    Row("activate", "1", "moved"),
    Row("destroy", "1", "refused WrongState"),
    Row("count", "", "counted 2"),
];

/// What the random calls are about.
const NAMES: [&str; 6] = ["a", "b", "c", "d", "e", "f"];

const UIDS: [&str; 6] = ["1", "2", "3", "4", "5", "01"];

const LENGTHS: [i32; 3] = [128, 192, 256];

/// Create of an AES key with so many bits, to encrypt and decrypt.
fn create(alloc: Global, name: &str, length: i32) -> Result<Call, Fail>
    ensures { IfOk result (λ call. IsTrue (may_call call)) }
{
    let attrs = KeyAttrs {
        name: Text::copied(alloc, name)?,
        algorithm: 3,
        length,
        usage: 12,
    };
    if attrs_fit(&attrs) {
        Ok(Call::Create(attrs))
    } else {
        Ok(Call::Count)
    }
}

/// Locate of whatever has the name and is searched under the mask.
fn locate(alloc: Global, mask: Option<i32>, name: &str) -> Result<Call, Fail>
    ensures { IfOk result (λ call. IsTrue (may_call call)) }
{
    let filter = Attrs {
        object_type: None,
        name: Some(Text::copied(alloc, name)?),
        algorithm: None,
        length: None,
        usage: None,
        state: None,
    };
    Ok(Call::Locate { mask, filter })
}

/// The call of a method that takes an identifier.
fn call_on(method: &str, uid: Text) -> Call
    ensures { IsTrue (may_call result) }
{
    match method {
        "find" => Call::Find(uid),
        "activate" => Call::Activate(uid),
        "revoke" => Call::Revoke(uid),
        _ => Call::Destroy(uid),
    }
}

/// The call of a method.
fn call_of(alloc: Global, method: &str, given: &str, length: i32) -> Result<Call, Fail>
    ensures { IfOk result (λ call. IsTrue (may_call call)) }
{
    match method {
        "create" => create(alloc, given, length),
        "locate" => locate(alloc, None, given),
        "locate all" => locate(alloc, Some(5), given),
        "at" => Ok(Call::At(given.parse()?)),
        "count" => Ok(Call::Count),
        _ => Ok(call_on(method, Text::copied(alloc, given)?)),
    }
}

/// A random call: a step as often as all else.
fn random_call(alloc: Global, rng: &mut ChaCha20Rng) -> Result<Call, Fail>
    ensures { IfOk result (λ call. IsTrue (may_call call)) }
{
    let name = NAMES[rng.next_u32() as usize % NAMES.len()];
    let uid = UIDS[rng.next_u32() as usize % UIDS.len()];
    let length = LENGTHS[rng.next_u32() as usize % LENGTHS.len()];
    match rng.next_u32() % 12 {
        0..=2 => call_of(alloc, "create", name, length),
        3 => call_of(alloc, "locate", name, length),
        4 => call_of(alloc, "locate all", name, length),
        5 => call_of(alloc, "find", uid, length),
        6..=7 => call_of(alloc, "activate", uid, length),
        8..=9 => call_of(alloc, "revoke", uid, length),
        10 => call_of(alloc, "destroy", uid, length),
        _ => call_of(alloc, "at", uid, length),
    }
}

/// An object that was found, in words.
fn words_of_found(alloc: Global, row: &kmip_store::Row) -> Result<String, AllocError> {
    let material = hex::encode(alloc, row.material.as_slice())?;
    let words = match material.as_str() {
        "" => "nothing",
        words => words,
    };
    format!(in alloc; "found {} with {words}", row.uid.as_str())
}

/// An answer in words.
fn words_of(alloc: Global, answer: &Answer) -> Result<String, AllocError> {
    match answer {
        Answer::Created(uid) => format!(in alloc; "created {}", uid.as_str()),
        Answer::Located(Some(uid)) => format!(in alloc; "located {}", uid.as_str()),
        Answer::Located(None) => String::from_str(alloc, "located none"),
        Answer::Found(Some(row)) => words_of_found(alloc, row),
        Answer::Found(None) => String::from_str(alloc, "found none"),
        Answer::Moved => String::from_str(alloc, "moved"),
        Answer::Counted(count) => format!(in alloc; "counted {count}"),
        Answer::Refused(fault) => format!(in alloc; "refused {}", fault.name()),
    }
}

/// Makes a call of both stores, and gives the answers in words.
fn answers_of(
    alloc: Global,
    store: &mut ListStore,
    other: &mut IndexedStore,
    call: Call,
) -> Result<(String, String), NoMemory>
    requires { IsTrue (may_call call) }
{
    let (ours, theirs) = call_both(alloc, store, other, &[call])?;
    let ours = last_words(alloc, ours.as_slice())?;
    let theirs = last_words(alloc, theirs.as_slice())?;
    Ok((ours, theirs))
}

/// The last of these answers in words; nothing where there is none.
fn last_words(alloc: Global, answers: &[Answer]) -> Result<String, AllocError> {
    match answers.last() {
        Some(answer) => words_of(alloc, answer),
        None => Ok(String::new(alloc)),
    }
}

/// Makes the call of a row of both stores, and gives the answers in words.
fn answers_to_row(
    alloc: Global,
    store: &mut ListStore,
    other: &mut IndexedStore,
    row: &Row,
) -> Result<(String, String), Fail> {
    let Row(method, given, _) = row;
    let call = call_of(alloc, method, given, 128)?;
    Ok(answers_of(alloc, store, other, call)?)
}

/// Both stores answer the call of each row as it says.
fn answer_rows(
    rt: &impl Abort,
    alloc: Global,
    store: &mut ListStore,
    other: &mut IndexedStore,
    rows: &[Row],
) -> Result<(), Fail> {
    for row in rows {
        let Row(method, _, wanted) = row;
        let (ours, theirs) = answers_to_row(alloc, store, other, row)?;
        assert_text(rt, ours.as_str(), wanted, method);
        assert_text(rt, theirs.as_str(), wanted, method);
    }
    Ok(())
}

#[test]
fn answers_call_by_call(rt: HostRuntime) -> Result<(), Fail> {
    let mut store = ListStore::new(rt.alloc(), [0; 32], 2);
    let mut other = IndexedStore::new(rt.alloc(), [0; 32], 2);
    answer_rows(&rt, rt.alloc(), &mut store, &mut other, &ROWS)
}

/// There is an answer, and both are alike.
fn assert_alike(rt: &impl Abort, ours: &str, theirs: &str) {
    assert!(rt; !ours.is_empty());
    assert_text(rt, ours, theirs, "a random call");
}

/// Both stores answer a hundred random calls, and alike.
fn answer_random_calls(
    rt: &impl Abort,
    alloc: Global,
    rng: &mut ChaCha20Rng,
    store: &mut ListStore,
    other: &mut IndexedStore,
) -> Result<(), Fail> {
    for _ in 0..100 {
        let call = random_call(alloc, rng)?;
        let (ours, theirs) = answers_of(alloc, store, other, call)?;
        assert_alike(rt, ours.as_str(), theirs.as_str());
    }
    Ok(())
}

/// Both stores, with material of this seed, answer random calls alike.
fn answer_seeded(
    rt: &impl Abort,
    alloc: Global,
    rng: &mut ChaCha20Rng,
    seed: u8,
) -> Result<(), Fail> {
    let mut store = ListStore::new(alloc, [seed; 32], 4);
    let mut other = IndexedStore::new(alloc, [seed; 32], 4);
    answer_random_calls(rt, alloc, rng, &mut store, &mut other)
}

#[test]
fn answers_random_calls_alike(rt: HostRuntime) -> Result<(), Fail> {
    let mut rng = ChaCha20Rng::from_seed([8; 32]);
    for seed in 0..50 {
        answer_seeded(&rt, rt.alloc(), &mut rng, seed)?;
    }
    Ok(())
}
