//! A law of everything that keeps records: what a list of calls answers follows from the records
//! before it alone. So two stores of one seed and one room answer any list of calls alike, however
//! each keeps its rows.
ghost use Rattle.std.specs.Prelude.{◌≡◌, IfOk, OnOk, OnErr, IsTrue, IsSome, Result};
ghost use Rattle.std.specs.List.{list_all};
ghost use Rattle.std.specs.Option.{option_copied};
ghost use Rattle.kmip_objects.specs.Ranges.{attrs_fit};
ghost use Rattle.kmip_store.specs.Calling.{may_call, answer_of, answer_to, stock_of, stock_after_call, answers_to, stock_after_calls, IsAfterSome};
ghost use Rattle.kmip_store.specs.declared.answer.Answer.TheVariants as answers;
ghost use Rattle.kmip_store.specs.declared.call.Call.TheVariants as calls;
ghost use Rattle.kmip_store.specs.declared.store_fault.StoreFault.{StoreFault};
ghost use Rattle.kmip_store.specs.Stepping.{Becomes};
ghost use Rattle.kmip_store.specs.Stock.{Stock};

use crate::answer::Answer;
use crate::call::Call;
use crate::records::Records;
use crate::row::Row;
use crate::store_fault::StoreFault;
use kmip_objects::{Attrs, KeyAttrs};
use kmip_ttlv::NoMemory;
use std::alloc::Global;

/// Makes the calls one after the other, and returns the answer to each.
///
/// # Errors
/// Where there is no memory for a call or for its answer.
pub fn call_all<S: Records>(
    alloc: Global,
    store: &mut S,
    calls: &[Call],
) -> Result<Vec<Answer>, NoMemory>
    // Each call may be made: the attributes of a Create are in their ranges, and a Locate gives a name.
    requires { IsTrue (list_all may_call calls.now) }
    // What the calls answer, one after the other, follows from the records before them alone.
    ensures answers { IfOk result (λ answers. answers.items
        ≡ answers_to calls.now (S.stock store.old)) }
    // So do the records after them.
    ensures stock { OnOk result (S.stock store.new
        ≡ stock_after_calls calls.now (S.stock store.old)) }
    // Where memory runs out the records are those after some of the calls, from the first on.
    ensures broken_off { OnErr result (IsAfterSome calls.now (S.stock store.old)
        (S.stock store.new)) }
{
    let mut answers = Vec::new(alloc);
    for call in calls {
        let answer = call_one(alloc, store, call)?;
        answers.push(answer)?;
    }
    Ok(answers)
}

/// Makes the same calls of two stores, and returns the answers of each. Two stores of one seed and
/// room begin with the same records, however each keeps its rows.
///
/// # Errors
/// Where there is no memory for a call or for its answer.
pub fn call_both<A: Records, B: Records>(
    alloc: Global,
    first: &mut A,
    second: &mut B,
    calls: &[Call],
) -> Result<(Vec<Answer>, Vec<Answer>), NoMemory>
    // Each call may be made: the attributes of a Create are in their ranges, and a Locate gives a name.
    requires { IsTrue (list_all may_call calls.now) }
    // What each store answers follows from its records before the calls alone.
    ensures each { IfOk result (λ both. (both.0.items ≡ answers_to calls.now (A.stock first.old))
        × (both.1.items ≡ answers_to calls.now (B.stock second.old))) }
    // So do the records of each after them.
    ensures after { OnOk result ((A.stock first.new
        ≡ stock_after_calls calls.now (A.stock first.old))
        × (B.stock second.new ≡ stock_after_calls calls.now (B.stock second.old))) }
    // Where memory runs out the records of each are those after some of the calls, from the first on.
    ensures broken_off { OnErr result (IsAfterSome calls.now (A.stock first.old)
        (A.stock first.new) × IsAfterSome calls.now (B.stock second.old) (B.stock second.new)) }
    // Two stores that had the same records answer alike.
    ensures answers { IfOk result (λ both. A.stock first.old ≡ B.stock second.old
        → both.0.items
        ≡ both.1.items) }
    // They have the same records after the calls too.
    ensures stock { OnOk result (A.stock first.old ≡ B.stock second.old → A.stock first.new
        ≡ B.stock second.new) }
{
    let ours = call_all(alloc, first, calls)?;
    let theirs = call_all(alloc, second, calls)?;
    Ok((ours, theirs))
}

/// Makes a call, and returns its answer.
fn call_one<S: Records>(alloc: Global, store: &mut S, call: &Call) -> Result<Answer, NoMemory>
    requires { IsTrue (may_call call.now) }
    ensures answer { IfOk result (λ answer. answer ≡ answer_to call.now (S.stock store.old)) }
    ensures stock { OnOk result (S.stock store.new
        ≡ stock_after_call call.now (S.stock store.old)) }
    ensures same { OnErr result (S.stock store.new ≡ S.stock store.old) }
{
    match call {
        Call::Create(attrs) => create(alloc, store, attrs),
        Call::Locate { mask, filter } => locate(alloc, store, *mask, filter),
        Call::Find(uid) => copied(alloc, store.find(uid.as_str())),
        Call::Activate(uid) => Ok(moved(store.activate(uid.as_str()))),
        Call::Revoke(uid) => Ok(moved(store.revoke(uid.as_str()))),
        Call::Destroy(uid) => Ok(moved(store.destroy(uid.as_str()))),
        Call::Count => Ok(Answer::Counted(store.count())),
        Call::At(place) => copied(alloc, store.at(*place)),
    }
}

fn create<S: Records>(alloc: Global, store: &mut S, attrs: &KeyAttrs) -> Result<Answer, NoMemory>
    requires { IsTrue (attrs_fit attrs.now) }
    ensures answer { IfOk result (λ answer. answer
        ≡ answer_to (calls.Create attrs.now) (S.stock store.old)) }
    ensures stock { OnOk result (S.stock store.new
        ≡ stock_after_call (calls.Create attrs.now) (S.stock store.old)) }
    ensures same { OnErr result (S.stock store.new ≡ S.stock store.old) }
{
    match store.create(alloc, attrs) {
        Ok(uid) => Ok(Answer::Created(uid)),
        Err(fault) => {
            if fault == StoreFault::NoMemory {
                return Err(NoMemory);
            }
            Ok(Answer::Refused(fault))
        }
    }
}

fn locate<S: Records>(
    alloc: Global,
    store: &S,
    mask: Option<i32>,
    filter: &Attrs,
) -> Result<Answer, NoMemory>
    requires { IsSome filter.now.name }
    ensures { IfOk result (λ answer. answer ≡ answer_to (calls.Locate mask filter.now)
        (S.stock store.now)) }
{
    match store.locate(alloc, mask, filter) {
        Ok(uid) => Ok(Answer::Located(uid)),
        Err(_) => Err(NoMemory),
    }
}

/// How a change went that makes no object.
fn moved(done: Result<(), StoreFault>) -> Answer
    ensures { (old new : Stock) (wanted : Result Stock StoreFault) → Becomes done old new wanted
        → (result ≡ answer_of answers.Moved wanted) × (new ≡ stock_of old wanted) }
{
    match done {
        Ok(()) => Answer::Moved,
        Err(fault) => Answer::Refused(fault),
    }
}

/// A copy of a row that may have been found.
fn copied(alloc: Global, found: Option<&Row>) -> Result<Answer, NoMemory>
    ensures { IfOk result (λ answer. answer ≡ answers.Found (option_copied found.entry)) }
{
    match found {
        Some(row) => {
            let row = row.copied(alloc)?;
            Ok(Answer::Found(Some(row)))
        }
        None => Ok(Answer::Found(None)),
    }
}
