//! The items of one Structure, found by their tags.
ghost use Rattle.std.specs.Prelude.{◌≡◌, ◌==◌, ◌<◌, ◌^◌, option_map, IfErr};
ghost use Rattle.std.specs.List.{list_any};
ghost use Rattle.kmip_ttlv.specs.Node.{
  content_of,
  as_structure,
  as_integer,
  as_enumeration,
  as_text_string,
  as_byte_string,
};
ghost use Rattle.kmip_ttlv.specs.View.{view, views};
ghost use Rattle.kmip_batch_items.specs.Siblings.{contents, at_most_one_of, one_of, guard, the, maybe, within, only};
ghost use Rattle.kmip_batch_items.specs.Reading.{Gives};

use crate::message_fault::MessageFault;
use kmip_ttlv::{Item, Tag};

/// The item with this tag, where there is one; two or more are a fault.
fn at_most_one(items: &[Item], tag: u32) -> Result<Option<&Item>, MessageFault>
    // The tag has three bytes.
    requires { tag < 2 ^ 24 }
    ensures exact { Gives (λ o. option_map (λ i. content_of (view i.now)) o) result
        (at_most_one_of tag (contents tag (views items.now))) }
    ensures fault { IfErr result
        (λ e. at_most_one_of tag (contents tag (views items.now)) ≡ Err e) }
{
    let mut found = None;
    for item in items {
        if item.tag().number() == tag {
            if found.is_some() {
                return Err(MessageFault::Twice(Tag::new(tag)));
            }
            found = Some(item);
        }
    }
    Ok(found)
}

/// The item with this tag, which stands once. A contract sees what the item contains.
///
/// # Errors
/// `Missing` where it stands nowhere, `Twice` where it stands twice or more often.
pub fn one(items: &[Item], tag: u32) -> Result<&Item, MessageFault>
    // The tag has three bytes.
    requires { tag < 2 ^ 24 }
    ensures { Gives (λ i. content_of (view i.now)) result
        (one_of tag (contents tag (views items.now))) }
{
    match at_most_one(items, tag)? {
        Some(item) => Ok(item),
        None => Err(MessageFault::Missing(Tag::new(tag))),
    }
}

/// The items of the one Structure with this tag.
///
/// # Errors
/// `Missing` or `Twice` where it does not stand once, `WrongType` where it has another type.
#[tactic(auto, unfolding(crate::specs::Siblings::the))]
pub fn the_structure(items: &[Item], tag: u32) -> Result<&[Item], MessageFault>
    // The tag has three bytes.
    requires { tag < 2 ^ 24 }
    ensures { Gives (λ s. views s.now) result (the as_structure tag (views items.now)) }
{
    match one(items, tag)?.as_structure() {
        Some(items) => Ok(items),
        None => Err(MessageFault::WrongType(Tag::new(tag))),
    }
}

/// The number of the one Integer with this tag.
///
/// # Errors
/// `Missing` or `Twice` where it does not stand once, `WrongType` where it has another type.
#[tactic(auto, unfolding(crate::specs::Siblings::the))]
pub fn the_integer(items: &[Item], tag: u32) -> Result<i32, MessageFault>
    // The tag has three bytes.
    requires { tag < 2 ^ 24 }
    ensures { Gives (λ n. n) result (the as_integer tag (views items.now)) }
{
    match one(items, tag)?.as_integer() {
        Some(number) => Ok(number),
        None => Err(MessageFault::WrongType(Tag::new(tag))),
    }
}

/// The number of the one Enumeration with this tag.
///
/// # Errors
/// `Missing` or `Twice` where it does not stand once, `WrongType` where it has another type.
#[tactic(auto, unfolding(crate::specs::Siblings::the))]
pub fn the_enumeration(items: &[Item], tag: u32) -> Result<u32, MessageFault>
    // The tag has three bytes.
    requires { tag < 2 ^ 24 }
    ensures { Gives (λ n. n) result (the as_enumeration tag (views items.now)) }
{
    match one(items, tag)?.as_enumeration() {
        Some(number) => Ok(number),
        None => Err(MessageFault::WrongType(Tag::new(tag))),
    }
}

/// The text of the one Text String with this tag.
///
/// # Errors
/// `Missing` or `Twice` where it does not stand once, `WrongType` where it has another type.
#[tactic(auto, unfolding(crate::specs::Siblings::the))]
pub fn the_text(items: &[Item], tag: u32) -> Result<&str, MessageFault>
    // The tag has three bytes.
    requires { tag < 2 ^ 24 }
    ensures { Gives (λ s. s.now) result (the as_text_string tag (views items.now)) }
{
    match one(items, tag)?.as_text_string() {
        Some(text) => Ok(text),
        None => Err(MessageFault::WrongType(Tag::new(tag))),
    }
}

/// The number of the Integer with this tag, where there is one.
///
/// # Errors
/// `Twice` where it stands twice or more often, `WrongType` where it has another type.
#[tactic(auto, unfolding(crate::specs::Siblings::maybe))]
pub fn integer_if_any(items: &[Item], tag: u32) -> Result<Option<i32>, MessageFault>
    // The tag has three bytes.
    requires { tag < 2 ^ 24 }
    ensures { Gives (λ n. n) result (maybe as_integer tag (views items.now)) }
{
    match at_most_one(items, tag)? {
        None => Ok(None),
        Some(item) => match item.as_integer() {
            Some(number) => Ok(Some(number)),
            None => Err(MessageFault::WrongType(Tag::new(tag))),
        },
    }
}

/// The number of the Enumeration with this tag, where there is one.
///
/// # Errors
/// `Twice` where it stands twice or more often, `WrongType` where it has another type.
#[tactic(auto, unfolding(crate::specs::Siblings::maybe))]
pub fn enumeration_if_any(items: &[Item], tag: u32) -> Result<Option<u32>, MessageFault>
    // The tag has three bytes.
    requires { tag < 2 ^ 24 }
    ensures { Gives (λ n. n) result (maybe as_enumeration tag (views items.now)) }
{
    match at_most_one(items, tag)? {
        None => Ok(None),
        Some(item) => match item.as_enumeration() {
            Some(number) => Ok(Some(number)),
            None => Err(MessageFault::WrongType(Tag::new(tag))),
        },
    }
}

/// The items of the Structure with this tag, where there is one.
///
/// # Errors
/// `Twice` where it stands twice or more often, `WrongType` where it has another type.
#[tactic(auto, unfolding(crate::specs::Siblings::maybe))]
pub fn structure_if_any(items: &[Item], tag: u32) -> Result<Option<&[Item]>, MessageFault>
    // The tag has three bytes.
    requires { tag < 2 ^ 24 }
    ensures { Gives (λ o. option_map (λ s. views s.now) o) result
        (maybe as_structure tag (views items.now)) }
{
    match at_most_one(items, tag)? {
        None => Ok(None),
        Some(item) => match item.as_structure() {
            Some(items) => Ok(Some(items)),
            None => Err(MessageFault::WrongType(Tag::new(tag))),
        },
    }
}

/// The bytes of the Byte String with this tag, where there is one.
///
/// # Errors
/// `Twice` where it stands twice or more often, `WrongType` where it has another type.
#[tactic(auto, unfolding(crate::specs::Siblings::maybe))]
pub fn bytes_if_any(items: &[Item], tag: u32) -> Result<Option<&[u8]>, MessageFault>
    // The tag has three bytes.
    requires { tag < 2 ^ 24 }
    ensures { Gives (λ o. option_map (λ s. s.now) o) result
        (maybe as_byte_string tag (views items.now)) }
{
    match at_most_one(items, tag)? {
        None => Ok(None),
        Some(item) => match item.as_byte_string() {
            Some(bytes) => Ok(Some(bytes)),
            None => Err(MessageFault::WrongType(Tag::new(tag))),
        },
    }
}

/// A test, which passes where it holds.
///
/// # Errors
/// This fault, where the test fails.
pub fn check(test: bool, fault: MessageFault) -> Result<(), MessageFault>
    ensures { result ≡ guard fault test }
{
    if test { Ok(()) } else { Err(fault) }
}

/// A test that a value of the item with this tag is in its range, which passes where it holds.
///
/// # Errors
/// `OutOfRange` of this tag, where the test fails.
pub fn within(tag: u32, test: bool) -> Result<(), MessageFault>
    // The tag has three bytes.
    requires { tag < 2 ^ 24 }
    ensures { result ≡ within tag test }
{
    if test {
        Ok(())
    } else {
        Err(MessageFault::OutOfRange(Tag::new(tag)))
    }
}

/// A test that every item has one of these tags.
///
/// # Errors
/// `OutOfRange` of the tag of the first item that has none of these.
pub fn only(tags: &[u32], items: &[Item]) -> Result<(), MessageFault>
    ensures { result ≡ only tags.now (views items.now) }
{
    for item in items {
        let tag = item.tag();
        if !is_among(tag.number(), tags) {
            return Err(MessageFault::OutOfRange(tag));
        }
    }
    Ok(())
}

/// Whether the tag is one of these.
fn is_among(tag: u32, tags: &[u32]) -> bool
    ensures { result ≡ list_any (λ t. t == tag) tags.now }
{
    tags.iter().any(|t| *t == tag)
}
