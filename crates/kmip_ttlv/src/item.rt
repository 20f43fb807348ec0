//! Items and their values.

use crate::tag::Tag;
use crate::value::Value;

/// A tag with a value.
///
/// Source: KMIP 2.1, TTLV Encoding.
#[derive(Drop)]
#[cycle(item)]
pub struct Item {
    pub tag: Tag,
    pub value: Value,
}
