//! How a server breaks a premise.
use crate::attribute::Attribute;
use kmip_objects::Step;
use kmip_ttlv::Text;

/// How a server breaks a premise.
#[derive(Drop)]
pub enum Flaw {
    /// It has a second object of one name, with this identifier.
    SecondObject(Text),
    /// A step that was taken was taken again.
    StepTwice(Step),
    /// An active object was destroyed.
    ActiveDestroyed,
    /// A Locate of every state does not find an object by its name.
    NotFound,
    /// An attribute is not told.
    Missing(Attribute),
    /// An attribute is another than it was made with.
    Different(Attribute),
    /// Get Attributes is refused.
    Refused,
    /// A success has the id of no question.
    NoId,
}
