//! What a probe finds of each premise, and the reasons of the refusals.
use crate::finding::Finding;

/// What a probe finds of each premise, and the reasons of the refusals.
#[derive(Drop)]
pub struct Findings {
    /// No second object is made of a used name.
    pub names_are_unique: Finding,
    /// Nor of the name of a destroyed object.
    pub names_stay_used: Finding,
    /// A step that was taken is refused when it is asked again.
    pub steps_count_once: Finding,
    /// A Destroy of an active object is refused.
    pub active_is_kept: Finding,
    /// A Locate of every state finds an object by its name.
    pub objects_are_found: Finding,
    /// And a destroyed one.
    pub destroyed_are_found: Finding,
    /// Get Attributes tells all six attributes.
    pub attributes_are_told: Finding,
    /// Each success has the id of its question.
    pub ids_are_echoed: Finding,
    /// The reasons of refusals, each once; they decide nothing.
    pub reasons: Vec<u32>,
}
