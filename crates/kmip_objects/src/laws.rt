//! What holds of objects that are found, that come, and that change their state.
ghost use Rattle.kmip_objects.specs.ObjectLaws.{ObjectLaws};

/// What holds of all objects, one law a field. It does nothing.
pub fn the_laws_of_objects_hold()
    ensures { ObjectLaws }
{}
