//! What holds of every look, as contracts of functions that do nothing.
ghost use Rattle.kmip_look.specs.Laws.{LooksAloneDoNothing, LooksChangeNothing};

/// A Locate and a Get Attributes change no object, whatever they are answered.
pub fn looks_change_nothing()
    ensures { LooksChangeNothing }
{}

/// Where each request that was ever asked is a look, whatever happens beside some names leaves the effects
/// as they are, and the objects of these names.
pub fn looks_alone_do_nothing()
    ensures { LooksAloneDoNothing }
{}
