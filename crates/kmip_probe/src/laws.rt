//! What holds of every probe, as contracts of functions that do nothing.
ghost use Rattle.kmip_probe.specs.Laws.{ProfileKeepsAll, QuestionsStandAtTheirPlaces};

/// By the answers of a server of the profile, question by question, each premise is kept.
pub fn the_profile_keeps_all()
    ensures { ProfileKeepsAll }
{}

/// Each question stands at the place that it names.
pub fn questions_stand_at_their_places()
    ensures { QuestionsStandAtTheirPlaces }
{}
