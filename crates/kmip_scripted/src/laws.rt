//! What holds of links in memory and of the runs of their scripts, as the contracts of functions that
//! do nothing.
ghost use Rattle.std.specs.Prelude.{◌≡◌, []};
ghost use Rattle.kmip_protocol.specs.Past.{Names};
ghost use Rattle.kmip_scripted.specs.Laws.{CrashesChangeNoRun, EndsStay, HeadsMakeNoRun, RunsGoOn};
ghost use Rattle.kmip_scripted.specs.Scenes.{Scene, disturbances_in, past_in};

use crate::scripted::Scripted;
use kmip_protocol::Link;
use kmip_server::Records;

/// The runs of a script are those that a link which follows it ends, one by one. A law, which does
/// nothing.
pub fn runs_end_as_the_link_does()
    // A new link has the words from the first run on. To leave out what makes no run changes nothing but
    // what the first run begins with.
    ensures heads { HeadsMakeNoRun }
    // Where a word ends the first run, the link has the words of the runs after it once this run has
    // ended.
    ensures goes_on { RunsGoOn }
    // An exchange takes no word beyond the end of the run. So the words after it are the same however
    // many exchanges the run made.
    ensures stay { EndsStay }
{}

/// To say which crash ends a run changes no run. A law, which does nothing.
pub fn crashes_change_no_run()
    // The runs that are told with their crashes are those that are told without.
    ensures { CrashesChangeNoRun }
{}

/// What a link in memory is as a `Link`, whatever its script. A law, which does nothing.
pub fn a_link_in_memory_is_honest<S: Records>()
    // It is honest for any names.
    ensures honest { (link : Scene) (names : Names)
        → (⟦<Scripted<S> as Link>⟧.seen link).honest names }
    // It is calm for any names once no word is left.
    ensures calm { (link : Scene) (names : Names) → link.words ≡ []
        → (⟦<Scripted<S> as Link>⟧.seen link).calm names }
    // What has happened over it is what its lists say.
    ensures past { (link : Scene) → (⟦<Scripted<S> as Link>⟧.seen link).past ≡ past_in link }
    // Where runs ended over it is what its list of ends says.
    ensures ended { (link : Scene) → (⟦<Scripted<S> as Link>⟧.seen link).ended ≡ link.ended }
    // How many exchanges were disturbed is what its counts say.
    ensures disturbed { (link : Scene)
        → (⟦<Scripted<S> as Link>⟧.seen link).disturbances ≡ disturbances_in link }
{}
