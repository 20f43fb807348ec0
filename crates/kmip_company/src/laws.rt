//! What holds of any company, each as the contract of a function that does nothing.
ghost use Rattle.kmip_company.specs.PrivateLawbook.{Lawbook};
ghost use Rattle.kmip_company.specs.Laws.{
  AnyCompanyIsSafe,
  ClientsAreReady,
  CompaniesPassAmid,
  EventsKeepTheGood,
  EventsKeepTheImage,
  GoodIsSafe,
  LessonsCommute,
  LessonsMayComeLater,
  NobodyIsGood,
  NobodyIsKept,
  OthersSpareClients,
  RunsAreActs,
  RunsMayOccur,
  TurnsAreActs,
  TurnsMayOccur,
  WhatIsJustifiedStays,
  WhatIsLeftIsPaid,
  WhatIsSavedSuits,
  WhatWasAskedMayBe,
  WhoHasNothingLeftIsFinished,
};

use kmip_client::laws::the_laws_of_clients_hold;
use kmip_messages::laws::the_laws_of_messages_hold;
use kmip_plan::laws::the_laws_of_plans_hold;
use kmip_protocol::amid_laws::the_laws_amid_others_hold;
use kmip_protocol::laws::the_laws_of_exchanges_hold;
use kmip_protocol::losing_laws::the_laws_of_losing_hold;
use kmip_protocol::settling_laws::the_laws_of_settling_hold;

/// The laws of the crates below hold.
pub(crate) fn the_laws_below_hold()
    ensures { Lawbook }
{
    the_laws_of_plans_hold(); // proof
    the_laws_of_messages_hold(); // proof
    the_laws_of_clients_hold(); // proof
    the_laws_of_exchanges_hold(); // proof
    the_laws_amid_others_hold(); // proof
    the_laws_of_settling_hold(); // proof
    the_laws_of_losing_hold(); // proof
}

/// Any number of clients of one plan may live at once. Whatever they, the network and the server do, from
/// where nothing of the plan has happened: the headline holds, of all that any of them ever reported or saved,
/// what happened is an image of the plan machine, and no client finds a conflict.
pub fn any_company_is_safe()
    ensures { AnyCompanyIsSafe }
{
    the_laws_below_hold(); // proof
}

/// What is kept by whatever occurs in a company.
pub fn good_companies_stay_good()
    // Where the past is sound, a company of nobody is good.
    ensures begin { NobodyIsGood }
    // A good company is good after any events, and the objects have gone onward.
    ensures good { EventsKeepTheGood }
    // The past of a good company that is an image of the plan machine is one still.
    ensures image { EventsKeepTheImage }
    // A good company is safe, where its past is an image of the plan machine.
    ensures safe { GoodIsSafe }
    // What anybody of a good company saved suits the plan, so that a client may begin from it.
    ensures suits { WhatIsSavedSuits }
    // Whatever was asked by anybody may be asked still, or is outside the plan.
    ensures justified { WhatWasAskedMayBe }
    // If nothing was ever asked outside the plan, whatever was asked may be asked still after any events.
    ensures unlooked { WhatIsJustifiedStays }
    // With room for the objects that are missing, each client is ready to come to its end over a calm link.
    ensures ready { ClientsAreReady }
{
    the_laws_below_hold(); // proof
}

/// What a client does in its turns is a list of events of a company at its place, whatever else occurs before and
/// after it.
pub fn runs_are_acts()
    // A turn is one: it asks its message, and learns from an answer or that none came.
    ensures turn { TurnsAreActs }
    // So is a run, whose turns `drive` promises.
    ensures run { RunsAreActs }
    // Over an honest link these events may occur, with what the network and the server do meanwhile.
    ensures turn_may_occur { TurnsMayOccur }
    // So may those of a run, whose exchanges `drive` promises.
    ensures run_may_occur { RunsMayOccur }
{}

/// What the events at one place are to those at another.
pub fn places_are_independent()
    // What others do leaves a client as it is, and so its next question too.
    ensures spared { OthersSpareClients }
    // What a client learns may come after what another does, or the network or the server.
    ensures later { LessonsMayComeLater }
    // The company is then the same.
    ensures same { LessonsCommute }
{}

/// What a good company does between two moments may pass over a link that is honest among others of the plan. So what
/// `drive`, `campaign` and `carry_out` promise where all is good holds of each of several that run at once.
pub fn companies_pass_amid()
    ensures { CompaniesPassAmid }
{
    the_laws_below_hold(); // proof
}

/// Nobody is kept from its end by others of its plan, whatever they ask and whatever arrives meanwhile. Each exchange
/// of its own stands in one piece there.
pub fn nobody_is_kept_from_its_end()
    // The exchanges that went well, and those that may be left, are no more than were left before, and what the
    // others cost.
    ensures paid { WhatIsLeftIsPaid }
    // From where nothing of the plan has happened that is at most twice the plan's bound, and this cost.
    ensures bounded { NobodyIsKept }
    // Once nothing is left for it, each of its keys is finished.
    ensures finished { WhoHasNothingLeftIsFinished }
{
    the_laws_below_hold(); // proof
}
