//! What holds of clients of several plans at once, where the newest plan prolongs each.
//!
//! Each law is the contract of a function that does nothing.
ghost use Rattle.kmip_company.specs.MixedLaws.{
  MixedCompaniesAreSafe,
  MixedCompaniesPassAmid,
  MixedEventsKeepTheGood,
  MixedEventsKeepTheImage,
  MixedGoodIsSafe,
  MixedNobodyIsGood,
  MixedOlderAreGood,
};

use crate::laws::the_laws_below_hold;

/// Clients of a plan may live beside clients of each plan that it prolongs. Whatever occurs, what is promised
/// of clients of one plan holds of the newest. But a conflict may be found where the newest plan takes a key
/// further. That conflict is of the state of the object alone.
pub fn mixed_companies_are_safe()
    ensures { MixedCompaniesAreSafe }
{
    the_laws_below_hold(); // proof
}

/// What is kept by whatever occurs among clients of several plans.
pub fn mixed_companies_stay_good()
    // Where the past is sound, a company of nobody is good.
    ensures begin { MixedNobodyIsGood }
    // Where the past is sound, a good company of an older plan is good too.
    ensures older { MixedOlderAreGood }
    // A good company is good after any events, and the objects have gone onward.
    ensures good { MixedEventsKeepTheGood }
    // The past of a good company that is an image of the plan machine is one still.
    ensures image { MixedEventsKeepTheImage }
    // A good company is safe, where its past is an image of the plan machine.
    ensures safe { MixedGoodIsSafe }
{
    the_laws_below_hold(); // proof
}

/// What such clients do is what others may do over a link of the newest plan. So what a run promises there
/// holds while clients of older plans ask.
pub fn mixed_companies_pass_amid()
    ensures { MixedCompaniesPassAmid }
{
    the_laws_below_hold(); // proof
}
