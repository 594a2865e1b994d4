//! Laws of the definitions.

ghost use Rattle.hc_cmd.specs.Laws.{AcceptedIsSized, ConversionIsNew, ExecutionIsScheduled, ListingIsBehaviour, MadeIsBehaviour, OneAcceptedSystem, OneAnswer, RunIsBehaviour, RunListsTheSame, SimulationIsBehaviour, VerifiedIsFirstPart, VerifiedIsOfBehaviour};

use hc_check::system_laws;
use hc_cmach::items;
use hc_cread::text_laws as c_text_laws;
use hc_det::channel_laws;
use hc_modules::tree_laws;
use hc_parse::text_laws;
use hc_term::step_laws;
use hc_trace::reading_laws;
use hc_verify::verdict_laws;

/// What holds of every text, and of every accepted one. It runs nothing but laws: the clauses are the laws.
pub fn acceptance_laws()
    ensures one_system { OneAcceptedSystem }
    ensures one_answer { OneAnswer }
    ensures sized { AcceptedIsSized }
    ensures simulated { SimulationIsBehaviour }
    ensures listed { ListingIsBehaviour }
    ensures converted { ConversionIsNew }
    ensures verified { VerifiedIsOfBehaviour }
    ensures verified_text { VerifiedIsFirstPart }
    ensures made { MadeIsBehaviour }
    ensures executed { ExecutionIsScheduled }
    ensures run { RunIsBehaviour }
    ensures no_schedule { RunListsTheSame }
{
    text_laws();
    tree_laws();
    system_laws();
    step_laws();
    channel_laws();
    reading_laws();
    verdict_laws();
    c_text_laws();
    items();
}
