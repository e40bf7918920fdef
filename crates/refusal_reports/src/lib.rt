//! Refusals that are reported are decoding's own. The law is the contract of a function that does nothing.
#![tactic(auto)]

ghost use Rattle.refusal_reports.specs.Reports.{FactsAreDecoded};

/// The facts of packets report decoding's own refusals: which packets are accepted, which are refused and for which cause,
/// and which are lost with an earlier one.
pub fn facts_are_decoded()
    ensures { FactsAreDecoded }
{
    frame_header::laws::outlines_are_headers();
}
