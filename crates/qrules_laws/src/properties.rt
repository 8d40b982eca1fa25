//! The six properties of every valid history.

ghost use Rattle.qrules_laws.specs.Properties.{PropertiesHold};

/// Each valid history has the six properties: received once, answered to its own sender, copied exactly, best
/// first, sent order, and shut for good.
#[tactic(auto, using(qrules::proofs::Traces::Properties::All::has_properties))]
pub fn properties_hold()
    ensures { PropertiesHold }
{}
