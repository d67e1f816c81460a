//! Laws of the answers. A law is a function without parameters that does nothing: its contract is what is proved.

ghost use Rattle.ucon_client.specs.Laws.{AreStopped, FaultsAreMarked};

/// The answer is `disk fault` exactly where the mark was appended.
pub fn faults_are_marked()
    ensures { FaultsAreMarked }
{}

/// A line of a client that has seen a mark is stopped.
pub fn a_seen_mark_stops()
    ensures { AreStopped }
{}
