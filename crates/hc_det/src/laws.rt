//! Laws of the definitions.

ghost use Rattle.hc_det.specs.Laws.{OneChannelsText};

/// What no schedule changes. There is nothing to run: the clause is the law.
pub fn channel_laws()
    ensures { OneChannelsText }
{}
