//! Laws of the canonical spelling.

ghost use Rattle.hc_print.specs.Readable.{CanonicalReadsBack, CanonicalForgetsPlaces};

/// What holds of the canonical spelling of every tree of a source, so that printing what was read
/// back gives the same bytes. There is nothing to run: the clauses are the laws.
pub fn reading_back()
    ensures reads_back { CanonicalReadsBack }
    ensures forgets_places { CanonicalForgetsPlaces }
{}
