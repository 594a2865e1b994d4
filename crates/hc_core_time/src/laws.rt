//! Laws of time in one pass.

ghost use Rattle.hc_core_time.specs.Time.{TimeInFractions, FractionsAreNeeded};

/// What time does of a pass, and why the numbers that posts show must be fractions. There is nothing to run: the clauses are the laws.
pub fn time_laws()
    ensures time { TimeInFractions }
    ensures needed { FractionsAreNeeded }
{}
