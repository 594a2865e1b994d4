//! Laws of what is written.

ghost use Rattle.hc_cwrite.specs.Laws.{CanonicalIsUnit, SayableUnitsAreWritable, UnitsAreWritable};

/// What holds of the canonical spelling of every program that the grammar has, and which programs those are. There is nothing to
/// run: the clauses are the laws.
pub fn reading_back()
    ensures canonical_is_unit { CanonicalIsUnit }
    ensures units_are_writable { UnitsAreWritable }
    ensures sayable_units_are_writable { SayableUnitsAreWritable }
{}
