//! Laws of this code.

ghost use Rattle.hc_cvalue.specs.Laws.{ValuesAreCoded, TestsAreCoded, LinesAreCoded};
ghost use Rattle.hc_cvalue.specs.Sizes.{ValuesAreShort, TestsAreShort, LinesAreShort};

/// What the code of expressions, conditions and lines does in a thread's private code, and how many statements it has. There is nothing to run: the clauses are the laws.
pub fn code_laws()
    ensures values { ValuesAreCoded }
    ensures tests { TestsAreCoded }
    ensures lines { LinesAreCoded }
    ensures short_values { ValuesAreShort }
    ensures short_tests { TestsAreShort }
    ensures short_lines { LinesAreShort }
{}
