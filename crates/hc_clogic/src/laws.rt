//! Laws of private code and of sections.

ghost use Rattle.hc_clogic.specs.Laws.{PrivateCodeRunsAlone, SectionsAreKnownWithin, SectionsAreClosed};
ghost use Rattle.hc_clogic.specs.Told.{LinesAreOfTheirThread};

/// What holds of every program: of its code outside sections, of the states inside them, and of who printed a line. There is nothing to
/// run: the clauses are the laws.
pub fn thread_laws()
    ensures private { PrivateCodeRunsAlone }
    ensures within { SectionsAreKnownWithin }
    ensures closed { SectionsAreClosed }
    ensures lines { LinesAreOfTheirThread }
{}
