//! Laws of the definitions.

ghost use Rattle.hc_cthreads.specs.Laws.{SectionsLead};

/// What holds of every section's outcome. There is nothing to run: the clause is the law.
pub fn section_laws()
    ensures { SectionsLead }
{}
