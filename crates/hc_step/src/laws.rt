//! Laws of codes.

ghost use Rattle.hc_step.specs.Laws.{RuledCodesAreUsable};

/// What holds of every code. There is nothing to run: the clause is the law.
pub fn code_laws()
    ensures usable { RuledCodesAreUsable }
{}
