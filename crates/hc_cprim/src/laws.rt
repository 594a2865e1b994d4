//! Laws of the definitions.

ghost use Rattle.hc_cprim.specs.Laws.{FormulasAreWorthTheSame, ListsAreWorthTheSame};

/// What holds of formulas. There is nothing to run: the clauses are the laws.
pub fn formulas()
    ensures one { FormulasAreWorthTheSame }
    ensures several { ListsAreWorthTheSame }
{}
