//! Laws of the definitions.

ghost use Rattle.hc_modules.specs.Laws.{OneExpansion, OneRefusal, ExpandedIsNotRefused, EveryTreeIsOne};
ghost use Rattle.hc_modules.specs.Well.{FlatsAreWell};

/// What holds of all trees. There is nothing to run: the clauses are the laws.
pub fn tree_laws()
    ensures one_expansion { OneExpansion }
    ensures one_refusal { OneRefusal }
    ensures not_refused { ExpandedIsNotRefused }
    ensures every_tree { EveryTreeIsOne }
{}

/// What holds of every expansion of a tree that the grammar has. There is nothing to run: the clause is the law.
pub fn expansion_laws()
    ensures well { FlatsAreWell }
{}
