//! Laws of the definitions.

ghost use Rattle.hc_parse.specs.Laws.{OneTree, OneRefusal, SourcesAreNotRefused, EveryTextIsOne};

/// What holds of all texts. There is nothing to run: the clauses are the laws.
pub fn text_laws()
    ensures one_tree { OneTree }
    ensures one_refusal { OneRefusal }
    ensures not_refused { SourcesAreNotRefused }
    ensures every_text { EveryTextIsOne }
{}
