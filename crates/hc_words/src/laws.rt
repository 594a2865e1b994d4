//! Laws of the definitions.

ghost use Rattle.hc_words.specs.Laws.{InOrderAsk, OneRequest, OneRun, RunInOrderAsks};

/// What holds of the words of every call. There is nothing to run: the clauses are the laws.
pub fn call_laws()
    ensures one_request { OneRequest }
    ensures in_order { InOrderAsk }
    ensures one_run { OneRun }
    ensures run_in_order { RunInOrderAsks }
{}
