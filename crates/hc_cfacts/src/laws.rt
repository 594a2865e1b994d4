//! Laws of programs.

ghost use Rattle.hc_cfacts.specs.Laws.{ProgramsCallBack, ProgramsKeepLimits};

/// What every program of the subset of C keeps. There is nothing to run: the clauses are the laws.
pub fn program_laws()
    ensures calls { ProgramsCallBack }
    ensures limits { ProgramsKeepLimits }
{}
