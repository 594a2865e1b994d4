//! Laws of traces made new.

ghost use Rattle.hc_upgrade.specs.Laws.{UpgradedIsTrace};

/// What holds of every trace that is made new. There is nothing to run: the clause is the law.
pub fn upgrade_laws()
    ensures { UpgradedIsTrace }
{}
