//! Laws of the core's C.

ghost use Rattle.hc_core_c.specs.Limits.{CoreIsSmall};

/// How many functions and arrays the core has. There is nothing to run: the clause is the law.
pub fn core_laws()
    ensures { CoreIsSmall }
{}
