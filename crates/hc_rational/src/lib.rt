//! Rational numbers of any size, for contracts: definitions and their laws, and no code that does
//! anything.
#![tactic(auto)]

ghost use Rattle.hc_rational.specs.Laws.{AreQuotients, AreField, AreOrdered, AreCompared};

/// The laws of the rational numbers. A call does nothing.
pub fn rationals()
    ensures quotients { AreQuotients }
    ensures field { AreField }
    ensures order { AreOrdered }
    ensures compared { AreCompared }
{}
