//! Names of generated code.

ghost use Rattle.std.specs.Prelude.{◌≡◌, true};
ghost use Rattle.hc_cbuild.specs.Names.{is_name};

use hc_frac::Name;

/// A name that is known to be one.
#[tactic(auto, using(crate::proofs::Naming::word_of))]
pub fn word(bytes: &[u8]) -> Name
    requires { is_name bytes.now ≡ true }
    ensures { result ≡ bytes.now }
{
    match Name::new(bytes) {
        Some(name) => name,
        None => unreachable!(),
    }
}
