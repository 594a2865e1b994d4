//! Reading a whole text.

ghost use Rattle.std.specs.Prelude.{◌≡◌};
ghost use Rattle.hc_grammar.specs.Answers.{Accepted};
ghost use Rattle.hc_grammar.specs.Ends.{Ends};
ghost use Rattle.hc_grammar.specs.Language.{is_last};
ghost use Rattle.hc_grammar.specs.Refusals.{IsRefusedAt};
ghost use Rattle.hc_grammar.specs.Exact.{IsExact};
ghost use Rattle.hc_grammar.specs.Stops as spec;

use crate::language::{Fault, Reader};
use crate::reading::Reading;
use crate::source::Source;
use hc_frac::Place;
use std::alloc::Global;

/// Why there is no value.
#[derive(Debug, Drop)]
pub enum Stop<F> {
    /// The first token with which something is wrong stands at this place.
    Refused { flaw: F, place: Place },
    /// Memory ran out.
    Memory,
}

/// What the fault of a token at this place stops reading with.
fn stop_at<F>(place: Place, fault: Fault<F>) -> Stop<F>
    ensures { result ≡ spec.stop_at place fault }
{
    match fault {
        Fault::Flaw(flaw) => Stop::Refused { flaw, place },
        Fault::Memory => Stop::Memory,
    }
}

/// What stands behind a whole text, or the first place at which the text is refused, and why.
pub fn read<R: Reader + Drop, I: Source<R::Token>>(
    alloc: Global,
    reader: R,
    source: &mut I,
) -> Result<R, Stop<R::Flaw>>
    requires state { R.state reader ≡ R.language.opening }
    requires value { R.value reader ≡ R.language.blank }
    requires ended { Ends (is_last R.language) (I.left source.old) }
    ensures { IsExact R.value spec.told (Accepted R.language R.Is (I.left source.old))
        (IsRefusedAt R.language.reader R.Is R.language.opening R.place (I.left source.old)) result }
{
    let Ok(mut reading) = Reading::new(alloc, reader) else {
        return Err(Stop::Memory);
    };
    while let Some(token) = source.next() {
        let place = R::place(&token);
        if let Err(fault) = reading.take(alloc, token) {
            return Err(stop_at(place, fault));
        }
    }
    Ok(reading.reader)
}
