ghost use Rattle.hc_grammar.specs.Answers.{ReadsExactly, HaveOneText};
ghost use Rattle.hc_grammar.specs.OneAnswer.{HasOneAnswer};

use crate::language::Reader;

/// Of a language whose next token alone always decides how a text goes on, the machine reads
/// exactly the texts, and stops at exactly the first refusal.
pub fn reads_exactly<K, H, A, B, T, S, R, V>()
    ensures { ReadsExactly K H A B T S R V }
{}

/// In such a language the same tokens never make two texts.
pub fn have_one_text<K, H, A, B, T, S, R, V>()
    ensures { HaveOneText K H A B T S R V }
{}

/// To all tokens that a last one ends there is one answer, their value or their first refusal.
pub fn has_one_answer<R: Reader>()
    ensures { HasOneAnswer R.language R.Is }
{}
