//! The law of the board.

ghost use Rattle.hc_board.specs.MeetingBoard.{EachIsMeetingBoard};

/// What meets, what a meeting leaves and how time passes on any posts, in the words of the language: the functions by which
/// the calls answer are exactly that. There is nothing to run: the clause is the law.
pub fn board_laws()
    ensures { EachIsMeetingBoard }
{}
