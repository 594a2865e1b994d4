//! Whether all processes have ended: all that is needed for it stands in what they show.

ghost use Rattle.std.specs.Prelude.{◌≡◌};
ghost use Rattle.std.specs.List.{list_all};
ghost use Rattle.hc_member.specs.Ended.{is_ended};

use hc_term::{Phase, Post};

/// Whether a process has ended.
fn has_ended(post: &Post) -> bool
    ensures { result ≡ is_ended post.now.phase }
{
    match post.phase {
        Phase::Ended => true,
        _ => false,
    }
}

/// Whether all processes that show these posts have ended.
pub fn are_ended(posts: &[Post]) -> bool
    ensures { result ≡ list_all (λ p. is_ended p.phase) posts.now }
{
    for post in posts {
        if !has_ended(post) {
            return false;
        }
    }
    true
}
