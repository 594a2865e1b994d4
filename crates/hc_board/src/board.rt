//! The board: one post for each process, and what happens between them.

ghost use Rattle.std.specs.Prelude.{◌≡◌, ◌<◌, ◌≤◌, ◌↔◌, ℕ, IfOk, IsTrue, length, replicate, slice_set};
ghost use Rattle.hc_limits.specs.Limits.{most_processes, most_channels};
ghost use Rattle.hc_term.specs.Offers.{going_post};
ghost use Rattle.hc_term.specs.Posts.{first_meeting, passing_on};
ghost use Rattle.hc_term.specs.Moved.{fired};
ghost use Rattle.hc_board.specs.Seen.{KeepsLimits};
ghost use Rattle.hc_board.specs.Answers.{answer_of, after_delay, after_meeting};
ghost use Rattle.hc_board.specs.Able.{shows_able, least_from};
ghost use Rattle.hc_board.specs.Bits.{is_in};
ghost use Rattle.hc_board.specs.MeetingBoard.{IsReady};
ghost use Rattle.hc_board.specs.Index.{is_waiting, IsIndexOf};
ghost use Rattle.hc_board.specs.Deadlines.{AreDeadlinesOf};

use crate::able::wants_step;
use crate::deadlines::{Deadline, Deadlines};
use crate::delayed::Delayed;
use crate::delays::{move_all, passing};
use crate::index::Index;
use crate::meetings::least_meeting;
use hc_frac::Frac;
use hc_term::{Meeting, Phase, Post};
use std::alloc::{AllocError, Global};
use std::marker::Model;

/// What each process shows to the others, by the numbers of the processes: at most 64 posts, over at most 256 channels.
/// Beside them stand an index, so that ready channels, the processes that wait for time and those that want a silent step
/// are found without looking through them, and a list of the deadlines. Only `open` takes memory.
#[derive(Drop)]
pub struct Board {
    posts: Vec<Post>,
    channels: u32,
    index: Index,
    deadlines: Deadlines,
}

impl Model for Board {
    ghost use Rattle.hc_board.specs.Seen.{Seen};
    ghost use Rattle.hc_board.specs.Index.{IsKept};

    ghost Value = { Seen };

    ghost view = { λ b. record { posts = b.posts.items; channels = b.channels } };

    ghost invariant = { λ b. IsKept b.posts.items b.channels b.index b.deadlines.list.items };
}

impl Board {
    /// A board for so many processes, of which each is going, and so many channels.
    pub fn open(alloc: Global, processes: u32, channels: u32) -> Result<Board, AllocError>
        requires processes { processes ≤ most_processes }
        requires channels { channels ≤ most_channels }
        ensures { IfOk result (λ b. b ≡ record { posts = replicate processes going_post; channels = channels }) }
    {
        let posts = going_posts(alloc, processes)?;
        Ok(Board {
            posts,
            channels,
            index: Index::all_going(processes),
            deadlines: Deadlines::none(),
        })
    }

    /// The posts, by the numbers of the processes.
    pub fn posts(&self) -> &[Post]
        ensures posts { result.now ≡ self.now.posts }
        ensures limits { KeepsLimits self.now.posts self.now.channels }
    {
        self.posts.as_slice()
    }

    /// The ready channels, as bits: channel c is bit c mod 64 of word c / 64.
    pub fn ready(&self) -> &[u64; 4]
        ensures { (c : ℕ) → c < most_channels → IsTrue (is_in result.now c) ↔ IsReady c self.now.posts }
    {
        &self.index.ready
    }

    /// The deadlines: exactly one for each post whose `due` isn't `None`, ordered by moment and then process.
    pub fn deadlines(&self) -> &[Deadline]
        ensures { AreDeadlinesOf result.now self.now.posts }
    {
        self.deadlines.list.as_slice()
    }

    /// Whether there is a process of this number, and it wants a silent step: it is going, or its bound has run out.
    pub fn is_able(&self, process: u32) -> bool
        ensures { result ≡ shows_able self.now.posts process }
    {
        self.index.is_able(process)
    }

    /// The least process that wants a silent step, or `None` where no process wants one.
    pub fn least_able(&self) -> Option<u32>
        ensures { result ≡ least_from 0 self.now.posts }
    {
        self.index.least_able()
    }

    /// Replaces what a process shows.
    pub fn post(&mut self, process: u32, post: &Post)
        requires { process < length self.old.posts }
        ensures { self.new ≡ record self.old { posts = slice_set self.old.posts process post.now } }
    {
        replace(
            self.posts.as_mut_slice(),
            &mut self.index,
            &mut self.deadlines,
            process,
            post,
        );
    }

    /// Lets the two meet that offer both ends of a channel, of the ready channel with the least number: both are going
    /// then. `None` where no channel is ready.
    pub fn fire(&mut self) -> Option<Meeting>
        ensures met { result ≡ first_meeting self.old.channels self.old.posts }
        ensures after { self.new ≡ record self.old { posts = after_meeting result self.old.posts } }
    {
        let meeting = least_meeting(self.posts.as_slice(), &self.index, self.channels);
        if let Some(meeting) = &meeting {
            meet(
                self.posts.as_mut_slice(),
                &mut self.index,
                &mut self.deadlines,
                meeting,
            );
        }
        meeting
    }

    /// Lets time pass, up to the least bound or to the horizon, where some post waits for it and all working values fit.
    /// The clock and the horizon are in time units from the start of the run.
    pub fn delay(&mut self, clock: Frac, horizon: Frac) -> Delayed
        ensures answer { result ≡ answer_of (passing_on clock horizon self.old.posts) }
        ensures after { self.new ≡ record self.old { posts = after_delay result self.old.posts } }
    {
        let delayed = passing(self.posts.as_slice(), &self.index, clock, horizon);
        if let Delayed::Took(by) = &delayed {
            move_all(
                self.posts.as_mut_slice(),
                &mut self.index,
                &mut self.deadlines,
                *by,
            );
        }
        delayed
    }
}

/// So many posts of going processes.
fn going_posts(alloc: Global, count: u32) -> Result<Vec<Post>, AllocError>
    ensures { IfOk result (λ posts. posts.items ≡ replicate count going_post) }
{
    let mut posts = Vec::with_capacity(alloc, count as usize)?;
    for _made in 0..count {
        posts.push(Post::going())?;
    }
    Ok(posts)
}

/// Whether a process has a bound or evolves.
fn waits_for_time(post: &Post) -> bool
    ensures { result ≡ is_waiting post.now }
{
    post.bound.is_some() | !post.moving.as_slice().is_empty()
}

/// Makes the post of a process equal to this one.
fn replace(
    posts: &mut [Post],
    index: &mut Index,
    deadlines: &mut Deadlines,
    process: u32,
    post: &Post,
)
    requires there { process < length posts.old }
    requires within { length posts.old ≤ most_processes }
    requires index { IsIndexOf index.old posts.old }
    requires deadlines { AreDeadlinesOf deadlines.old.list.items posts.old }
    ensures posts { posts.new ≡ slice_set posts.old process post.now }
    ensures index { IsIndexOf index.new posts.new }
    ensures deadlines { AreDeadlinesOf deadlines.new.list.items posts.new }
{
    let shown = &mut posts[process as usize];
    index.mark_all(shown.offers.as_slice(), process, false);
    index.mark_all(post.offers.as_slice(), process, true);
    index.mark_state(process, waits_for_time(post), wants_step(post));
    deadlines.set(process, shown.due, post.due);
    post.copy_into(shown);
}

/// Shows that a process is going.
fn set_going(posts: &mut [Post], index: &mut Index, deadlines: &mut Deadlines, process: u32)
    requires there { process < length posts.old }
    requires within { length posts.old ≤ most_processes }
    requires index { IsIndexOf index.old posts.old }
    requires deadlines { AreDeadlinesOf deadlines.old.list.items posts.old }
    ensures posts { posts.new ≡ slice_set posts.old process going_post }
    ensures index { IsIndexOf index.new posts.new }
    ensures deadlines { AreDeadlinesOf deadlines.new.list.items posts.new }
{
    let post = &mut posts[process as usize];
    index.mark_all(post.offers.as_slice(), process, false);
    index.mark_state(process, false, true);
    deadlines.set(process, post.due, None);
    post.show(Phase::Going);
}

/// Shows that the two that met are going.
fn meet(posts: &mut [Post], index: &mut Index, deadlines: &mut Deadlines, meeting: &Meeting)
    requires sender { meeting.now.sender < length posts.old }
    requires receiver { meeting.now.receiver < length posts.old }
    requires within { length posts.old ≤ most_processes }
    requires index { IsIndexOf index.old posts.old }
    requires deadlines { AreDeadlinesOf deadlines.old.list.items posts.old }
    ensures posts { posts.new ≡ fired meeting.now posts.old }
    ensures index { IsIndexOf index.new posts.new }
    ensures deadlines { AreDeadlinesOf deadlines.new.list.items posts.new }
{
    set_going(posts, index, deadlines, meeting.sender);
    set_going(posts, index, deadlines, meeting.receiver);
}
