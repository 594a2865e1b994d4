//! The top calls.

ghost use Rattle.std.specs.Prelude.{◌≡◌, ◌≢◌, ◌⊎◌, map};
ghost use Rattle.std.specs.String.{string_bytes};
ghost use Rattle.hc_world.specs.Counts.{Rose};
ghost use Rattle.hc_words.specs.Order.{AreInOrder, AreRunInOrder};
ghost use Rattle.hc_cmd.specs.Answers.{answering};
ghost use Rattle.hc_cmd.specs.Calls.{AsksNothing, IsComplete, Replies};
ghost use Rattle.hc_cmd.specs.Reply.{Reply, Stands};
ghost use Rattle.hc_cmd.specs.Running.{running};

use crate::prepared::prepare;
use crate::replying::reply_with;
use crate::running::prepare_run;
use hc_run::Gate;
use hc_world::{Sink, Source};
use std::alloc::Global;
use std::sync::Wait;
use std::thread::Threads;

/// Does what the words ask for with the bytes of `source`, writes on `out` and `err`, and answers the
/// status of the program. All memory is taken before the first write. The action `run` isn't among its actions.
pub fn answer<S: Source, O: Sink, E: Sink>(
    alloc: Global,
    words: &Vec<String>,
    source: &mut S,
    out: &mut O,
    err: &mut E,
) -> u8
    // One reply that the words and the source give, and of it what stands on both sinks, with the status.
    ensures reply { (reply : Reply) × Replies answering S.state (map string_bytes words.now.items) source.old source.new reply
        × Stands O.state E.state out.old out.new err.old err.new reply result }
    // Words in order are never refused.
    ensures in_order { AreInOrder (map string_bytes words.now.items) → result ≢ 2 }
    // Where nothing is asked for, nothing is read; and only then the status is 2.
    ensures usage { result ≡ 2 → AsksNothing answering (map string_bytes words.now.items) × (source.new ≡ source.old) }
    ensures asks_nothing { AsksNothing answering (map string_bytes words.now.items) → (result ≡ 2) ⊎ (result ≡ 4) ⊎ (result ≡ 5) }
    // Faults are told where a count rose, and none is passed over.
    ensures read_fault { result ≡ 3 → Rose (S.state source.old).faults (S.state source.new).faults }
    ensures write_fault { result ≡ 4 → Rose (O.state out.old).faults (O.state out.new).faults ⊎ Rose (E.state err.old).faults (E.state err.new).faults }
    ensures counts { result ≢ 4 → ((O.state out.new).faults ≡ (O.state out.old).faults) × ((E.state err.new).faults ≡ (E.state err.old).faults) }
    // What is refused leaves output as it was.
    ensures no_output { (result ≡ 1) ⊎ (result ≡ 2) ⊎ (result ≡ 3) ⊎ (result ≡ 5) → out.new ≡ out.old }
    // What is asked for is done, where nothing fails.
    ensures complete { IsComplete answering S.state O.state E.state (map string_bytes words.now.items)
        source.old source.new out.old out.new err.old err.new result }
{
    reply_with(prepare(alloc, words, source), out, err)
}

/// Does the same for the action `run`, on threads: it makes the run that the words ask for, each worker passing the gate
/// before each stretch, and writes it. All memory is taken before the first write. It waits for threads.
pub fn answer_run<R: Threads + Wait + Sync, S: Source, O: Sink, E: Sink, G: Gate + Sync>(
    rt: &R,
    alloc: Global,
    words: &Vec<String>,
    source: &mut S,
    out: &mut O,
    err: &mut E,
    gate: &G,
) -> u8
    // One reply that the words and the source give, and of it what stands on both sinks, with the status.
    ensures reply { (reply : Reply) × Replies running S.state (map string_bytes words.now.items) source.old source.new reply
        × Stands O.state E.state out.old out.new err.old err.new reply result }
    // Words in order are never refused.
    ensures in_order { AreRunInOrder (map string_bytes words.now.items) → result ≢ 2 }
    // Where nothing is asked for, nothing is read; and only then the status is 2.
    ensures usage { result ≡ 2 → AsksNothing running (map string_bytes words.now.items) × (source.new ≡ source.old) }
    ensures asks_nothing { AsksNothing running (map string_bytes words.now.items) → (result ≡ 2) ⊎ (result ≡ 4) ⊎ (result ≡ 5) }
    // Faults are told where a count rose, and none is passed over.
    ensures read_fault { result ≡ 3 → Rose (S.state source.old).faults (S.state source.new).faults }
    ensures write_fault { result ≡ 4 → Rose (O.state out.old).faults (O.state out.new).faults ⊎ Rose (E.state err.old).faults (E.state err.new).faults }
    ensures counts { result ≢ 4 → ((O.state out.new).faults ≡ (O.state out.old).faults) × ((E.state err.new).faults ≡ (E.state err.old).faults) }
    // What is refused leaves output as it was.
    ensures no_output { (result ≡ 1) ⊎ (result ≡ 2) ⊎ (result ≡ 3) ⊎ (result ≡ 5) → out.new ≡ out.old }
    // What is asked for is done, where nothing fails.
    ensures complete { IsComplete running S.state O.state E.state (map string_bytes words.now.items)
        source.old source.new out.old out.new err.old err.new result }
{
    reply_with(prepare_run(rt, alloc, words, source, gate), out, err)
}
