//! The program as one call over a host.

ghost use Rattle.std.specs.Prelude.{◌≡◌, ◌≢◌, ◌<◌, ◌∷◌, [], ◌++◌, ◌↔◌, ℕ, length, map, take, string_bytes, Some, None, Contains, IfErr, IsTrue};
ghost use Rattle.fv_disk.specs.HostCalls.{Rests};
ghost use Rattle.fv_model.specs.Lines.{lines};
ghost use Rattle.fv_model.specs.Machines.{empty_machine};
ghost use Rattle.fv_model.specs.Runs.{Says};
ghost use Rattle.fv_model.specs.Texts.{done_text};
ghost use Rattle.fv_reference_run.specs.Meaning.{meaning};
ghost use Rattle.fv_script.specs.Generated.{generated};
ghost use Rattle.fv_saying.specs.Saying.{script_text};
ghost use Rattle.fv_reference_run.specs.Output.{output};
ghost use Rattle.fv_script.specs.Telling.{Tells, unnamed};
ghost use Rattle.fv_lines.specs.Counts.{Counts, told_by};
ghost use Rattle.fv_reference_run.specs.declared.ending.Fault.TheVariants.{Sink};
ghost use Rattle.fv_reference_run.specs.Running.{Asked, Prints, Runs, Steps};

use crate::answering::answer;
use crate::ending::Fault;
use crate::words::{Order, read_words};
use fv_disk::{Failed, Host};
use fv_lines::{Found, Script, next_line};
use fv_reference::Machine;
use fv_saying::write_generated;
use fv_script::write_done;
use std::alloc::Global;

/// With the words `BLOCKS`, from 512 to 1,048,576, it answers the script in the host's source: each line is applied to a fresh machine
/// of so many blocks, and its reply is given before the next line is applied; then the number of replies is given. With
/// `gen SEED COUNT`, a seed below 2^64 and at most 1,000,000 drawn commands, it gives the script of that seed, a line for each command,
/// and takes nothing of the source.
///
/// The status is 0 where all was done, 3 where the source failed, 4 where the sink failed, 6 where there was no memory for a command,
/// and 7 where the words have no meaning. `docs/MACHINE.md` tells of the script's language. To `probe` in a volume that isn't known the
/// line is `?`, since the machine leaves the number open. It touches no block of the disk, holds a line of at
/// most 9001 bytes and a piece of the script beside the machine, and costs for each line what
/// `Machine::apply` does.
#[tactic(auto, using(fv_saying::proofs::ReadsBack::reads_back))]
pub fn reference<H: Host>(alloc: Global, words: &[String], host: &mut H) -> u8
    ensures statuses { Contains (0 ∷ 3 ∷ 4 ∷ 6 ∷ 7 ∷ []) result }
    ensures usage { (result ≡ 7) ↔ (meaning (map string_bytes words.now) ≡ None) }
    ensures untouched { meaning (map string_bytes words.now) ≡ None → host.new ≡ host.old }

    // 3 raises the source's count of faults, 4 the sink's, and no status raises another count. So without a
    // fault of either only memory can be wanting.
    ensures counts { Counts (H.shown host.old) (H.shown host.new) (told_by result) }

    // Of a host that tells its content: at 0 exactly the machine's replies to the script's lines were given and
    // then their number, and at every other exit a prefix of that, and never the whole.
    ensures answered { (blocks : ℕ) → meaning (map string_bytes words.now) ≡ Some (Order.Answer blocks)
        → IsTrue (H.shown host.old).tells → result ≡ 0
        → (H.shown host.new).given ≡ (H.shown host.old).given ++ output (empty_machine blocks) (lines (H.shown host.old).ends.left) }
    ensures partly { (blocks : ℕ) → meaning (map string_bytes words.now) ≡ Some (Order.Answer blocks)
        → IsTrue (H.shown host.old).tells → result ≢ 0
        → (k : ℕ) × (k < length (output (empty_machine blocks) (lines (H.shown host.old).ends.left)))
        × ((H.shown host.new).given ≡ (H.shown host.old).given ++ take k (output (empty_machine blocks) (lines (H.shown host.old).ends.left))) }

    // Of a host that tells its content: at 0 exactly the text of the seed's script was given, and at every other exit a prefix of that,
    // and never the whole. Nothing of the source is taken. Read as a script that text has just the seed's commands.
    ensures printed { (seed : ℕ) → (count : ℕ) → meaning (map string_bytes words.now) ≡ Some (Order.Gen seed count)
        → IsTrue (H.shown host.old).tells → result ≡ 0
        → (H.shown host.new).given ≡ (H.shown host.old).given ++ script_text (generated seed count) }
    ensures cut { (seed : ℕ) → (count : ℕ) → meaning (map string_bytes words.now) ≡ Some (Order.Gen seed count)
        → IsTrue (H.shown host.old).tells → result ≢ 0
        → (k : ℕ) × (k < length (script_text (generated seed count)))
        × ((H.shown host.new).given ≡ (H.shown host.old).given ++ take k (script_text (generated seed count))) }
    ensures left { (seed : ℕ) → (count : ℕ) → meaning (map string_bytes words.now) ≡ Some (Order.Gen seed count)
        → (H.shown host.new).ends.left ≡ (H.shown host.old).ends.left }
    ensures reads { (seed : ℕ) → (count : ℕ) → lines (script_text (generated seed count)) ≡ map Says (generated seed count) }

    // The disk and its counts stay as they were.
    ensures disk { Rests (H.shown host.old) (H.shown host.new) }
{
    match run(alloc, words, host) {
        Ok(()) => 0,
        Err(fault) => fault.status(),
    }
}

#[tactic(auto, using(crate::proofs::Told::asks_nothing, crate::proofs::Told::asks_blocks, crate::proofs::Told::asks_gen))]
fn run<H: Host>(alloc: Global, words: &[String], host: &mut H) -> Result<(), Fault>
    ensures runs { Asked (meaning (map string_bytes words.now)) (H.shown host.old) (H.shown host.new) result }
    ensures untouched { meaning (map string_bytes words.now) ≡ None → host.new ≡ host.old }
{
    match read_words(words) {
        Ok(Order::Answer { blocks }) => answer_script(alloc, blocks, host),
        Ok(Order::Gen { seed, count }) => print(seed, count, host),
        Err(_) => Err(Fault::Usage),
    }
}

#[tactic(auto, using(crate::proofs::Stepped::stands_first, crate::proofs::Stepped::stands_next, crate::proofs::Stepped::stops, crate::proofs::Stepped::ends, crate::proofs::Stepped::too_many))]
fn answer_script<H: Host>(alloc: Global, blocks: u32, host: &mut H) -> Result<(), Fault>
    ensures { Runs (empty_machine blocks) (lines (H.shown host.old).ends.left) (H.shown host.old) (H.shown host.new) result }
{
    let mut machine = Machine::new(alloc, blocks);
    let mut script = Script::new(u64::MAX);
    for count in 0..u64::MAX {
        match step(alloc, &mut machine, &mut script, host)? {
            Turn::Answered => {}
            Turn::Ended => return tell_count(count, host),
        }
    }
    Err(Fault::Memory)
}

/// Gives out the script of a seed.
fn print<H: Host>(seed: u64, count: u32, host: &mut H) -> Result<(), Fault>
    ensures { Prints seed count (H.shown host.old) (H.shown host.new) result }
{
    match write_generated(seed, count, host) {
        Ok(()) => Ok(()),
        Err(Failed) => Err(Fault::Sink),
    }
}

/// What became of the next line of a script.
#[derive(Clone, Copy, Debug, PartialEq, Eq)]
enum Turn {
    /// It was answered.
    Answered,
    /// There is none.
    Ended,
}

/// Answers the next line of the script, if there is one. More bytes than can be counted want more memory
/// than there can be.
#[tactic(auto, using(crate::proofs::Stepped::step_ended, crate::proofs::Stepped::step_failed, crate::proofs::Stepped::step_past, crate::proofs::Stepped::step_answered, crate::proofs::Stepped::step_unanswered))]
fn step<H: Host>(
    alloc: Global,
    machine: &mut Machine,
    script: &mut Script,
    host: &mut H,
) -> Result<Turn, Fault>
    ensures { Steps machine.old script.old (H.shown host.old) machine.new script.new (H.shown host.new) result }
{
    let Ok(found) = next_line(script, host) else {
        return Err(Fault::Source);
    };
    match found {
        Found::End => Ok(Turn::Ended),
        Found::PastLimit => Err(Fault::Memory),
        Found::Line => {
            answer(alloc, machine, script.line(), host)?;
            Ok(Turn::Answered)
        }
    }
}

/// Gives out the last line: it tells how many lines were answered.
fn tell_count<H: Host>(count: u64, host: &mut H) -> Result<(), Fault>
    ensures tells { Tells (H.shown host.old) (done_text count) (H.shown host.new) (unnamed result) }
    ensures sink { IfErr result (λ fault. fault ≡ Sink) }
{
    match write_done(count, host) {
        Ok(()) => Ok(()),
        Err(Failed) => Err(Fault::Sink),
    }
}
