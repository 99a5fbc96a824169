//! The program as one call over a host.

ghost use Rattle.std.specs.Prelude.{◌≡◌, ◌∷◌, [], ◌↔◌, ℕ, map, string_bytes, Some, None, Contains};
ghost use Rattle.fv_lines.specs.Counts.{Counts, told_by};
ghost use Rattle.fv_run.specs.Meaning.{meaning};
ghost use Rattle.fv_run.specs.Checking.{IsCheck};
ghost use Rattle.fv_run.specs.Creating.{IsCreation};
ghost use Rattle.fv_run.specs.Generating.{IsGeneration};
ghost use Rattle.fv_run.specs.Running.{IsRun};
ghost use Rattle.fv_run.specs.Statuses.{Runs, most_bytes};

use crate::checking::check;
use crate::create::create;
use crate::ending::Fault;
use crate::generating::generate;
use crate::running::run;
use crate::words::{Order, read_words};
use fv_disk::Host;
use std::alloc::Global;

/// The most bytes of a script.
const MOST_BYTES: u64 = 4_294_967_296;

/// Does all that the program does with the words of its command line after the file's name, over the
/// host that it is handed, and answers the status that the program ends with.
///
/// `create BLOCKS` makes a new aggregate of so many blocks, from 512 to 1,048,576, over whatever the
/// disk holds, and then gives the line `created BLOCKS capacity CAPACITY`. The status is 0 where all was
/// done, 4 where the sink failed, and 5 where the disk failed. It takes no memory, and costs by one write
/// for each fixed block and each block of a map area.
///
/// `run` is `run_script` with a limit of 4,294,967,296 bytes.
///
/// `check` reads the aggregate that the disk has, whatever it holds, and writes nothing. Where it is sound it gives
/// `valid volumes N charged C`, with the sum of what the volumes are charged, in blocks; otherwise a line `fault RULE BLOCK WANT FOUND` for
/// each fault, in their order, BLOCK decimal, WANT and FOUND in 16 hexadecimal digits. The status is 0 or 1 then, 2 where block 0 is no
/// superblock or neither gate is open, 4 where the sink failed, 5 where a read failed, and 6 where memory ran out; at 2, 5 and 6 it has
/// given nothing. It costs three walks along the pointers of each table, and takes memory by the blocks of the aggregate and the numbers of
/// its volumes.
///
/// `gen SEED COUNT` is `run_generated`, with a seed below 2^64 and at most 1,000,000 drawn commands.
///
/// The status is 7 where the words have no meaning. `docs/MACHINE.md` tells of the words and the statuses.
pub fn flexvol<H: Host>(alloc: Global, words: &[String], host: &mut H) -> u8
    ensures statuses { Contains (0 ∷ 1 ∷ 2 ∷ 3 ∷ 4 ∷ 5 ∷ 6 ∷ 7 ∷ 8 ∷ 9 ∷ []) result }
    ensures usage { (result ≡ 7) ↔ (meaning (map string_bytes words.now) ≡ None) }
    ensures untouched { meaning (map string_bytes words.now) ≡ None → host.new ≡ host.old }

    // 3, 4 and 5 come only where a count of faults rose in this call, and no other count rose.
    ensures counts { Counts (H.shown host.old) (H.shown host.new) (told_by result) }

    // A script is run on the aggregate that the disk has: the replies, the crashes, the end and the causes.
    ensures run { meaning (map string_bytes words.now) ≡ Some Order.Run → IsRun most_bytes (H.shown host.old) (H.shown host.new) result }

    // A new aggregate is made, and told of once it stands.
    ensures create { (blocks : ℕ) → meaning (map string_bytes words.now) ≡ Some (Order.Create blocks)
        → IsCreation blocks (H.shown host.old) (H.shown host.new) result }

    // The aggregate is checked: 0 and its line where it is sound, 1 and its fault lines where it isn't, and nothing is written.
    ensures checks { meaning (map string_bytes words.now) ≡ Some Order.Check → IsCheck (H.shown host.old) (H.shown host.new) result }

    // The script of a seed is run on the aggregate that the disk has, and told of in one line.
    ensures generates { (seed : ℕ) → (count : ℕ) → meaning (map string_bytes words.now) ≡ Some (Order.Gen seed count)
        → IsGeneration seed count (H.shown host.old) (H.shown host.new) result }
{
    match obey(alloc, words, host) {
        Ok(()) => 0,
        Err(fault) => fault.status(),
    }
}

#[tactic(auto, using(crate::proofs::Asked::order_laws))]
fn obey<H: Host>(alloc: Global, words: &[String], host: &mut H) -> Result<(), Fault>
    ensures runs { Runs (meaning (map string_bytes words.now)) (H.shown host.old) (H.shown host.new) result }
    ensures untouched { meaning (map string_bytes words.now) ≡ None → host.new ≡ host.old }
{
    match read_words(words) {
        Ok(Order::Create { blocks }) => create(host, blocks),
        Ok(Order::Run) => run(alloc, host, MOST_BYTES),
        Ok(Order::Check) => check(alloc, host),
        Ok(Order::Gen { seed, count }) => generate(alloc, host, seed, count),
        Err(_) => Err(Fault::Usage),
    }
}
