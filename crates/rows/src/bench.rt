//! What a case works with.

use crate::course::{Course, no_course};
use fv_memdisk::MemHost;
use std::alloc::Global;

/// The disk of a case, the plain machine for which it stands, and its last run.
#[derive(Drop)]
pub struct Bench {
    pub alloc: Global,
    pub cases: u64,
    pub runs: u64,
    /// Whether all of the case so far came out as wanted.
    pub goes_on: bool,
    pub host: MemHost,
    /// The disk before the last run.
    pub before: MemHost,
    /// The disk that was kept, for this case and those behind it.
    pub kept: Kept,
    /// The blocks of the plain machine; 0 where it isn't known.
    pub blocks: u64,
    /// The lines that lead to the plain machine.
    pub lines: Vec<u8>,
    /// Whether the last run still goes on.
    pub runs_on: bool,
    /// Whether it was played.
    pub is_played: bool,
    pub run: Run,
    /// The states of the last run, where it has walks.
    pub course: Course,
}

/// A disk, with the blocks of the plain machine for which it stands and the lines that lead there.
#[derive(Drop)]
pub struct Kept {
    pub host: MemHost,
    pub blocks: u64,
    pub lines: Vec<u8>,
}

#[derive(Clone, Copy)]
pub enum Program {
    Flexvol,
    Reference,
    Dump,
    /// `run_script`, with a limit of so many bytes.
    Script(u64),
}

/// A run of a program, with what is wanted of it.
#[derive(Drop)]
pub struct Run {
    pub program: Program,
    pub words: Vec<String>,
    pub script: Vec<u8>,
    pub replies: Vec<u8>,
    /// Whether the replies are those of the plain machine.
    pub plain: bool,
    pub status: u64,
    /// For how many first lines the disk stands then, where not for all of a run that ends with 0.
    pub stands: Option<u64>,
    /// Whether a check of the disk then finds faults, as where a row has changed what no later point writes.
    pub unsound: bool,
    /// The script that is asked of a disk to see for what it stands.
    pub looks: Vec<u8>,
}

impl Run {
    /// The lines that are asked of a disk; `vol list` where none were told.
    pub fn asks(&self) -> &[u8] {
        if self.looks.is_empty() {
            b"vol list\n"
        } else {
            self.looks.as_slice()
        }
    }
}

pub fn new_run(alloc: Global, program: Program) -> Run {
    Run {
        program,
        words: Vec::new(alloc),
        script: Vec::new(alloc),
        replies: Vec::new(alloc),
        plain: false,
        status: 0,
        stands: None,
        unsound: false,
        looks: Vec::new(alloc),
    }
}

pub fn new_bench(alloc: Global) -> Bench {
    Bench {
        alloc,
        cases: 0,
        runs: 0,
        goes_on: false,
        host: new_host(alloc),
        before: new_host(alloc),
        kept: Kept {
            host: new_host(alloc),
            blocks: 0,
            lines: Vec::new(alloc),
        },
        blocks: 0,
        lines: Vec::new(alloc),
        runs_on: false,
        is_played: false,
        run: new_run(alloc, Program::Flexvol),
        course: no_course(alloc),
    }
}

fn new_host(alloc: Global) -> MemHost {
    MemHost::new(alloc, Vec::new(alloc))
}

/// A case begins, on a disk of zeros.
pub fn clear(bench: &mut Bench) {
    bench.goes_on = true;
    bench.host = new_host(bench.alloc);
    bench.blocks = 0;
    bench.lines.clear();
    bench.runs_on = false;
}
