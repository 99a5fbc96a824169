//! Generated scripts, whose draws were worked out apart from the generator.

use fv_model::{Block, Command, Name};
use fv_script::Generator;

/// A command's keyword, the last byte of its file's or snapshot's name, its number, and its block's first
/// four bytes.
pub type Row = (&'static str, u8, u32, u32);

fn last(name: &Name) -> u8 {
    name.as_bytes().last().copied().unwrap_or(0)
}

fn beginning(block: &Block) -> u32 {
    u32::from_be_bytes([block[0], block[1], block[2], block[3]])
}

/// The row of a command.
pub fn row(command: &Command) -> Row {
    match command {
        Command::VolCreate { volume, size, .. } => ("vol create", last(volume), *size, 0),
        Command::New { file, reserve, .. } => ("new", last(file), *reserve, 0),
        Command::Put {
            file,
            index,
            block,
            ..
        } => ("put", last(file), *index, beginning(block)),
        Command::Get { file, index, .. } => ("get", last(file), *index, 0),
        Command::Cut { file, length, .. } => ("cut", last(file), *length, 0),
        Command::SnapCreate { snapshot, .. } => ("snap create", last(snapshot), 0, 0),
        Command::SnapDelete { snapshot, .. } => ("snap delete", last(snapshot), 0, 0),
        Command::Work { steps } => ("work", 0, *steps, 0),
        Command::Cp => ("cp", 0, 0, 0),
        _ => ("another", 0, 0, 0),
    }
}

/// The row of the next command; none behind the last.
fn next_row(generator: &mut Generator) -> Option<Row> {
    match generator.next() {
        Some(command) => Some(row(&command)),
        None => None,
    }
}

/// What follows the nine commands of the opening, from the seeds 7 and 0.
const DRAWN: [(u64, [Row; 7]); 2] = [
    (
        7,
        [
            ("get", b'7', 6, 0),
            ("put", b'2', 239, 0x6723_7fd0),
            ("put", b'6', 273, 0x6ba8_cc07),
            ("snap delete", b'1', 0, 0),
            ("put", b'4', 211, 0x2823_1ce7),
            ("put", b'6', 273, 0x5cce_f742),
            ("get", b'4', 107, 0),
        ],
    ),
    (
        0,
        [
            ("snap delete", b'2', 0, 0),
            ("put", b'2', 82, 0x1440_9370),
            ("snap delete", b'3', 0, 0),
            ("snap create", b'1', 0, 0),
            ("put", b'0', 144, 0x8362_aa93),
            ("get", b'7', 267, 0),
            ("cut", b'2', 75, 0),
        ],
    ),
];

/// Whether a script begins with the volume and its eight files.
fn opens(generator: &mut Generator) -> bool {
    let mut opens = next_row(generator) == Some(("vol create", b'g', 2000, 0));
    for digit in b'0'..b'8' {
        opens = opens && next_row(generator) == Some(("new", digit, 0, 0));
    }
    opens
}

/// Whether a script goes on with these rows, and then ends.
fn goes_on(generator: &mut Generator, rows: &[Row; 7]) -> bool {
    for row in rows {
        if next_row(generator) != Some(*row) {
            return false;
        }
    }
    next_row(generator).is_none() && next_row(generator).is_none()
}

#[test]
fn commands_follow_from_the_seed(rt: HostRuntime) {
    for (seed, rows) in DRAWN {
        let mut generator = Generator::new(seed, 7);
        assert!(rt; opens(&mut generator) && goes_on(&mut generator, &rows));
    }
}
