//! Lines of a script, by tables worked out by hand.

use crate::tests::scripts::{Row, row};
use fv_model::Command;
use fv_script::{LineFault, read_line};
use fv_script_laws::{read_shown, written_reads_back};

const NO_COMMANDS: [&[u8]; 25] = [
    b"",
    b"   ",
    b"vol",
    b"vol create a 100",
    b"vol create a 100 NONE",
    b"vol create A 1 none",
    b"vol create a -1 none",
    b"vol create a 1 none none",
    b"vol list all",
    b"VOL list",
    b"snap a s",
    b"put a f 0 123",
    b"put a f 0 0g",
    b"put a f 0 --",
    b"put a f 9999999 0",
    b"get a@ f 0",
    b"get @s f 0",
    b"get a@s@t f 0",
    b"get a @s f 0",
    b"put a@s f 0 00",
    b"cp\t",
    b"cp\r",
    b"cp\0",
    b"cp\xff",
    b"new 0123456789012345678901234567890123456789012345678901234567890123a f",
];

const OUT_OF_RANGE: [&[u8]; 14] = [
    b"vol create b 0 none",
    b"vol create b 500001 none",
    b"vol create b 99999999999999999999 none",
    b"vol create b 4294967297 none",
    b"vol resize a 000",
    b"clone create c a s 500001 file",
    b"mirror a s w 0 file",
    b"new a f 2097153",
    b"cut a f 2097153",
    b"put a f 2097152 -",
    b"put a f 9999999 00",
    b"get a@s f 2097152",
    b"probe a f 2097152",
    b"work 1000001",
];

/// Whether each of these lines has this fault.
fn all_have(lines: &[&[u8]], fault: LineFault) -> bool {
    for line in lines {
        match read_line(line) {
            Err(found) if found == fault => {}
            _ => return false,
        }
    }
    true
}

#[test]
fn lines_that_are_no_command(rt: HostRuntime) {
    assert!(rt; all_have(&NO_COMMANDS, LineFault::Syntax));
    assert!(rt; all_have(&OUT_OF_RANGE, LineFault::Range));
}

const COMMANDS: [(&[u8], Row); 10] = [
    (b"cp", ("cp", 0, 0, 0)),
    (b"  cp ", ("cp", 0, 0, 0)),
    (b"vol  list", ("another", 0, 0, 0)),
    (
        b"vol create a 00000000000000000000500000 volume",
        ("vol create", b'a', 500_000, 0),
    ),
    (b"new a f", ("new", b'f', 0, 0)),
    (b"new a f 2097152", ("new", b'f', 2_097_152, 0)),
    (b"put a f 7 4abF", ("put", b'f', 7, 0x4abf_0000)),
    (b"get a@s f 2097151", ("get", b'f', 2_097_151, 0)),
    (b"cut a new 2097152", ("cut", b'w', 2_097_152, 0)),
    (b"work 1000000", ("work", 0, 1_000_000, 0)),
];

/// The row of the command that a line says.
fn row_of(line: &[u8]) -> Option<Row> {
    match read_line(line) {
        Ok(command) => Some(row(&command)),
        Err(_) => None,
    }
}

/// Whether each line of the table says its command.
fn all_say() -> bool {
    for (line, want) in COMMANDS {
        if row_of(line) != Some(want) {
            return false;
        }
    }
    true
}

#[test]
fn lines_that_are_commands(rt: HostRuntime) {
    assert!(rt; all_say());
}

/// The laws of `fv_script_laws`, at a line as it is shown.
#[test]
fn a_line_as_it_is_shown(rt: HostRuntime) {
    written_reads_back();
    let command = read_shown(b"vol create a 100 none");
    assert!(rt; matches!(command, Ok(Command::VolCreate { size: 100, .. })));
}
