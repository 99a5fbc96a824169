//! Commands that are drawn from a seed.

ghost use Rattle.std.specs.Prelude.{◌≡◌, ◌<◌, ◌≤◌, ◌+◌, ◌^◌, ◌∷◌, [], Some, IsSome, drop};
ghost use Rattle.std.specs.Int.{w32, to_be_bytes};
ghost use Rattle.fv_model.specs.Words.{padded};
ghost use Rattle.fv_script.specs.Generated.{Takes, after, below, chosen, command_from, cut_from, drawn, file, generated, get_from, opening, put_from, snap_from, snapshot, taken, volume};
ghost use Rattle.fv_model.specs.declared.commands.Command.TheVariants.{Cp, New, SnapCreate, SnapDelete, VolCreate};
ghost use Rattle.fv_model.specs.declared.commands.Kind.TheVariants.{Thin};

use fv_model::{Block, Command, Kind, Name};
use std::marker::Model;

/// The multiplier and the increment of Knuth's MMIX.
const MULTIPLIER: u64 = 6_364_136_223_846_793_005;

const INCREMENT: u64 = 1_442_695_040_888_963_407;

/// The files of the volume.
const FILES: u32 = 8;

/// A generated script. Contracts see the commands that are to come.
#[derive(Debug, Drop)]
pub struct Generator {
    state: u64,
    /// How many commands of the opening were given.
    opened: u32,
    /// How many commands are to be drawn.
    left: u32,
}

impl Model for Generator {
    ghost use Rattle.std.specs.Prelude.{List, ◌++◌, drop, ◌≤◌};
    ghost use Rattle.fv_model.specs.declared.commands.Command.{Command};
    ghost use Rattle.fv_script.specs.Generated.{drawn, opening};

    ghost Value = { List Command };

    ghost view = { λ g. drop g.opened opening ++ drawn g.left g.state };

    ghost invariant = { λ g. g.opened ≤ 9 };
}

impl Generator {
    /// The script of a seed: a volume `g` without guarantee, its files `f0` to `f7`, and `count` commands
    /// more. Costs one step.
    pub fn new(seed: u64, count: u32) -> Generator
        ensures { result ≡ generated seed count }
    {
        Generator {
            state: seed,
            opened: 0,
            left: count,
        }
    }

    /// The next command, and `None` exactly after the last. It takes no memory. Costs a step and what the command fills, twice 4 KB.
    pub fn next(&mut self) -> Option<Command>
        ensures { Takes self.old result self.new }
    {
        let mut command = Command::Cp;
        if self.next_into(&mut command) {
            Some(command)
        } else {
            None
        }
    }

    /// As `next`, with the command in the place lent; false exactly after the last, and then what the place holds is open. A command has
    /// the size of a block, so none is moved: it fills the place once, 4 KB.
    #[tactic(auto, using(crate::proofs::Generating::none_left, crate::proofs::Generating::one_left))]
    pub fn next_into(&mut self, into: &mut Command) -> bool
        ensures { Takes self.old (taken result into.new) self.new }
    {
        if self.opened <= FILES {
            open(self.opened, into);
            self.opened += 1;
            return true;
        }
        if self.left == 0 {
            return false;
        }
        self.left -= 1;
        command(&mut self.state, into);
        true
    }
}

/// A command of the opening, from 0 to 8.
#[tactic(auto, unfolding(crate::specs::Generated::opening))]
fn open(at: u32, into: &mut Command)
    requires { at < 9 }
    ensures { drop at opening ≡ into.new ∷ drop (at + 1) opening }
{
    if at == 0 {
        make_volume(into);
    } else {
        make_file(at - 1, into);
    }
}

/// The volume is made.
#[tactic(auto, unfolding(crate::specs::Generated::volume))]
fn make_volume(into: &mut Command)
    ensures { into.new ≡ VolCreate volume 2000 Thin }
{
    *into = Command::VolCreate {
        volume: volume(),
        size: 2000,
        kind: Kind::Thin,
    };
}

/// A file of it is made.
fn make_file(number: u32, into: &mut Command)
    requires { number < 8 }
    ensures { into.new ≡ New volume (file number) 0 }
{
    *into = Command::New {
        volume: volume(),
        file: file(number),
        reserve: 0,
    };
}

/// Draws a number below `most`.
fn draw(state: &mut u64, most: u64) -> u32
    requires above { 0 < most }
    requires within { most ≤ 2 ^ 32 }
    ensures state { state.new ≡ after state.old }
    ensures number { result ≡ below most (after state.old) }
    ensures within { result < most }
{
    *state = state.wrapping_mul(MULTIPLIER).wrapping_add(INCREMENT);
    ((*state >> 32) % most) as u32
}

/// Draws a command.
#[tactic(auto, unfolding(crate::specs::Generated::command_from, crate::specs::Generated::chosen))]
fn command(state: &mut u64, into: &mut Command)
    ensures { (into.new, state.new) ≡ command_from state.old }
{
    match draw(state, 8) {
        0..=3 => put(state, into),
        4 => get(state, into),
        5 => cut(state, into),
        6 => snap(state, into),
        _ => ask_for_point(into),
    }
}

#[tactic(auto, unfolding(crate::specs::Generated::put_from))]
fn put(state: &mut u64, into: &mut Command)
    ensures { (into.new, state.new) ≡ put_from state.old }
{
    let number = draw(state, 8);
    let index = draw(state, 300);
    let block = block(draw(state, 1 << 32));
    *into = Command::Put {
        volume: volume(),
        file: file(number),
        index,
        block,
    };
}

#[tactic(auto, unfolding(crate::specs::Generated::get_from))]
fn get(state: &mut u64, into: &mut Command)
    ensures { (into.new, state.new) ≡ get_from state.old }
{
    *into = Command::Get {
        volume: volume(),
        snapshot: None,
        file: file(draw(state, 8)),
        index: draw(state, 300),
    };
}

#[tactic(auto, unfolding(crate::specs::Generated::cut_from))]
fn cut(state: &mut u64, into: &mut Command)
    ensures { (into.new, state.new) ≡ cut_from state.old }
{
    *into = Command::Cut {
        volume: volume(),
        file: file(draw(state, 8)),
        length: draw(state, 300),
    };
}

#[tactic(auto, unfolding(crate::specs::Generated::snap_from))]
fn snap(state: &mut u64, into: &mut Command)
    ensures { (into.new, state.new) ≡ snap_from state.old }
{
    let made = draw(state, 2) == 0;
    let snapshot = snapshot(draw(state, 4));
    if made {
        make_snapshot(snapshot, into);
    } else {
        delete_snapshot(snapshot, into);
    }
}

fn make_snapshot(snapshot: Name, into: &mut Command)
    ensures { into.new ≡ SnapCreate volume snapshot }
{
    *into = Command::SnapCreate {
        volume: volume(),
        snapshot,
    };
}

fn delete_snapshot(snapshot: Name, into: &mut Command)
    ensures { into.new ≡ SnapDelete volume snapshot }
{
    *into = Command::SnapDelete {
        volume: volume(),
        snapshot,
    };
}

fn ask_for_point(into: &mut Command)
    ensures { into.new ≡ Cp }
{
    *into = Command::Cp;
}

#[tactic(auto, unfolding(crate::specs::Generated::volume))]
fn volume() -> Name
    ensures { result ≡ volume }
{
    Name::read(b"g").unwrap()
}

#[tactic(auto, unfolding(crate::specs::Generated::file))]
fn file(k: u32) -> Name
    requires { k < 8 }
    ensures { result ≡ file k }
{
    Name::read(&[b'f', b'0' + k as u8]).unwrap()
}

#[tactic(auto, unfolding(crate::specs::Generated::snapshot))]
fn snapshot(k: u32) -> Name
    requires { k < 4 }
    ensures { result ≡ snapshot k }
{
    Name::read(&[b's', b'0' + k as u8]).unwrap()
}

/// The block that begins with a number's bytes, the greatest first.
#[tactic(auto, unfolding(fv_model::specs::Words::padded))]
fn block(number: u32) -> Block
    ensures { result ≡ padded (to_be_bytes w32 number) }
{
    let mut block = [0; 4096];
    block[..4].copy_from_slice(&number.to_be_bytes());
    block
}
