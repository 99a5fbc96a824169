//! The words of a command, with a space or the line's end behind each.

ghost use Rattle.std.specs.Prelude.{◌≡◌, ◌≤◌, ◌+◌, ◌++◌, ◌∷◌, [], true, decimal, length};
ghost use Rattle.fv_model.specs.Spelling.{is_name};
ghost use Rattle.fv_model.specs.Texts.{kind_text};
ghost use Rattle.fv_script_laws.specs.Show.{CanShow, NamedOrNone, show, table_word};
ghost use Rattle.fv_saying.specs.Saying.{block_line, HasBlock};

use arrayvec::ArrayVec;
use fv_model::{Command, Kind, Name};
use itoa::Buffer;

/// The longest line but for a block, that of `clone create`, has at most 226 bytes with its end.
pub(crate) type Line = ArrayVec<u8, 256>;

/// Adds each part to the line of a command.
macro_rules! spell {
    ($line:ident; $($add:ident($($part:expr),*)),*) => {{
        $($add($line, $($part),*);)*
    }};
}

/// The line of a command, but for the block of a `put`, whose line ends behind the space before it.
pub(crate) fn spelled(command: &Command) -> Line
    ensures line { result.items ++ block_line command.now ≡ show command.now ++ 10 ∷ [] }
    ensures can { HasBlock command.now → CanShow command.now }
{
    let mut line = Line::new();
    spell(command, &mut line);
    line
}

#[tactic(auto, unfolding(fv_model::specs::Texts::words))]
fn spell(command: &Command, into: &mut Line)
    requires { into.old.items ≡ [] }
    ensures line { into.new.items ++ block_line command.now ≡ show command.now ++ 10 ∷ [] }
    ensures can { HasBlock command.now → CanShow command.now }
{
    match command {
        Command::VolCreate { volume, size, kind } =>
            spell!(into; add(b"vol create", b' '), add_name(volume, b' '), add_sized(*size, *kind)),
        Command::VolDestroy { volume } =>
            spell!(into; add(b"vol destroy", b' '), add_name(volume, b'\n')),
        Command::VolResize { volume, size } =>
            spell!(into; add(b"vol resize", b' '), add_name(volume, b' '), add_number(*size, b'\n')),
        Command::VolGuarantee { volume, kind } =>
            spell!(into; add(b"vol guarantee", b' '), add_name(volume, b' '), add_kind(*kind)),
        Command::VolList => spell!(into; add(b"vol list", b'\n')),
        Command::VolStat { volume } =>
            spell!(into; add(b"vol stat", b' '), add_name(volume, b'\n')),
        Command::New {
            volume,
            file,
            reserve,
        } =>
            spell!(into; add(b"new", b' '), add_names(volume, file, b' '), add_number(*reserve, b'\n')),
        Command::Put {
            volume,
            file,
            index,
            ..
        } =>
            spell!(into; add(b"put", b' '), add_names(volume, file, b' '), add_number(*index, b' ')),
        Command::Get {
            volume,
            snapshot,
            file,
            index,
        } =>
            spell!(into; add(b"get", b' '), add_table(volume, snapshot, b' '), add_name(file, b' '), add_number(*index, b'\n')),
        Command::Len {
            volume,
            snapshot,
            file,
        } =>
            spell!(into; add(b"len", b' '), add_table(volume, snapshot, b' '), add_name(file, b'\n')),
        Command::Cut {
            volume,
            file,
            length,
        } =>
            spell!(into; add(b"cut", b' '), add_names(volume, file, b' '), add_number(*length, b'\n')),
        Command::Remove { volume, file } =>
            spell!(into; add(b"rm", b' '), add_names(volume, file, b'\n')),
        Command::Ls { volume, snapshot } =>
            spell!(into; add(b"ls", b' '), add_table(volume, snapshot, b'\n')),
        Command::SnapCreate { volume, snapshot } =>
            spell!(into; add(b"snap create", b' '), add_names(volume, snapshot, b'\n')),
        Command::SnapDelete { volume, snapshot } =>
            spell!(into; add(b"snap delete", b' '), add_names(volume, snapshot, b'\n')),
        Command::SnapRestore { volume, snapshot } =>
            spell!(into; add(b"snap restore", b' '), add_names(volume, snapshot, b'\n')),
        Command::SnapList { volume } =>
            spell!(into; add(b"snap list", b' '), add_name(volume, b'\n')),
        Command::CloneCreate {
            clone,
            parent,
            snapshot,
            size,
            kind,
        } =>
            spell!(into; add(b"clone create", b' '), add_name(clone, b' '), add_names(parent, snapshot, b' '), add_sized(*size, *kind)),
        Command::SplitStart { clone } =>
            spell!(into; add(b"split start", b' '), add_name(clone, b'\n')),
        Command::SplitFinish { clone } =>
            spell!(into; add(b"split finish", b' '), add_name(clone, b'\n')),
        Command::Mirror {
            source,
            snapshot,
            volume,
            size,
            kind,
        } =>
            spell!(into; add(b"mirror", b' '), add_names(source, snapshot, b' '), add_name(volume, b' '), add_sized(*size, *kind)),
        Command::Clean { volume } => spell!(into; add(b"clean", b' '), add_name(volume, b'\n')),
        Command::Probe {
            volume,
            file,
            index,
        } =>
            spell!(into; add(b"probe", b' '), add_names(volume, file, b' '), add_number(*index, b'\n')),
        Command::Work { steps } => spell!(into; add(b"work", b' '), add_number(*steps, b'\n')),
        Command::Cp => spell!(into; add(b"cp", b'\n')),
    }
}

/// Adds a word with a byte behind it.
fn add(line: &mut Line, word: &[u8], behind: u8)
    requires room { length line.old.items + length word.now ≤ 255 }
    ensures spelled { line.new.items ≡ line.old.items ++ (word.now ++ behind ∷ []) }
    ensures long { length line.new.items ≡ length line.old.items + (length word.now + 1) }
{
    line.try_extend_from_slice(word).unwrap();
    line.push(behind);
}

fn add_name(line: &mut Line, name: &Name, behind: u8)
    requires room { length line.old.items ≤ 190 }
    ensures spelled { line.new.items ≡ line.old.items ++ (name.now ++ behind ∷ []) }
    ensures long { length line.new.items ≤ length line.old.items + 65 }
    ensures named { is_name name.now ≡ true }
{
    add(line, name.as_bytes(), behind);
}

/// Adds two names, the second with this byte behind it.
fn add_names(line: &mut Line, first: &Name, second: &Name, behind: u8)
    requires room { length line.old.items ≤ 120 }
    ensures spelled { line.new.items ≡ line.old.items ++ (first.now ++ 32 ∷ (second.now ++ behind ∷ [])) }
    ensures long { length line.new.items ≤ length line.old.items + 130 }
    ensures named { is_name first.now ≡ true }
    ensures also { is_name second.now ≡ true }
{
    add_name(line, first, b' ');
    add_name(line, second, behind);
}

fn add_number(line: &mut Line, number: u32, behind: u8)
    requires room { length line.old.items ≤ 240 }
    ensures spelled { line.new.items ≡ line.old.items ++ (decimal number ++ behind ∷ []) }
    ensures long { length line.new.items ≤ length line.old.items + 11 }
{
    add(line, Buffer::new().format(number).as_bytes(), behind);
}

/// Adds a size and a kind, the last two words.
fn add_sized(line: &mut Line, size: u32, kind: Kind)
    requires room { length line.old.items ≤ 220 }
    ensures { line.new.items ≡ line.old.items ++ (decimal size ++ 32 ∷ (kind_text kind ++ 10 ∷ [])) }
{
    add_number(line, size, b' ');
    add_kind(line, kind);
}

/// Adds a kind, the last word of each line that has one.
fn add_kind(line: &mut Line, kind: Kind)
    requires room { length line.old.items ≤ 240 }
    ensures { line.new.items ≡ line.old.items ++ (kind_text kind ++ 10 ∷ []) }
{
    match kind {
        Kind::Volume => add(line, b"volume", b'\n'),
        Kind::File => add(line, b"file", b'\n'),
        Kind::Thin => add(line, b"none", b'\n'),
    }
}

/// Adds a volume, or a volume and its snapshot with `@` between.
fn add_table(line: &mut Line, volume: &Name, snapshot: &Option<Name>, behind: u8)
    requires room { length line.old.items ≤ 120 }
    ensures spelled { line.new.items ≡ line.old.items ++ (table_word volume.now snapshot.now ++ behind ∷ []) }
    ensures long { length line.new.items ≤ length line.old.items + 130 }
    ensures named { is_name volume.now ≡ true }
    ensures also { NamedOrNone snapshot.now }
{
    match snapshot {
        None => add_name(line, volume, behind),
        Some(snapshot) => {
            add_name(line, volume, b'@');
            add_name(line, snapshot, behind);
        }
    }
}
