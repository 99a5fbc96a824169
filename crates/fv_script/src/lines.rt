//! The lines of replies that have a bound on their length.

ghost use Rattle.std.specs.Prelude.{◌≡◌, ◌≤◌, ◌+◌, ◌++◌, codes, decimal, length};
ghost use Rattle.arrayvec.specs.ArrayString.{array_string_len};
ghost use Rattle.fv_model.specs.Texts.{done_text, kind_text, reason, stat_text, text, yes_or_no};

use arrayvec::ArrayString;
use fv_model::{Kind, Refusal, Reply, Stat};
use itoa::Buffer;

/// The line of a command that was carried out.
#[tactic(auto, unfolding(fv_model::specs::Texts::words))]
pub fn ok_line() -> &'static str
    ensures { result.now ≡ text Reply.Done }
{
    "ok\n"
}

/// The last line of a run, with the number of lines that it answered: at most 26 bytes.
pub fn done_line(count: u64) -> ArrayString<32>
    ensures { result.bytes ≡ done_text count }
{
    let mut line = ArrayString::new();
    line.push_str("done ");
    line.push_str(Buffer::new().format(count));
    line.push_str("\n");
    line
}

/// The line of a number: at most 20 digits and the end.
#[tactic(auto, unfolding(fv_model::specs::Texts::words))]
pub fn number_line(number: u64) -> ArrayString<32>
    ensures { result.bytes ≡ text (Reply.Number number) }
{
    let mut line = ArrayString::new();
    line.push_str(Buffer::new().format(number));
    line.push_str("\n");
    line
}

/// The line of a refusal: at most 37 bytes.
#[tactic(auto, unfolding(fv_model::specs::Texts::words))]
pub fn refusal_line(refusal: &Refusal) -> ArrayString<64>
    ensures { result.bytes ≡ text (Reply.Refused refusal.now) }
{
    let mut line = ArrayString::new();
    line.push_str("err ");
    line.push_str(Buffer::new().format(refusal.number()));
    line.push_str(" ");
    line.push_str(reason(refusal));
    line.push_str("\n");
    line
}

/// Why the command was refused, in words.
fn reason(refusal: &Refusal) -> &'static str
    ensures words { result.now ≡ reason refusal.now }
    ensures short { length result.now ≤ 29 }
{
    match refusal {
        Refusal::Syntax => "syntax",
        Refusal::NoVolume => "no such volume",
        Refusal::VolumeExists => "volume exists",
        Refusal::NoFile => "no such file",
        Refusal::FileExists => "file exists",
        Refusal::NoSnapshot => "no such snapshot",
        Refusal::SnapshotExists => "snapshot exists",
        Refusal::VolumeFull => "volume full",
        Refusal::AggregateFull => "aggregate full",
        Refusal::Range => "number out of range",
        Refusal::TooMany => "too many",
        Refusal::SnapshotInUse => "snapshot in use",
        Refusal::VolumeInUse => "volume in use",
        Refusal::NotClone => "not a clone or not splitting",
        Refusal::ParentNotClean => "parent not clean",
        Refusal::WrongKind => "kind doesn't fit",
    }
}

/// The line of a volume's numbers: at most 98 bytes.
#[tactic(auto, unfolding(fv_model::specs::Texts::words))]
pub fn stat_line(stat: &Stat) -> ArrayString<256>
    ensures { result.bytes ≡ text (Reply.Stat stat.now) }
{
    let mut line = counts(stat);
    push_text(&mut line, " kind ", kind_text(stat.kind));
    push_text(&mut line, " clean ", yes_or_no(stat.clean));
    line.push_str("\n");
    line
}

/// The line up to the last number.
fn counts(stat: &Stat) -> ArrayString<256>
    ensures bytes { result.bytes ≡ codes "size " ++ (decimal stat.now.size ++ (codes " used " ++ (decimal stat.now.used ++ (codes " need " ++ (decimal stat.now.need ++ (codes " commit " ++ decimal stat.now.commit)))))) }
    ensures short { array_string_len result ≤ 200 }
{
    let mut line = ArrayString::new();
    push_number(&mut line, "size ", u64::from(stat.size));
    push_number(&mut line, " used ", u64::from(stat.used));
    push_number(&mut line, " need ", u64::from(stat.need));
    push_number(&mut line, " commit ", stat.commit);
    line
}

fn push_number(line: &mut ArrayString<256>, label: &str, number: u64)
    requires { array_string_len line.old + length label.now ≤ 216 }
    ensures bytes { line.new.bytes ≡ line.old.bytes ++ (label.now ++ decimal number) }
    ensures long { array_string_len line.new ≤ array_string_len line.old + (length label.now + 40) }
{
    push_text(line, label, Buffer::new().format(number));
}

fn push_text(line: &mut ArrayString<256>, label: &str, value: &str)
    requires { array_string_len line.old + (length label.now + length value.now) ≤ 256 }
    ensures bytes { line.new.bytes ≡ line.old.bytes ++ (label.now ++ value.now) }
    ensures long { array_string_len line.new ≡ array_string_len line.old + (length label.now + length value.now) }
{
    line.push_str(label);
    line.push_str(value);
}

fn kind_text(kind: Kind) -> &'static str
    ensures words { result.now ≡ kind_text kind }
    ensures short { length result.now ≤ 6 }
{
    match kind {
        Kind::Volume => "volume",
        Kind::File => "file",
        Kind::Thin => "none",
    }
}

fn yes_or_no(clean: bool) -> &'static str
    ensures words { result.now ≡ yes_or_no clean }
    ensures short { length result.now ≤ 3 }
{
    if clean { "yes" } else { "no" }
}
