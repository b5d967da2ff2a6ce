// Writing the records of a text that is a formula: those of its parts, then its own.
ghost use Rattle.std.specs.Prelude.{◌≡◌, cond, ◌+◌, ◌-◌, ◌*◌, ◌<◌, ◌≤◌, eqb, get_or, length};
ghost use Rattle.meaning.specs.Record.{most_records, bytes_of, number_of};
ghost use Rattle.records.specs.Kinds.{kind_meant};
ghost use Rattle.parsing.specs.Places.{hash};
ghost use Rattle.parsing.specs.Writing.{forms, paths, stars_from, Readable, Stored, Wrote};

use crate::ends;
use records::kind::{Kind, Mode, Way};
use records::layout;

// The bytes of signs that are not looked at again: the text is known to be a formula.
const FALSE_SIZE: usize = 6;

const TRUE_SIZE: usize = 5;

const MODE_SIZE: usize = 3;

const STEP_SIZE: usize = 2;

// The byte of a modality's sign that tells a diamond from a box.
const MODE_BYTE: usize = 2;

// The records so far, and the number of the next.
#[derive(Drop)]
pub struct Writer<'a> {
    pub buffer: &'a mut [u8; layout::MOST_BYTES],
    pub next: usize,
}

impl<'a> Writer<'a> {
    // Writes one record behind the others.
    fn push(&mut self, kind: Kind, a: usize, b: usize)
        requires { (self.old.next < most_records) × (a < 65_536) × (b < 65_536) }
        ensures { Stored self.old 1 (bytes_of (number_of (kind_meant kind)) a b) self.new }
    {
        layout::put_record(self.buffer, self.next, kind.into(), a, b);
        self.next += 1;
    }
}

// Writes the formula at a place, and tells where it ends.
#[cycle(write_form_write_path)]
pub fn write_form(text: &[u8], at: usize, writer: &mut Writer) -> usize
    requires { Readable forms text.now at writer.old.next }
    ensures { Wrote forms text.now at writer.old result writer.new }
{
    match text[at] {
        b'#' => write_constant(text, at, writer),
        b'p' => {
            let atom = ends::number_at(text, at + 1).unwrap();
            writer.push(Kind::Atom, atom.value, 0);
            atom.end
        }
        _ => {
            let path_end = write_path(text, at + 1, writer);
            let path = writer.next - 1;
            let kind = choose(
                text,
                path_end + MODE_BYTE,
                b'?',
                Kind::Modal(Mode::Diamond),
                Kind::Modal(Mode::Box),
            );
            let form_end = write_form(text, path_end + MODE_SIZE, writer);
            let form = writer.next - 1;
            writer.push(kind, path, form);
            form_end + 1
        }
    }
}

// Writes the path at a place, and tells where it ends.
#[cycle(write_form_write_path)]
fn write_path(text: &[u8], at: usize, writer: &mut Writer) -> usize
    requires { Readable paths text.now at writer.old.next }
    ensures { Wrote paths text.now at writer.old result writer.new }
{
    match text[at] {
        b'&' => {
            writer.push(Kind::Move(Way::Ahead), 0, 0);
            at + STEP_SIZE
        }
        b'?' => {
            let end = write_form(text, at + 1, writer);
            let form = writer.next - 1;
            writer.push(Kind::Test, form, 0);
            end
        }
        b'*' => {
            let from = ends::stars_end(text, at);
            let end = write_path(text, from, writer);
            push_stars(writer, from - at);
            end
        }
        _ => {
            let first_end = write_path(text, at + 1, writer);
            let first = writer.next - 1;
            let kind = choose(text, first_end, b'+', Kind::Choice, Kind::Sequence);
            let second_end = write_path(text, first_end + 1, writer);
            let second = writer.next - 1;
            writer.push(kind, first, second);
            second_end + 1
        }
    }
}

// One of two kinds, by the byte at a place.
fn choose(text: &[u8], at: usize, b: u8, this: Kind, other: Kind) -> Kind
    requires { at < length text.now }
    ensures { result ≡ cond (eqb (get_or text.now at 0) b) this other }
{
    if text[at] == b { this } else { other }
}

// Writes the constant at a place.
fn write_constant(text: &[u8], at: usize, writer: &mut Writer) -> usize
    requires { Readable forms text.now at writer.old.next × (get_or text.now at 0 ≡ hash) }
    ensures { Wrote forms text.now at writer.old result writer.new }
{
    if text[at + 1] == b'f' {
        writer.push(Kind::Constant(false), 0, 0);
        at + FALSE_SIZE
    } else {
        writer.push(Kind::Constant(true), 0, 0);
        at + TRUE_SIZE
    }
}

// Writes stars one around the other, the first around the last record.
fn push_stars(writer: &mut Writer, stars: usize)
    requires { (0 < writer.old.next) × (writer.old.next + stars ≤ most_records) }
    ensures { Stored writer.old stars (stars_from stars writer.old.next) writer.new }
{
    // The number of the next is set once: in each turn, it would be stored and read back.
    let first = writer.next;
    for i in 0..stars {
        layout::put_record(
            writer.buffer,
            first + i,
            Kind::Star.into(),
            first + i - 1,
            0,
        );
    }
    writer.next += stars;
}
