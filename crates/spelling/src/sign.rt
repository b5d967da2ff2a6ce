// The signs of kinds, and an atom's number in digits.
ghost use Rattle.std.specs.Prelude.{◌≡◌, ◌+◌, ◌<◌, ◌≤◌, length};
ghost use Rattle.meaning.specs.Record.{atom};
ghost use Rattle.meaning.specs.Text.{text_atoms, most_text, decimal};
ghost use Rattle.records.specs.Kinds.{kind_meant};
ghost use Rattle.spelling.specs.Spelling.{sign_of, own_sign};
ghost use Rattle.spelling.specs.Page.{Puts};

use records::kind::{Kind, Mode, Way};

// A back step has no sign, nor has any kind that is not in the core.
#[tactic(auto, unfolding(crate::specs::Spelling::sign_of, meaning::specs::Text::mode_sign, meaning::specs::Text::move_sign))]
fn sign_of(kind: Kind) -> &'static [u8]
    ensures { result.now ≡ sign_of (kind_meant kind) }
{
    match kind {
        Kind::Constant(false) => b"#false",
        Kind::Constant(true) => b"#true",
        Kind::Atom => b"p",
        Kind::Modal(Mode::Diamond) => b".>?",
        Kind::Modal(Mode::Box) => b".>*",
        Kind::Move(Way::Ahead) => b"&t",
        Kind::Test => b"?",
        Kind::Choice => b"+",
        Kind::Sequence => b";",
        Kind::Star => b"*",
        Kind::Move(Way::Back) | Kind::Shorthand(_) | Kind::Unknown => b"",
    }
}

// The text so far: the buffer's first bytes. Not one with the page of `listing`, on which each text has a bound: here its length is known.
#[derive(Drop)]
pub struct Page<'a> {
    pub buffer: &'a mut [u8; crate::MOST_TEXT],
    pub size: usize,
}

impl Page<'_> {
    // Puts the sign of a record whose field a holds a: an atom's has its number.
    #[tactic(auto, using(crate::proofs::Putting::put_more), unfolding(crate::specs::Spelling::sign_of, crate::specs::Spelling::own_sign))]
    pub fn put_own(&mut self, kind: Kind, a: usize)
        requires low { kind_meant kind ≡ atom → a < text_atoms }
        requires room { self.old.size + length (own_sign (kind_meant kind) a) ≤ most_text }
        ensures { Puts self.old (own_sign (kind_meant kind) a) self.new }
    {
        self.put(sign_of(kind));
        if kind == Kind::Atom {
            self.put_number(a);
        }
    }

    // An atom's number in one digit or two.
    fn put_number(&mut self, number: usize)
        requires low { number < text_atoms }
        requires room { self.old.size + length (decimal number) ≤ most_text }
        ensures { Puts self.old (decimal number) self.new }
    {
        if number < 10 {
            self.put(&[digit(number)]);
        } else {
            self.put(&[digit(number / 10), digit(number % 10)]);
        }
    }

    // Puts characters one after another.
    pub fn put(&mut self, characters: &[u8])
        requires { self.old.size + length characters.now ≤ most_text }
        ensures { Puts self.old characters.now self.new }
    {
        let at = self.size;
        self.size = copying::append(&mut self.buffer[..], at, characters);
    }
}

// `try_from` in place of `as` would ask again what is required.
fn digit(n: usize) -> u8
    requires { n < 10 }
    ensures { result ≡ 48 + n }
{
    b'0' + n as u8
}
