// What each path stands under: the mode, which is its modality's, and the continuation, the record whose label continues it. Both go down the
// path from its modality, the record number falling.
#![tactic(auto)]

ghost use Rattle.std.specs.Prelude.{◌≡◌, ◌<◌};
ghost use Rattle.paths.specs.Asking.{Formed};
ghost use Rattle.contexts.specs.Contexts.{contexts_of, Given, Handed};

use records::kind::{Kind, Mode};
use records::layout;

// What a path stands under. The continuation is a record's number, which a byte holds. The fields are public, since contracts name them.
#[derive(Clone, Copy, Debug, PartialEq, Eq)]
pub struct Context {
    pub mode: Mode,
    pub continuation: u8,
}

impl Context {
    // A formula stands under nothing, and has this: no record has the number of its continuation, so no path has it. It is no `Option`, since
    // nobody reads a formula's: each reader would ask again what the kind says.
    pub const NONE: Context = Context {
        mode: Mode::Diamond,
        continuation: layout::MOST_RECORDS as u8,
    };

    // Its modality's mode.
    pub fn mode(self) -> Mode
        ensures { result ≡ self.mode }
    {
        self.mode
    }

    // The record whose label continues the path.
    pub fn continuation(self) -> usize
        ensures same { result ≡ self.continuation }
        ensures byte { result < 256 }
    {
        usize::from(self.continuation)
    }

    // That of a mode and the continuation c. `try_from` in place of `as` would ask again what is required.
    fn under(mode: Mode, c: usize) -> Context
        requires { c < 256 }
        ensures { result ≡ record { mode = mode; continuation = c } }
    {
        Context {
            mode,
            continuation: c as u8,
        }
    }
}

// By a word of two bytes: the number of the modality's kind in the high one, the continuation in the low one.
impl From<u16> for Context {
    ghost use Rattle.std.specs.Prelude.{◌≡◌, ◌/◌, ◌%◌};
    ghost use Rattle.records.specs.Kinds.{mode_meant};
    ghost use Rattle.records.specs.Code.{mode_of};

    ghost from_gives = { λ word context. (mode_meant context.mode ≡ mode_of (word / 256)) × (context.continuation ≡ word % 256) };

    fn from(word: u16) -> Context {
        Context {
            mode: Mode::from((word / 256) as u8),
            continuation: (word % 256) as u8,
        }
    }
}

// The context of each path; `NONE` for each formula.
pub type Contexts = [Context; layout::MOST_RECORDS];

// Finds the contexts of all paths: each diamond or box hands its own to its path.
pub fn find_contexts(records: &[u8], contexts: &mut Contexts)
    requires { Formed records.now }
    ensures { contexts.new ≡ contexts_of records.now }
{
    *contexts = [Context::NONE; layout::MOST_RECORDS];
    for q in 0..layout::record_count(records) {
        if let Kind::Modal(mode) = layout::kind_of(records, q) {
            let own = Context::under(mode, layout::field_b(records, q));
            hand_down(records, layout::field_a(records, q), own, contexts);
        }
    }
}

// Stores path p's own context, and hands each of its parts the context that the part stands under.
fn hand_down(records: &[u8], p: usize, own: Context, contexts: &mut Contexts)
    requires { Given records.now p own contexts.old }
    ensures { Handed records.now p contexts.old contexts.new }
{
    contexts[p] = own;
    let a = layout::field_a(records, p);
    let b = layout::field_b(records, p);
    match layout::kind_of(records, p) {
        Kind::Choice => {
            hand_down(records, a, own, contexts);
            hand_down(records, b, own, contexts);
        }
        Kind::Sequence => {
            hand_down(records, a, Context::under(own.mode, b), contexts);
            hand_down(records, b, own, contexts);
        }
        Kind::Star => hand_down(records, a, Context::under(own.mode, p), contexts),
        _ => {}
    }
}
