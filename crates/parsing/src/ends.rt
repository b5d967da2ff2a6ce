// Where the parts of a text end, or none where no such part stands at the place. A struct of the text and a place would be no plainer: each
// function gives another place, or none.
ghost use Rattle.std.specs.Prelude.{◌≡◌, ◌*◌, ◌-◌, ◌<◌, ◌≤◌, ◌==◌, length};
ghost use Rattle.std.specs.List.{prefix_len};
ghost use Rattle.meaning.specs.Text.{after, else, digit, two_digits, number, read_form, read_path};
ghost use Rattle.parsing.specs.Places.{nought, Ends, Numbered, Deep, Stars};

// The atoms that text may name.
const ATOMS: usize = 32;

// ---- signs
// Where a sign ends, if it stands at the place. Inline, so that each sign is compared as a constant.
#[inline(always)]
fn sign_end(text: &[u8], at: usize, sign: &[u8]) -> Option<usize>
    requires { at ≤ length text.now }
    ensures { Ends text.now (after sign.now) at result }
{
    if text[at..].starts_with(sign) {
        Some(at + sign.len())
    } else {
        None
    }
}

// Of one sign or else another.
fn either_end(text: &[u8], at: usize, this: &[u8], other: &[u8]) -> Option<usize>
    requires { at ≤ length text.now }
    ensures { Ends text.now (λ u. else (after this.now u) (after other.now u)) at result }
{
    sign_end(text, at, this).or_else(|| sign_end(text, at, other))
}

// ---- an atom's number
// From 0 to 9, by the definition's tests: `is_ascii_digit` would first be proved to be these.
#[tactic(auto, unfolding(meaning::specs::Text::digit))]
fn is_digit(b: u8) -> bool
    ensures { result ≡ digit b }
{
    b'0' <= b && b <= b'9'
}

// Whether two bytes are the digits of a number from 10 to 31.
#[tactic(auto, using(crate::proofs::Numbers::digit_low), unfolding(meaning::specs::Text::two_digits))]
fn two_digits(b: u8, c: u8) -> bool
    ensures { result ≡ two_digits b c }
{
    b'1' <= b && is_digit(c) && number(b, c) < ATOMS
}

fn value(b: u8) -> usize
    requires { nought ≤ b }
    ensures { (result ≡ b - nought) × (result < 256) }
{
    usize::from(b - b'0')
}

// Of two digits.
#[tactic(auto, unfolding(meaning::specs::Text::number))]
fn number(b: u8, c: u8) -> usize
    requires { (nought ≤ b) × (nought ≤ c) }
    ensures { (result ≡ number b c) × (result < 65_536) }
{
    10 * value(b) + value(c)
}

// Where it ends, and what it is.
#[derive(Clone, Copy)]
pub struct Atom {
    pub end: usize,
    pub value: usize,
}

// The number that stands at a place: two digits where they are one, else one digit.
#[tactic(auto, using(crate::proofs::Numbers::digit_low, crate::proofs::Numbers::two_low))]
pub fn number_at(text: &[u8], at: usize) -> Option<Atom>
    requires { at ≤ length text.now }
    ensures { Numbered text.now at result }
{
    match &text[at..] {
        &[b, c, ..] if two_digits(b, c) => Some(Atom {
            end: at + 2,
            value: number(b, c),
        }),
        &[b, ..] if is_digit(b) => Some(Atom {
            end: at + 1,
            value: value(b),
        }),
        _ => None,
    }
}

// ---- formulas and paths
// Where the formula at a place ends.
#[cycle(form_end_path_end)]
pub fn form_end(text: &[u8], at: usize) -> Option<usize>
    requires { at ≤ length text.now }
    ensures { Deep read_form text.now at result }
{
    match *text.get(at)? {
        b'#' => either_end(text, at + 1, b"false", b"true"),
        b'p' => Some(number_at(text, at + 1)?.end),
        b'(' => {
            let path = path_end(text, at + 1)?;
            let mode = either_end(text, path, b".>?", b".>*")?;
            let form = form_end(text, mode)?;
            sign_end(text, form, b")")
        }
        _ => None,
    }
}

// Where the path at a place ends. Stars, of which there may be many, take no call each: the path behind them decides.
#[cycle(form_end_path_end)]
fn path_end(text: &[u8], at: usize) -> Option<usize>
    requires { at ≤ length text.now }
    ensures { Deep read_path text.now at result }
{
    let from = stars_end(text, at);
    match *text.get(from)? {
        b'&' => sign_end(text, from + 1, b"t"),
        b'?' => form_end(text, from + 1),
        b'(' => {
            let first = path_end(text, from + 1)?;
            let join = either_end(text, first, b"+", b";")?;
            let second = path_end(text, join)?;
            sign_end(text, second, b")")
        }
        _ => None,
    }
}

// Where a run of stars ends.
pub fn stars_end(text: &[u8], at: usize) -> usize
    requires { at ≤ length text.now }
    ensures { Stars text.now at result }
{
    at + stars(&text[at..])
}

// How many stars a text begins with.
fn stars(text: &[u8]) -> usize
    ensures { (result ≡ prefix_len (λ b. b == 42) text.now) × (result ≤ length text.now) }
{
    text.iter().take_while(|b| **b == b'*').count()
}
