// How many records the formula of a text takes: each has one byte of its own in the text.
#![tactic(auto)]

ghost use Rattle.std.specs.Prelude.{◌≡◌, true, ◌≤◌, length};
ghost use Rattle.meaning.specs.Tree.{form_size};
ghost use Rattle.meaning.specs.Text.{most_text, read, is_read, form_in};
ghost use Rattle.counting.specs.Marks.{is_mark};

// Summed in two bytes and found without a branch, so that the compiler makes vector instructions of it.
pub fn size_of(text: &[u8]) -> usize
    requires { (length text.now ≤ most_text) × (is_read (read text.now) ≡ true) }
    ensures { result ≡ form_size (form_in text.now) }
{
    let n: u16 = text.iter().map(|&b| u16::from(is_mark(b))).sum();
    usize::from(n)
}

// Whether a byte is a record's own.
#[tactic(auto, unfolding(crate::specs::Marks::is_mark))]
fn is_mark(b: u8) -> bool
    ensures { result ≡ is_mark b }
{
    matches!(b, b'#' | b'p' | b'&' | b'?' | b'*' | b'+' | b';')
}
