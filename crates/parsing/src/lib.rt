// Text of formulas: whether it is one, and its records in postorder.
#![tactic(auto)]

mod ends;
mod write;

ghost use Rattle.std.specs.Prelude.{◌≡◌, true, ◌≤◌, length};
ghost use Rattle.std.proofs.lemmas.List.Edits.{sets};
ghost use Rattle.meaning.specs.Text.{most_text, read, is_read, form_in};
ghost use Rattle.meaning.specs.Record.{most_records};
ghost use Rattle.meaning.specs.Tree.{form_size, postorder};

use records::layout;

// Whether all of the text is a formula. It takes a level of the stack for each bracket, so the text may not be longer than any formula's.
#[tactic(auto, using(crate::proofs::Whole::formula_read))]
pub fn is_formula(text: &[u8]) -> bool
    requires { length text.now ≤ most_text }
    ensures { result ≡ is_read (read text.now) }
{
    ends::form_end(text, 0) == Some(text.len())
}

// Writes the formula's records in postorder from the buffer's start on.
pub fn write_records(text: &[u8], buffer: &mut [u8; layout::MOST_BYTES])
    requires { (is_read (read text.now) ≡ true) × (form_size (form_in text.now) ≤ most_records) }
    ensures { buffer.new ≡ sets buffer.old 0 (postorder (form_in text.now)) }
{
    let mut writer = write::Writer { buffer, next: 0 };
    write::write_form(text, 0, &mut writer);
}
