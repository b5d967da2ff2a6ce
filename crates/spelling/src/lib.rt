// The text of a formula's records, in the signs of telingo.
#![tactic(auto)]

mod sign;

ghost use Rattle.std.specs.Prelude.{◌≡◌, length};
ghost use Rattle.std.proofs.lemmas.List.Edits.{sets};
ghost use Rattle.meaning.specs.Text.{whole_text};
ghost use Rattle.spelling.specs.Spelling.{text_at, Spellable, Spelling};
ghost use Rattle.spelling.specs.Page.{Puts};

use records::layout;
use shapes::Use;
use sign::Page;

// No formula's text has more bytes.
pub const MOST_TEXT: usize = 1530;

// Puts the whole formula's text at the start of the buffer, and gives how many bytes it has.
pub fn spell_formula(records: &[u8], buffer: &mut [u8; MOST_TEXT]) -> usize
    requires { Spellable records.now }
    ensures { (result ≡ length (whole_text records.now)) × (buffer.new ≡ sets buffer.old 0 (whole_text records.now)) }
{
    let mut page = Page { buffer, size: 0 };
    spell_record(records, layout::record_count(records) - 1, &mut page);
    page.size
}

// Puts the text of record r's tree. A part is an earlier record: one stands after the record's sign, two stand in brackets with the sign in between.
fn spell_record(records: &[u8], r: usize, page: &mut Page)
    requires { Spelling records.now r page.old.size }
    ensures { Puts page.old (text_at records.now r) page.new }
{
    let kind = layout::kind_of(records, r);
    let a = layout::field_a(records, r);
    let b = layout::field_b(records, r);
    let Use::Child(_) = shapes::use_a(kind) else {
        page.put_own(kind, a);
        return;
    };
    let Use::Child(_) = shapes::use_b(kind) else {
        page.put_own(kind, a);
        spell_record(records, a, page);
        return;
    };
    page.put(b"(");
    spell_record(records, a, page);
    page.put_own(kind, a);
    spell_record(records, b, page);
    page.put(b")");
}
