// The work of translating an accepted formula: how many rules it has, and writing them.
#![tactic(auto)]

ghost use Rattle.std.specs.Prelude.{◌≡◌, ◌*◌, ◌+◌, ◌<◌, ◌≤◌, length, take};
ghost use Rattle.meaning.specs.Run.{written};
ghost use Rattle.meaning.specs.Record.{count, kind_at};
ghost use Rattle.meaning.specs.Rule.{words, rule_size};
ghost use Rattle.meaning.specs.Translation.{context, rules_at, translation, rule_number, rule_sum};
ghost use Rattle.paths.specs.Asking.{Formed, Ready};
ghost use Rattle.contexts.specs.Contexts.{contexts_of};
ghost use Rattle.copying.specs.Appended.{Appended};
ghost use Rattle.std.specs.List.{flat_map};
ghost use Rattle.rulings.specs.Rows.{rows_of};

use contexts::Contexts;
use records::layout;
use rules::RULE_SIZE;
use rulings::{Labels, Row, Rows};

// How many rules the translation has.
#[tactic(auto, using(meaning::proofs::RuleCount::sum_few), unfolding(meaning::specs::Translation::rule_sum))]
pub fn rule_count(records: &[u8], contexts: &Contexts) -> usize
    requires { Formed records.now × (contexts.now ≡ contexts_of records.now) }
    ensures { result ≡ rule_sum records.now (count records.now) + 1 }
{
    let mut rules: usize = 1;
    for r in 0..layout::record_count(records) {
        rules += count_at(records, contexts, r);
    }
    rules
}

// How many rules record r has. A struct of the records and their contexts would be no plainer: the public functions are given them apart, so
// each would build it and show its fact.
#[tactic(auto, using(crate::proofs::Rowing::rules_number, crate::proofs::Rowing::rules_few))]
fn count_at(records: &[u8], contexts: &Contexts, r: usize) -> usize
    requires { Formed records.now × (contexts.now ≡ contexts_of records.now) × (r < count records.now) }
    ensures number { result ≡ rule_number (kind_at records.now r) (context records.now r).mode }
    ensures few { result ≤ 4 }
{
    rulings::row_count(layout::kind_of(records, r), contexts[r].mode())
}

// Writes the rules of each record in turn, and at last the one that asserts the whole formula, and gives their number.
#[tactic(auto, using(copying::proofs::Appending::append_none, crate::proofs::Rowing::room_last))]
pub fn write_rules(records: &[u8], atoms: usize, contexts: &Contexts, out: &mut [u16]) -> usize
    requires { Ready records.now atoms × (contexts.now ≡ contexts_of records.now) × (rule_size * length (translation records.now atoms) ≤ length out.old) }
    ensures count { result ≡ length (translation records.now atoms) }
    ensures words { out.new ≡ written (words (translation records.now atoms)) out.old }
{
    let n = layout::record_count(records);
    let mut at: usize = 0;
    for r in 0..n {
        let rows = record_rows(records, atoms, contexts, r);
        let count = count_at(records, contexts, r);
        at = put_rows(out, at, &rows, count);
    }
    let last = rulings::assert_row(label(atoms, n - 1));
    copying::append(out, at, &last) / RULE_SIZE
}

// Writes the first rows, as many as count says, to the output from a place on, and gives the place after them. Over a part of the rows, as
// `rows.iter().take(count)`, the loop isn't unrolled, and the rows go by the stack: that is slower.
fn put_rows(out: &mut [u16], at: usize, rows: &[Row], count: usize) -> usize
    requires { (count ≤ length rows.now) × (at + rule_size * count ≤ length out.old) }
    ensures { Appended out.old at (flat_map (λ row. row) (take count rows.now)) result out.new }
{
    let mut end = at;
    for (i, row) in rows.iter().enumerate() {
        if i < count {
            end = copying::append(out, end, row);
        }
    }
    end
}

// The symbol of record r's label. `try_from` in place of `as` would ask again what is required.
fn label(atoms: usize, r: usize) -> u16
    requires { (atoms ≤ 32) × (r < 256) }
    ensures { result ≡ 2 + atoms + r }
{
    (2 + atoms + r) as u16
}

// The rules of record r. Its field a is below 65,536, as what two bytes hold, so `as` loses nothing.
#[tactic(auto, using(crate::proofs::Rowing::record_rules))]
fn record_rows(records: &[u8], atoms: usize, contexts: &Contexts, r: usize) -> Rows
    requires { Ready records.now atoms × (contexts.now ≡ contexts_of records.now) × (r < count records.now) }
    ensures { result ≡ rows_of (rules_at records.now atoms r) }
{
    let kind = layout::kind_of(records, r);
    let a = layout::field_a(records, r);
    let context = contexts[r];
    let labels = Labels {
        x: label(atoms, r),
        a: label(atoms, a),
        b: label(atoms, layout::field_b(records, r)),
        c: label(atoms, context.continuation()),
    };
    rulings::rows_of(kind, context.mode(), labels, a as u16)
}
