// The front door: the services, which the crate `pasturequill_c` hands on to C. No function here has a `requires`; each states its complete
// outcome, the answer and every lent buffer, on every input. The specification's words for these are in the crate `meaning`, in specs/Service.
#![tactic(auto)]

ghost use Rattle.std.specs.Prelude.{◌≡◌, length};
ghost use Rattle.meaning.specs.Service.{check_answer, expand_answer, expand_after, value_answer, value_after, translate_answer, translate_after, judge_answer};
ghost use Rattle.meaning.specs.Service.{write_answer, write_after, read_answer, read_after};

use judge::Judged;
use refusals::Counted;
use value::Valued;

// Check: 0 if the bytes are the records of a formula over `atoms` atoms, else the number of the first refusal that applies.
pub fn pasturequill_check(records: &[u8], atoms: u64) -> u8
    ensures { result ≡ check_answer records.now atoms }
{
    refusals::number(checks::check(records, atoms))
}

// Expand: the number of records of the formula in core kinds, and in the output these records in postorder, six bytes each.
pub fn pasturequill_expand(records: &[u8], atoms: u64, out: &mut [u8]) -> Counted
    ensures refusal { result.refusal ≡ (expand_answer records.now atoms (length out.old)).refusal }
    ensures count { result.count ≡ (expand_answer records.now atoms (length out.old)).count }
    ensures bytes { out.new ≡ expand_after records.now atoms out.old }
{
    expand::expand(records, atoms, out).into()
}

// Value: the whole formula's value at the first instant, and in the table each record's values, a row of `instants` bytes each.
pub fn pasturequill_value(
    records: &[u8],
    atoms: u64,
    instants: u64,
    cells: &[u8],
    table: &mut [u8],
) -> Valued
    ensures refusal { result.refusal ≡ (value_answer records.now atoms instants cells.now (length table.old)).refusal }
    ensures value { result.value ≡ (value_answer records.now atoms instants cells.now (length table.old)).value }
    ensures table { table.new ≡ value_after records.now atoms instants cells.now table.old }
{
    value::value(records, atoms, instants, cells, table).into()
}

// Translate: the number of rules, and in the output each rule's six words; the last rule asserts the whole formula.
pub fn pasturequill_translate(records: &[u8], atoms: u64, rules: &mut [u16]) -> Counted
    ensures refusal { result.refusal ≡ (translate_answer records.now atoms (length rules.old)).refusal }
    ensures count { result.count ≡ (translate_answer records.now atoms (length rules.old)).count }
    ensures words { rules.new ≡ translate_after records.now atoms rules.old }
{
    translate::translate(records, atoms, rules).into()
}

// Judge: whether every rule holds at all its instants of a filled trace, and else the first rule that fails and its first failing instant.
pub fn pasturequill_judge(rules: &[u16], width: u64, instants: u64, cells: &[u8]) -> Judged
    ensures refusal { result.refusal ≡ (judge_answer rules.now width instants cells.now).refusal }
    ensures holds { result.holds ≡ (judge_answer rules.now width instants cells.now).holds }
    ensures rule { result.rule ≡ (judge_answer rules.now width instants cells.now).rule }
    ensures instant { result.instant ≡ (judge_answer rules.now width instants cells.now).instant }
{
    judge::judge(rules, width, instants, cells).into()
}

// Write text: the number of bytes of the formula's text, and in the output this text.
pub fn pasturequill_write_text(records: &[u8], atoms: u64, text: &mut [u8]) -> Counted
    ensures refusal { result.refusal ≡ (write_answer records.now atoms (length text.old)).refusal }
    ensures count { result.count ≡ (write_answer records.now atoms (length text.old)).count }
    ensures bytes { text.new ≡ write_after records.now atoms text.old }
{
    text::writing::write_text(records, atoms, text).into()
}

// Read text: the number of records of the formula whose text this is, and in the output these records in postorder.
pub fn pasturequill_read_text(text: &[u8], atoms: u64, records: &mut [u8]) -> Counted
    ensures refusal { result.refusal ≡ (read_answer text.now atoms (length records.old)).refusal }
    ensures count { result.count ≡ (read_answer text.now atoms (length records.old)).count }
    ensures bytes { records.new ≡ read_after text.now atoms records.old }
{
    text::reading::read_text(text, atoms, records).into()
}
