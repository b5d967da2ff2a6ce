// The printing program: records come in, and their rules go out as text.
#![tactic(auto)]

ghost use Rattle.std.specs.Prelude.{◌≡◌, ◌++◌, ◌*◌, ◌+◌, ◌<◌, ◌≤◌, IfOk, length, take};
ghost use Rattle.std.specs.Io.KnownBytes.{Consumes, IsAtEnd};
ghost use Rattle.meaning.specs.Run.{written};
ghost use Rattle.listing.specs.Page.{Room, Puts, line_of, lines_of};
ghost use Rattle.listing.specs.Printed.{spelled, line_end, printed, most_spelled, most_line};
ghost use Rattle.listing.specs.Printed.{gap as gap_after};

use records::layout;
use rules::{MOST_RULES, RULE_SIZE};
use std::io::{Read, Result, Write};

// The longest text: a line for each rule, six words of at most six bytes, and a last line of at most 12.
const MOST_LINE: usize = 36;

pub const MOST_TEXT: usize = MOST_LINE * MOST_RULES + 12;

const SPACE: u8 = b' ';

const LINE_END: u8 = b'\n';

// A rule's last word is followed by the line's end.
const LAST_WORD: usize = RULE_SIZE - 1;

// One byte more than a formula's records take, so that anything longer is refused.
const READ: usize = layout::MOST_BYTES + 1;

// Room for all rules, so that the lack of it is never the refusal.
const MOST_WORDS: usize = RULE_SIZE * MOST_RULES;

// Prints the rules of the records on standard input. A read or a write that fails is the error that comes back.
pub fn run(rt: HostRuntime) -> Result<()> {
    let mut records = [0u8; READ];
    let n = read_full(&mut rt.stdin(), &mut records)?;
    let mut out = [0u8; MOST_TEXT];
    let size = text(&records[..n], &mut out);
    rt.stdout().write_all(&out[..size])
}

// Reads until the buffer is full or the input ends, and gives the number of bytes read.
fn read_full<R: Read>(input: &mut R, bytes: &mut [u8]) -> Result<usize>
    ensures fits { IfOk result (λ n. n ≤ length bytes.new) }
    ensures read { IfOk result (λ n. Consumes (R.remaining input.old) (R.remaining input.new) (take n bytes.new)) }
    ensures ended { IfOk result (λ n. n < length bytes.new → IsAtEnd (R.remaining input.new)) }
{
    // A read takes as many bytes as the input gives, so no range counts the turns.
    let mut n = 0;
    while n < bytes.len() {
        let more = input.read(&mut bytes[n..])?;
        if more == 0 {
            return Ok(n);
        }
        n += more;
    }
    Ok(n)
}

// The output, and the place after the text that was put so far.
#[derive(Drop)]
struct Page<'a> {
    out: &'a mut [u8],
    at: usize,
}

impl Page<'_> {
    // Puts a line for each of the rules.
    #[tactic(auto, unfolding(crate::specs::Page::lines_of))]
    fn put_rules(&mut self, rules: &[[u16; RULE_SIZE]])
        requires { Room self.old (most_line * length rules.now) }
        ensures { Puts self.old (lines_of rules.now) (most_line * length rules.now) self.new }
    {
        for rule in rules {
            self.put_rule(rule);
        }
    }

    // Puts the six words of a rule, on a line.
    #[tactic(auto, unfolding(crate::specs::Page::line_of))]
    fn put_rule(&mut self, rule: &[u16; RULE_SIZE])
        requires { Room self.old most_line }
        ensures { Puts self.old (line_of rule.now) most_line self.new }
    {
        for (j, word) in rule.iter().enumerate() {
            self.put_number(*word, gap(j));
        }
    }

    // Puts the last line, a word and a number.
    fn put_last(&mut self, word: &[u8], n: u16)
        requires { Room self.old (length word.now + most_spelled) }
        ensures { Puts self.old (word.now ++ spelled n line_end) (length word.now + most_spelled) self.new }
    {
        self.put(word);
        self.put_number(n, LINE_END);
    }

    // Puts the digits of n, and a byte after them.
    fn put_number(&mut self, n: u16, end: u8)
        requires { Room self.old most_spelled }
        ensures { Puts self.old (spelled n end) most_spelled self.new }
    {
        let mut digits = [0u8; 20];
        let size = io::decimal(u64::from(n), &mut digits);
        self.put(&digits[..size]);
        self.put(&[end]);
    }

    // Puts the bytes after what was put so far.
    fn put(&mut self, bytes: &[u8])
        requires { Room self.old (length bytes.now) }
        ensures { Puts self.old bytes.now (length bytes.now) self.new }
    {
        self.at = copying::append(self.out, self.at, bytes);
    }
}

// What comes after word j of a rule.
#[tactic(auto, unfolding(crate::specs::Printed::gap))]
fn gap(j: usize) -> u8
    ensures { result ≡ gap_after j }
{
    if j == LAST_WORD { LINE_END } else { SPACE }
}

// Puts the text for the records at the start of the output, and gives its length.
pub fn text(records: &[u8], out: &mut [u8; MOST_TEXT]) -> usize
    ensures size { result ≡ length (printed records.now) }
    ensures bytes { out.new ≡ written (printed records.now) out.old }
{
    let mut words = [0u16; MOST_WORDS];
    let mut page = Page { out, at: 0 };
    match translate::translate(records, layout::MOST_ATOMS, &mut words) {
        Ok(count) => {
            let (rules, _) = words.as_chunks::<RULE_SIZE>();
            page.put_rules(&rules[..count]);
            // At most 1,021 by now, so `as` loses nothing.
            page.put_last(b"rules ", count as u16);
        }
        Err(refusal) => page.put_last(b"refused ", u8::from(refusal).into()),
    }
    page.at
}
