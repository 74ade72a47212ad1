// Verdict buffers (sheets): verdicts written into one, and the counts of no and of yes in one. Bit k of a verdict byte is the answer of
// formula k.
#![tactic(auto)]

ghost use Rattle.std.specs.Prelude.{◌≡◌, ◌++◌, ◌+◌, ◌≤◌, length, take, drop};
ghost use Rattle.verdicts.specs.Bytes.{bytes_of};
ghost use Rattle.verdicts.specs.Tally.{answer, Tallies};

mod counting;
mod eight;

use refusal::Refusal;

// Writes n verdicts from `from` on, from as many words of answers as there are columns: eight positions at a time. A full word of one column is written by
// itself, which is what a rule of one formula mostly gives.
pub fn write_answers(sheet: &mut [u8], from: usize, n: usize, answers: &[u64; 8], columns: usize)
    requires { (from + n ≤ length sheet.old) × (n ≤ 64) × (columns ≤ 8) }
    ensures { sheet.new ≡ take from sheet.old ++ (bytes_of (take columns answers.now) n ++ drop (from + n) sheet.old) }
{
    if (columns == 1) & (n == 64) {
        eight::write_word(sheet, from, answers);
        return;
    }
    for group in 0..n / 8 {
        let i = 8 * group;
        let word = eight::verdicts_at(answers, columns, i as u64);
        eight::write_first(sheet, from + i, 8, word);
    }
    let i = n / 8 * 8;
    if i < n {
        let word = eight::verdicts_at(answers, columns, i as u64);
        eight::write_first(sheet, from + i, n - i, word);
    }
}

// Writes the counts of no and of yes into the first words, one of each a formula; or refusal 15.
pub fn tally(
    sheet: &[u8],
    formulas: u64,
    no: &mut [u64; 8],
    yes: &mut [u64; 8],
) -> Result<(), Refusal>
    ensures { Tallies formulas sheet.now «no».old «yes».old (answer result) «no».new «yes».new }
{
    if (formulas < 1) | (8 < formulas) {
        return Err(Refusal::SheetByte);
    }
    if counting::has_bit_beyond(sheet, formulas) {
        return Err(Refusal::SheetByte);
    }
    counting::write_counts(sheet, formulas as usize, no, yes);
    Ok(())
}
