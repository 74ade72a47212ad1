// The verdicts of eight positions at once, as the eight bytes of a word, the first position in the lowest.
ghost use Rattle.std.specs.Prelude.{◌≡◌, ◌+◌, ◌≤◌, ◌<◌, ◌++◌, length, take, drop};
ghost use Rattle.std.proofs.lemmas.List.Edits.{sets};
ghost use Rattle.verdicts.specs.Bytes.{bytes_of};
ghost use Rattle.verdicts.specs.Code.{spread_bits, eight_verdicts, first_bytes};

// The bits of a byte, each in a byte of its own. The product has a copy of the first seven bits, seven places further up, for each
// byte, and the mask leaves bit i of copy i; the eighth bit is the last byte's.
fn spread(b: u64) -> u64
    requires { b < 256 }
    ensures { result ≡ spread_bits b }
{
    (b % 128 * 567382630219905 & 72340172838076673) + b / 128 * 72057594037927936
}

// The verdicts of eight positions from i on: the last column first, one place further up with each column before it.
pub fn verdicts_at(answers: &[u64], columns: usize, i: u64) -> u64
    requires { (columns ≤ length answers.now) × (columns ≤ 8) × (i < 64) }
    ensures { result ≡ eight_verdicts (take columns answers.now) i }
{
    let mut word: u64 = 0;
    for column in (0..columns).rev() {
        word = word * 2 + spread((answers[column] >> i) % 256);
    }
    word
}

// Writes the first n bytes of a word.
pub fn write_first(sheet: &mut [u8], at: usize, n: usize, word: u64)
    requires { (at + n ≤ length sheet.old) × (n ≤ 8) }
    ensures { sheet.new ≡ sets sheet.old at (first_bytes n word) }
{
    sheet[at..at + n].copy_from_slice(&word.to_le_bytes()[..n]);
}

// Writes 64 verdicts of the first column alone.
pub fn write_word(sheet: &mut [u8], from: usize, answers: &[u64])
    requires { (from + 64 ≤ length sheet.old) × (1 ≤ length answers.now) }
    ensures { sheet.new ≡ take from sheet.old ++ (bytes_of (take 1 answers.now) 64 ++ drop (from + 64) sheet.old) }
{
    let bits = answers[0];
    for group in 0..8 {
        let i = 8 * group;
        let word = spread((bits >> i as u64) % 256);
        write_first(sheet, from + i, 8, word);
    }
}
