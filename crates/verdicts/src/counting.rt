// The columns of a sheet: bit k of each of its bytes, the answers of formula k.
ghost use Rattle.std.specs.Prelude.{true, false, ◌≡◌, ◌++◌, ◌≤◌, ◌<◌, length, drop};
ghost use Rattle.mtl.specs.Satisfaction.{any};
ghost use Rattle.verdicts.specs.Counts.{count_of, counts};
ghost use Rattle.verdicts.specs.Tally.{beyond};

// Whether a byte has a bit that is no formula's: it is then among all bits of the sheet taken together.
pub fn has_bit_beyond(sheet: &[u8], formulas: u64) -> bool
    requires { formulas < 64 }
    ensures { result ≡ any (length sheet.now) (beyond formulas sheet.now) }
{
    let mut all: u8 = 0;
    for verdict in sheet {
        all |= *verdict;
    }
    0 < (u64::from(all) >> formulas)
}

// How often formula k says yes.
fn count_yes(sheet: &[u8], k: u64) -> u64
    requires { k < 64 }
    ensures { (result ≡ count_of true k sheet.now (length sheet.now)) × (result ≤ length sheet.now) }
{
    let mut count: u64 = 0;
    for verdict in sheet {
        count += (u64::from(*verdict) >> k) % 2;
    }
    count
}

// Writes the counts of no and of yes of the first formulas.
pub fn write_counts(sheet: &[u8], formulas: usize, no: &mut [u64], yes: &mut [u64])
    requires { (formulas ≤ 8) × (formulas ≤ length «no».old) × (formulas ≤ length «yes».old) }
    ensures no_after { «no».new ≡ counts false formulas sheet.now ++ drop formulas «no».old }
    ensures yes_after { «yes».new ≡ counts true formulas sheet.now ++ drop formulas «yes».old }
{
    for k in 0..formulas {
        let count = count_yes(sheet, k as u64);
        yes[k] = count;
        no[k] = sheet.len() as u64 - count;
    }
}
