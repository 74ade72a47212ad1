// An entry's line, and its operands' lines behind it.
#![tactic(auto)]

ghost use Rattle.window.specs.Window.{Keeps};
ghost use Rattle.telling.specs.Lines.{Telling, Tells, TellingEither, TellsEither};

use decimal::Text;
use engine::table::Row;
use sentences::saying::Follows;
use sentences::{saying, sentence};
use window::KeptCopy;
use window::view::View;

// Writes the lines of entry k at position i, and gives whether the entry holds there.
#[cycle(tell_tell_either)]
pub fn tell(
    table: &[Row; 128],
    records: &[u8],
    view: &View,
    copy: &mut KeptCopy,
    waiting: &mut KeptCopy,
    words: &mut [u64],
    k: usize,
    i: u64,
    text: &mut Text,
) -> bool
    requires { Telling table.now view.now records.now words.old copy.old waiting.old k i text.old }
    ensures tells { Tells table.now view.now records.now k i text.old result text.new }
    ensures keeps { Keeps records.now copy.new × Keeps records.now waiting.new }
{
    let own = saying::say(table, records, view, copy, waiting, words, k, i);
    sentence::put_line(k, i, own.says, text);
    match own.follows {
        Follows::Nothing(holds) => holds,
        Follows::One(there, turned) => {
            let holds = tell(
                table,
                records,
                view,
                copy,
                waiting,
                words,
                k - 1,
                there,
                text,
            );
            holds != turned
        }
        Follows::Either => tell_either(table, records, view, copy, waiting, words, k, i, text),
    }
}

// Behind the line of an or: its left operand's lines if that is yes, else its right's; both where neither is. Gives whether the or holds.
#[cycle(tell_tell_either)]
fn tell_either(
    table: &[Row; 128],
    records: &[u8],
    view: &View,
    copy: &mut KeptCopy,
    waiting: &mut KeptCopy,
    words: &mut [u64],
    k: usize,
    i: u64,
    text: &mut Text,
) -> bool
    requires { TellingEither table.now view.now records.now words.old copy.old waiting.old k i text.old }
    ensures tells_either { TellsEither table.now view.now records.now k i text.old result text.new }
    ensures keeps { Keeps records.now copy.new × Keeps records.now waiting.new }
{
    let left = usize::from(table[k].left);
    let start = text.len();
    let left_holds = tell(table, records, view, copy, waiting, words, left, i, text);
    if left_holds {
        return true;
    }
    let middle = text.len();
    let right_holds = tell(table, records, view, copy, waiting, words, k - 1, i, text);
    if !right_holds {
        return false;
    }
    text.cut(start, middle);
    true
}
