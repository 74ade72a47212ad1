// A fresh checkpoint: zeros, the format's number, and the copy of the rule: how it begins, and each entry's copy in its block.
ghost use Rattle.std.specs.Prelude.{◌≡◌, ◌≤◌, length};
ghost use Rattle.rule.specs.Words.{header_words};
ghost use Rattle.rule.specs.Words.{words as needed};
ghost use Rattle.checkpoint.specs.Fresh.{Fresh, copies};

use super::{header, words};
use blocks::word;
use rule::Rule;

// Writes the copies of the rule's entries into their blocks.
fn write_copies(rule: &Rule, words: &mut [u64])
    requires { needed rule.now.version rule.now.entries rule.now.count ≤ length words.old }
    ensures { words.new ≡ copies (header_words rule.now.version) rule.now.entries rule.now.count words.old }
{
    let mut at = rule.header_words();
    for k in 0..rule.count {
        let e = rule.entries[k];
        words[at + word::COPY_HEAD] = words::head_of(e);
        words[at + word::COPY_ENDS] = words::ends_of(e);
        at += rule::own_words(e) as usize;
    }
}

// Writes a fresh checkpoint into exactly the words that the rule needs.
pub fn write(rule: &Rule, words: &mut [u64])
    requires { (rule.now.version ≤ 2) × (length words.old ≡ needed rule.now.version rule.now.entries rule.now.count) }
    ensures { Fresh rule.now.version rule.now.entries rule.now.count words.new }
{
    words.fill(0);
    words[header::FORMAT] = words::FORMAT;
    words[header::COPY_START] = words::copy_start(rule);
    write_copies(rule, words);
}
