// Reads rule.krl and day.klg from its directory, and prints the text that crate `report` writes for them.
#![tactic(auto)]

ghost use Rattle.io.specs.Counts.{IsPrefixLen};

use std::fs::File;
use std::io::{Read, Result};
use std::rt::Files;

// The bytes of a file, at most as many as buf holds; an absent file counts as empty.
fn read_file(rt: &impl Files, path: &str, buf: &mut [u8]) -> usize
    ensures { IsPrefixLen result buf.new }
{
    let Ok(mut file) = File::open(rt, path) else {
        return 0;
    };
    let mut n = 0;
    while n < buf.len() {
        let Ok(more) = file.read(&mut buf[n..]) else {
            break;
        };
        if more == 0 {
            break;
        }
        n += more;
    }
    n
}

// One byte more than a file may have shows that it is too long.
fn main(rt: HostRuntime) -> Result<()> {
    let mut rule = [0u8; 65537];
    let mut log = [0u8; 65537];
    let rule_len = read_file(&rt, "rule.krl", &mut rule);
    let log_len = read_file(&rt, "day.klg", &mut log);
    let mut text = [0u8; 303089];
    let len = report::report(&rule[..rule_len], &log[..log_len], &mut text);
    rt.write_all(&text[..len])
}
