// Weighs rules that are written in hexadecimal on standard input, one to a line behind a name and a colon, and prints what
// each call answers. The file stdin has every way of meeting each refusal, and stdout what document 01 says of it.
#![tactic(auto)]

ghost use Rattle.std.specs.Prelude.{◌<◌, ◌≤◌, length, IfSome};
ghost use Rattle.std.proofs.Props.{props};

use rule::Measured;
use std::io;
use std::io::Read;

// What has been read of a line: whether its name is still going on, the first bytes of its rule, as many as have room, and a first
// digit that waits for its second.
#[derive(Drop)]
struct Line {
    is_name: bool,
    rule: [u8; 4096],
    len: usize,
    first: Option<u8>,
    ghost within: { len ≤ 4096 },
    ghost digit: { IfSome first (λ d. d < 16) } by { Prim.hlevel props },
}

// The value of a digit in hexadecimal.
fn digit(c: u8) -> Option<u8>
    ensures { IfSome result (λ d. d < 16) }
{
    match c {
        b'0'..=b'9' => Some(c - b'0'),
        b'a'..=b'f' => Some(c - b'a' + 10),
        _ => None,
    }
}

impl Line {
    fn new() -> Line {
        Line {
            is_name: true,
            rule: [0; 4096],
            len: 0,
            first: None,
        }
    }

    // Begins the next line. What bytes the last one had stay: none of them is read again.
    fn begin(&mut self) {
        self.is_name = true;
        self.len = 0;
        self.first = None;
    }

    fn push(&mut self, byte: u8) {
        if self.len < 4096 {
            self.rule[self.len] = byte;
            self.len += 1;
        }
    }

    // Takes the next character; what is no digit in hexadecimal is passed over.
    fn take(&mut self, c: u8) {
        if self.is_name {
            self.is_name = c != b':';
            return;
        }
        let Some(d) = digit(c) else {
            return;
        };
        match self.first {
            Some(first) => {
                self.first = None;
                self.push(first * 16 + d);
            }
            None => self.first = Some(d),
        }
    }
}

fn show(rt: &impl Print, rule: &[u8]) -> io::Result<()> {
    match rule::measure(rule) {
        Ok(Measured { words, reach }) => println!(rt; " words {words}, reach {reach}"),
        Err(refusal) => println!(rt; " {refusal}"),
    }
}

fn run(rt: &impl Print, text: &[u8]) -> io::Result<()> {
    let mut line = Line::new();
    for c in text {
        if *c == b'\n' {
            show(rt, &line.rule[..line.len])?;
            line.begin();
        } else {
            if line.is_name {
                rt.write_all(&[*c])?;
            }
            line.take(*c);
        }
    }
    Ok(())
}

// Reads until buf is full, the input ends or a read fails, and gives how many bytes lie at the start of buf.
fn read_full(input: &mut impl Read, buf: &mut [u8]) -> usize
    ensures { result ≤ length buf.new }
{
    let mut done = 0;
    while done < buf.len() {
        match input.read(&mut buf[done..]) {
            Ok(0) | Err(_) => break,
            Ok(n) => done += n,
        }
    }
    done
}

fn main(rt: HostRuntime) -> io::Result<()> {
    let mut text = [0u8; 65536];
    let n = read_full(&mut rt.stdin(), &mut text);
    run(&rt, &text[..n])
}
