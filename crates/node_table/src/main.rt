// Reads a table of nodes from standard input, one to a line, as name=value, and prints what each is answered. An empty
// line closes the settings and begins new ones. A line with no equals sign is read as a number.
#![tactic(auto)]

ghost use Rattle.std.specs.Prelude.{◌≤◌, length, IfOk};

use nodes::Settings;
use std::io::{self, Read};

// Of a longer table the beginning is read.
const TABLE_LENGTH: usize = 4096;

// Bytes are printed as they came, since they may be no text.
fn print_node(
    rt: &impl Print,
    settings: &mut Settings,
    name: &[u8],
    value: &[u8],
) -> io::Result<()> {
    let answer = answers::answer_of(settings.read_node(name, value));
    rt.write_all(name)?;
    rt.write_all(b"=")?;
    rt.write_all(value)?;
    println!(rt; ": {answer}")
}

fn print_closed(rt: &impl Print, settings: Settings) -> io::Result<()> {
    let closed = closing::close(settings);
    print!(rt;
        "closed: {}, absolute {}, multi-touch {}",
        closed.answer, closed.absolute as u8, closed.multi_touch as u8
    )?;
    print!(rt;
        ", raw {}, disable keyboard {}",
        closed.raw as u8, closed.disable_keyboard as u8
    )?;
    print!(rt;
        ", disable pointer {}, area {} x {}",
        closed.disable_pointer as u8, closed.width, closed.height
    )?;
    println!(rt;
        ", contacts {}, touch area {} x {}\n",
        closed.contacts, closed.touch_width, closed.touch_height
    )
}

fn print_number(rt: &impl Print, text: &[u8]) -> io::Result<()> {
    rt.write_all(text)?;
    match decimals::read_number(text) {
        Ok(value) => println!(rt; " says {value}"),
        Err(bad) => println!(rt; " is spoiled at {}", bad.place),
    }
}

fn take_line(rt: &impl Print, settings: &mut Settings, text: &[u8]) -> io::Result<()> {
    if text.is_empty() {
        print_closed(rt, *settings)?;
        *settings = Settings::fresh();
        return Ok(());
    }
    match text.iter().position(|&byte| byte == b'=') {
        Some(equals) => print_node(rt, settings, &text[..equals], &text[equals + 1..]),
        None => print_number(rt, text),
    }
}

// Reads until the lent bytes are full or the input ends, and answers how many were read. Kept: `read_to_end` needs the heap, and `io::copy`
// a buffer of its own.
fn read_full(input: &mut impl Read, bytes: &mut [u8]) -> io::Result<usize>
    ensures { IfOk result (λ count. count ≤ length bytes.new) }
{
    let mut done = 0;
    for _ in 0..bytes.len() {
        let count = input.read(&mut bytes[done..])?;
        done += count;
        if count == 0 || done == bytes.len() {
            break;
        }
    }
    Ok(done)
}

fn main(rt: HostRuntime) -> io::Result<()> {
    let mut table = [0; TABLE_LENGTH];
    let count = read_full(&mut rt.stdin(), &mut table)?;
    let mut settings = Settings::fresh();
    for line in table[..count].split_inclusive(|&byte| byte == b'\n') {
        take_line(&rt, &mut settings, line.strip_suffix(b"\n").unwrap_or(line))?;
    }
    Ok(())
}
