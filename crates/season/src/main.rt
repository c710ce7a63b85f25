// The season program of document 01: a season file on standard input, a line for each event on standard output. A read that fails counts as the end of the
// input. After a write that fails the program stops, says so on standard error and ends with status 1.
#![tactic(auto)]

ghost use Rattle.std.specs.Prelude.{◌≤◌, length, take, OnOk, is_ok};
ghost use Rattle.std.specs.Io.KnownBytes.{Appends};
ghost use Rattle.season.specs.Loop.{Printed, HandedOver};

use season_run::Turn;
use season_run::beginning::begin;
use season_run::turning::turn;
use std::io;
use std::io::{Read, Write};
use std::process::ExitCode;

// "At most 65,535 bytes (later bytes are not read)."
fn main(rt: HostRuntime) -> ExitCode {
    let mut input = [0u8; 65535];
    let count = read_full(&mut rt.stdin(), &mut input);
    if run(&input[..count], &mut rt.stdout()).is_ok() {
        return ExitCode::SUCCESS;
    }
    let _ = rt
        .stderr()
        .write_all(b"season: output cut short: it could not be written\n");
    ExitCode::FAILURE
}

// Reads until the buffer is full, the input ends or a read fails: how many bytes it put at the buffer's front.
fn read_full(from: &mut impl Read, buffer: &mut [u8]) -> usize
    ensures { result ≤ length buffer.new }
{
    let mut done = 0;
    while let Ok(count @ 1..) = from.read(&mut buffer[done..]) {
        done += count;
    }
    done
}

// Makes room for the record, the serials and a line. An error says that a line was not written.
fn run<W: Write>(input: &[u8], out: &mut W) -> io::Result<()>
    ensures { OnOk result (HandedOver input.now (W.contents out.old) (W.contents out.new)) }
{
    let mut codeword = [0u8; 32768];
    let mut serials = [0u32; 32];
    let mut line = [0u8; 65600];
    run_within(input, &mut codeword, &mut serials, &mut line, out)
}

// Writes each turn's line until the run ends; after a write that fails it stops with its error. That the calls are the right ones, to the end, is proved
// (Printed), and that their lines are given to the writer, one after the other, where all were written (HandedOver).
fn run_within<W: Write>(
    input: &[u8],
    codeword: &mut [u8; 32768],
    serials: &mut [u32; 32],
    line: &mut [u8; 65600],
    out: &mut W,
) -> io::Result<()>
    ensures printed { Printed input.now codeword.old serials.old line.old (is_ok result) codeword.new serials.new line.new }
    ensures handed_over { OnOk result (HandedOver input.now (W.contents out.old) (W.contents out.new)) }
{
    let mut t = begin(input, codeword, serials, line);
    show(t, line, out)?;
    while let Some(s) = t.next {
        t = turn(input, s, codeword, serials, line);
        show(t, line, out)?;
    }
    Ok(())
}

// Writes the turn's line.
fn show<W: Write>(t: Turn, line: &[u8], out: &mut W) -> io::Result<()>
    requires { t.written ≤ length line.now }
    ensures { OnOk result (Appends (W.contents out.old) (W.contents out.new) (take t.written line.now)) }
{
    out.write_all(&line[..t.written])
}
