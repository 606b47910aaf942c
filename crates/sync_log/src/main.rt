// The log program: a sync text from standard input, its log to standard output.
#![tactic(auto)]

ghost use Rattle.std.specs.Prelude.{◌≤◌, length, replicate, ◌≡◌, Ok};
ghost use Rattle.definitions.specs.Log.{LogAnswer, log_bytes};
ghost use Rattle.sync_log.specs.Input.{InputRead};

use definitions::Logged;
use log_text::LOG_BYTES;
use std::io;
use std::io::{Read, Stdin};

// One byte more than the longest text, which tells a longer one: of a longer input these bytes have the log of all (`first-bytes` of crate grammar).
const TEXT_ROOM: usize = 65537;

// The input, however its bytes arrive: the bytes that were read, up to its end or to the end of the room for them; or that a read failed.
fn read_input(mut input: Stdin, buf: &mut [u8]) -> io::Result<usize>
    ensures { InputRead result buf.new }
{
    let mut done: usize = 0;
    // A `while`, since it steps by what a read gives.
    while done < buf.len() {
        match input.read(&mut buf[done..])? {
            0 => {
                return Ok(done);
            }
            more => {
                done += more;
            }
        }
    }
    Ok(done)
}

// A buffer that every log fits.
fn log_room() -> [u8; LOG_BYTES]
    ensures { result ≡ replicate log_bytes 0 }
{
    [0; LOG_BYTES]
}

// The log of a text, at the start of a buffer that every log fits.
fn log_of(text: &[u8], out: &mut [u8]) -> Logged
    requires { log_bytes ≤ length out.old }
    ensures { LogAnswer text.now out.old (Ok result) out.new }
{
    match log_text::log(text, out) {
        Ok(l) => l,
        // Never: there is room.
        Err(_) => Logged {
            bytes: 0,
            verdict: Ok(()),
            empty: false,
        },
    }
}

// Reads a text, and writes its log; what fails is reported on standard error.
fn main(rt: HostRuntime) {
    let mut text = [0u8; TEXT_ROOM];
    let mut out = log_room();
    match read_input(rt.stdin(), &mut text) {
        Ok(n) => {
            let logged = log_of(&text[..n], &mut out);
            let end = logged.bytes;
            if rt.stdout().write_all(&out[..end]).is_err() {
                let _ = rt
                    .stderr()
                    .write_all(b"sync_log: a write to standard output failed\n");
            }
        }
        Err(_) => {
            let _ = rt
                .stderr()
                .write_all(b"sync_log: a read of standard input failed\n");
        }
    }
}
