// Shows one TXP file that is read on standard input. The text is that of crate `show`, and is written at once; where a read fails nothing is written.
#![tactic(auto)]

ghost use Rattle.std.specs.Prelude.{◌≤◌, length, IfOk};

use std::io;
use std::io::Read;

// Reads until the room is full, the input ends or a read fails: how many bytes were read.
fn read_input(from: &mut impl Read, bytes: &mut [u8]) -> io::Result<usize>
    ensures { IfOk result (λ got. got ≤ length bytes.old) }
{
    let mut got = 0;
    while got < bytes.len() {
        let more = from.read(&mut bytes[got..])?;
        if more == 0 {
            break;
        }
        got += more;
    }
    Ok(got)
}

// Writes the text of a file, which is never longer than the buffer for it. A write that fails says nothing.
fn show_file(to: &impl Print, file: &[u8]) {
    let mut text = [0u8; 65536];
    let length = show::render(file, &mut text);
    let _ = to.write_all(&text[..length]);
}

// A byte more than is shown tells a file that is too large.
fn main(rt: HostRuntime) {
    let mut bytes = [0u8; 16385];
    if let Ok(got) = read_input(&mut rt.stdin(), &mut bytes) {
        show_file(&rt, &bytes[..got]);
    }
}
