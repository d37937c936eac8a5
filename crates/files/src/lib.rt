// Files read whole into lent buffers, and texts written whole. Which bytes are read and how many are written is the operating system's;
// what follows each read and each write is decided here, and stated.
#![tactic(auto)]

ghost use Rattle.std.specs.Prelude.{◌-◌, ◌^◌, ◌≡◌, length, take};
ghost use Rattle.std.specs.Io.KnownBytes.{Appends};
ghost use Rattle.files.specs.Parts.{IsPrefixLen, Taken, Within, next_after_of, after_read_of, after_write_of, is_whole};

use std::fs::File;
use std::io::{ErrorKind, Read, Write};
use std::ops::ControlFlow;
use std::rt::Files;
use std::str::from_utf8;

// How often a read or a write that a signal interrupts is made, at most.
const TRIES: usize = 1000;

// One read into the buffer: how many bytes it moves, none of them at the file's end; `None` where it fails.
fn read_part<R: Read>(file: &mut R, buffer: &mut [u8]) -> Option<usize>
    ensures { Within (length buffer.new) result }
{
    for _ in 0..TRIES {
        match file.read(buffer) {
            Ok(count) => return Some(count),
            Err(error) => {
                if error.kind() != ErrorKind::Interrupted {
                    return None;
                }
            }
        }
    }
    None
}

// What follows a read or a write that had `done` bytes before it: another one, with so many bytes before it, or the end, with so many in all.
// Where it fails, `kept` count in all.
fn next_after(done: usize, kept: usize, part: Option<usize>) -> ControlFlow<usize, usize>
    requires { Within (2 ^ 64 - 1 - done) part }
    ensures { result ≡ next_after_of done kept part }
{
    match part {
        None => ControlFlow::Break(kept),
        Some(0) => ControlFlow::Break(done),
        Some(more) => ControlFlow::Continue(done + more),
    }
}

// What follows a read that had `done` bytes before it.
fn after_read(done: usize, part: Option<usize>) -> ControlFlow<usize, usize>
    requires { Within (2 ^ 64 - 1 - done) part }
    ensures { result ≡ after_read_of done part }
{
    next_after(done, 0, part)
}

// Reads to the file's end, or until the buffer is full, and gives how many bytes; none where a read fails.
// A turn adds as many bytes as the system gives, so no `for` counts the turns, here and in `write_whole`.
fn read_whole<R: Read>(file: &mut R, buffer: &mut [u8]) -> usize
    ensures { IsPrefixLen result buffer.new }
{
    let mut done = 0;
    while done < buffer.len() {
        let part = read_part(file, &mut buffer[done..]);
        match after_read(done, part) {
            ControlFlow::Continue(count) => done = count,
            ControlFlow::Break(count) => return count,
        }
    }
    done
}

// The file's bytes at the start of the buffer, and how many: an absent or unreadable file counts as empty.
// A file can be opened only by a name that is UTF-8.
pub fn load<R: Files>(rt: &R, name: &[u8], buffer: &mut [u8]) -> usize
    ensures { IsPrefixLen result buffer.new }
{
    let Ok(path) = from_utf8(name) else {
        return 0;
    };
    let Ok(mut file) = File::open(rt, path) else {
        return 0;
    };
    read_whole(&mut file, buffer)
}

// One write of the bytes: how many it moves; `None` where it fails.
// One loop for this and `read_part` would take a closure that changes what it captures, and a clause could not say what that becomes.
fn write_part<W: Write>(to: &mut W, bytes: &[u8]) -> Option<usize>
    ensures within { Within (length bytes.now) result }
    ensures taken { Taken (W.contents to.old) (W.contents to.new) bytes.now result }
{
    for _ in 0..TRIES {
        match to.write(bytes) {
            Ok(count) => return Some(count),
            Err(error) => {
                if error.kind() != ErrorKind::Interrupted {
                    return None;
                }
            }
        }
    }
    None
}

// What follows a write that had `done` bytes before it.
fn after_write(done: usize, part: Option<usize>) -> ControlFlow<usize, usize>
    requires { Within (2 ^ 64 - 1 - done) part }
    ensures { result ≡ after_write_of done part }
{
    next_after(done, done, part)
}

// Writes until the whole text is taken, or a write fails or takes nothing, and gives how many bytes were taken.
// Where it is known what the writer holds, it holds just those bytes more.
pub fn write_whole<W: Write>(to: &mut W, text: &[u8]) -> usize
    ensures prefix_len { IsPrefixLen result text.now }
    ensures taken { Appends (W.contents to.old) (W.contents to.new) (take result text.now) }
{
    let mut done = 0;
    while done < text.len() {
        let part = write_part(to, &text[done..]);
        match after_write(done, part) {
            ControlFlow::Continue(count) => done = count,
            ControlFlow::Break(count) => return count,
        }
    }
    done
}

// Whether the whole text was taken.
pub fn is_whole(taken: usize, text: &[u8]) -> bool
    ensures { result ≡ is_whole «taken» text.now }
{
    taken == text.len()
}
