// What the programs that try the calls share: the files of their cases, and what they print.
#![tactic(auto)]

ghost use Rattle.std.specs.Prelude.{◌≡◌, ◌≤◌, length};
ghost use Rattle.files.specs.Parts.{IsPrefixLen};

use records::Header;
use std::fs::File;
use std::io::Read;
use std::rt::Files;
use std::str::from_utf8;

pub mod cases;
pub mod lists;
pub mod output;
pub mod refusals;

pub use cases::{each_case, each_case_of_three, each_file, each_named_file, each_room};
pub use output::{say, say_answer, say_buffer, say_heading, say_number, say_numbers, say_written};

// One more than the bytes of the longest legal file, so that a longer one is refused and not cut to fit.
pub const ROOM: usize = Header::LONGEST_FILE + 1;

// As many bytes as a list of paths has at most.
pub const LIST: usize = 65536;

// As many bytes as a list of the names of files has at most.
pub const NAMES: usize = 4096;

// Reads until the buffer is full, the file ends or a read fails, and gives how many bytes it put at the buffer's start.
// Unlike `files::read_whole` it keeps what was read before a failure. A turn adds as many bytes as the system gives, so no `for` counts the turns.
fn read_full<R: Read>(file: &mut R, buffer: &mut [u8]) -> usize
    ensures { IsPrefixLen result buffer.new }
{
    let mut done = 0;
    while done < buffer.len() {
        let Ok(count) = file.read(&mut buffer[done..]) else {
            return done;
        };
        if count == 0 {
            return done;
        }
        done += count;
    }
    done
}

// Says that a file is not there, and that none of its bytes are.
fn absent(rt: &impl Print) -> usize
    ensures { result ≡ 0 }
{
    say(rt, b"absent ");
    0
}

// Reads the file to the start of the buffer, and gives how many bytes. A file that is not there is told from an empty one.
fn read(rt: &(impl Files + Print), name: &[u8], buffer: &mut [u8]) -> usize
    ensures { IsPrefixLen result buffer.new }
{
    let Ok(path) = from_utf8(name) else {
        return absent(rt);
    };
    let Ok(mut file) = File::open(rt, path) else {
        return absent(rt);
    };
    read_full(&mut file, buffer)
}

// The file's bytes, as many as the buffer has room for. No contract can say which.
pub fn load<'a>(rt: &(impl Files + Print), name: &[u8], buffer: &'a mut [u8]) -> &'a [u8]
    ensures { length result.now ≤ length buffer.old }
{
    let size = read(rt, name, buffer);
    let whole = &buffer[..];
    &whole[..size]
}
