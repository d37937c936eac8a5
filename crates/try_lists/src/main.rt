// Tries the walks over a list of files: the length of each file that the list `files` names, which is as long as a list of paths may be, and then of each in the part of it that is as long as a list of names may be.
#![tactic(auto)]

use trials::{each_file, each_named_file, say, say_number};

// The length of one file.
fn say_length(rt: &impl Print, file: &[u8]) {
    say_number(rt, b" ", file.len());
}

fn main(rt: HostRuntime) {
    say(&rt, b"paths:");
    each_file(&rt, b"files", |_, file| say_length(&rt, file));
    say(&rt, b"\nnames:");
    each_named_file(&rt, b"files", |_, file| say_length(&rt, file));
    say(&rt, b"\n");
}
