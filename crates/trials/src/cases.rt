// Cases by lists: of each case so many lines, the paths of its files.
ghost use Rattle.std.specs.Prelude.{◌≡◌, ◌≤◌, ◌-◌, length, drop};
ghost use Rattle.std.specs.Iterator.{at_most};
ghost use Rattle.trials.specs.Lists.{line_at, next_line_of};

use super::lists::{line_at, name_of, next_line};
use super::{LIST, NAMES, ROOM, load};
use std::rt::Files;

// The lines of a list that are left.
#[derive(Drop)]
struct Lines<'a> {
    rest: &'a [u8],
}

impl<'a> Lines<'a> {
    // Takes the next line; an empty one at the list's end.
    fn take_line(&mut self) -> &'a [u8]
        ensures line { result.now ≡ line_at self.old.rest.now 0 }
        ensures rest { self.new.rest.now ≡ drop (next_line_of self.old.rest.now 0) self.old.rest.now }
        ensures shorter { length self.new.rest.now ≤ length self.old.rest.now - 1 }
    {
        let line = line_at(self.rest, 0);
        self.rest = &self.rest[next_line(self.rest, 0)..];
        line
    }
}

impl<'a> Iterator for Lines<'a> {
    type Item = &'a [u8];

    ghost remaining = { λ s. at_most (length s.rest.now) };

    fn next(&mut self) -> Option<&'a [u8]> {
        if self.rest.is_empty() {
            return None;
        }
        Some(self.take_line())
    }
}

// Loads a file and hands it on.
fn with_file<F: Fn(&[u8])>(rt: &(impl Files + Print), path: &[u8], attempt: F)
    requires { F.IsAlwaysCallable attempt }
{
    let mut buffer = [0u8; ROOM];
    let file = load(rt, path, &mut buffer);
    attempt(file);
}

// Makes an attempt at each file of a list, which has a line a file.
fn each_listed<F: Fn(&[u8], &[u8])>(rt: &(impl Files + Print), list: &[u8], attempt: F)
    requires { F.IsAlwaysCallable attempt }
{
    for path in (Lines { rest: list }) {
        with_file(rt, path, |file| attempt(path, file));
    }
}

// Makes an attempt at each file of the list of that name.
pub fn each_file<F: Fn(&[u8], &[u8])>(rt: &(impl Files + Print), name: &[u8], attempt: F)
    requires { F.IsAlwaysCallable attempt }
{
    let mut room = [0u8; LIST];
    let paths = load(rt, name, &mut room);
    each_listed(rt, paths, attempt);
}

// Likewise of a list of names, which is shorter than one of paths.
pub fn each_named_file<F: Fn(&[u8], &[u8])>(rt: &(impl Files + Print), name: &[u8], attempt: F)
    requires { F.IsAlwaysCallable attempt }
{
    let mut room = [0u8; NAMES];
    let names = load(rt, name, &mut room);
    each_listed(rt, names, attempt);
}

// Makes an attempt at each case of the list of that name: its lines are by turns the path of a game's file and that of the file that goes with it.
pub fn each_case<F: Fn(&[u8], &[u8], &[u8])>(rt: &(impl Files + Print), name: &[u8], attempt: F)
    requires { F.IsAlwaysCallable attempt }
{
    let mut room = [0u8; LIST];
    let list = load(rt, name, &mut room);
    let mut lines = Lines { rest: list };
    while let Some(path) = lines.next() {
        let given_path = lines.take_line();
        with_file(rt, path, |game| {
            with_file(rt, given_path, |given| attempt(name_of(path), game, given));
        });
    }
}

// Likewise of a list whose cases have three files.
pub fn each_case_of_three<F: Fn(&[u8], &[u8], &[u8], &[u8])>(
    rt: &(impl Files + Print),
    name: &[u8],
    attempt: F,
)
    requires { F.IsAlwaysCallable attempt }
{
    let mut room = [0u8; LIST];
    let list = load(rt, name, &mut room);
    let mut lines = Lines { rest: list };
    while let Some(path) = lines.next() {
        let second = lines.take_line();
        let third = lines.take_line();
        with_file(rt, path, |game| {
            with_file(rt, second, |plan| {
                with_file(rt, third, |more| attempt(name_of(path), game, plan, more));
            });
        });
    }
}

// Makes an attempt with a buffer of each length, from none to as many entries as are held.
pub fn each_room<T: Copy, const N: usize, F: Fn(&mut [T])>(held: [T; N], attempt: F)
    requires { F.IsAlwaysCallable attempt }
{
    for room in 0..=N {
        let mut buffer = held;
        attempt(&mut buffer[..room]);
    }
}
