// Lists of cases, a path in each line, and what a path begins with.
ghost use Rattle.std.specs.Prelude.{◌≡◌, ◌-◌, ◌≤◌, length};
ghost use Rattle.trials.specs.Lists.{place_of, line_at, next_line_of, name_of};

// Where the byte first stands from `start` on, or the text's end.
pub fn find(text: &[u8], start: usize, byte: u8) -> usize
    requires { start ≤ length text.now }
    ensures { (result ≡ place_of text.now start byte) × (start ≤ result) × (result ≤ length text.now) }
{
    for at in start..text.len() {
        if text[at] == byte {
            return at;
        }
    }
    text.len()
}

// The line that begins at `start`; an empty one at the list's end.
pub fn line_at(list: &[u8], start: usize) -> &[u8]
    requires { start ≤ length list.now }
    ensures { result.now ≡ line_at list.now start }
{
    let end = find(list, start, b'\n');
    &list[start..end]
}

// Where the next line begins, or the list's end: fewer bytes are left, if any were.
pub fn next_line(list: &[u8], start: usize) -> usize
    requires { start ≤ length list.now }
    ensures { (result ≡ next_line_of list.now start) × (start ≤ result) × (result ≤ length list.now) × (length list.now - result ≤ length list.now - start - 1) }
{
    let end = find(list, start, b'\n');
    if end < list.len() {
        return end + 1;
    }
    end
}

// The name of a case: the folder in the paths of its files.
pub fn name_of(path: &[u8]) -> &[u8]
    ensures { result.now ≡ name_of path.now }
{
    let end = find(path, 0, b'/');
    &path[..end]
}
