// The reader of lines.
ghost use Rattle.std.specs.Prelude.{◌≡◌, ◌≤◌, length};

pub mod walk;

// A reader that walks a sheet in place: the lines before `offset` are read, and there are `read` of them. It holds the whole
// sheet, and not what is left of it, since it is asked for in this form.
#[derive(Clone, Copy)]
pub struct Lines<'s> {
    sheet: &'s [u8],
    offset: usize,
    read: usize,
    ghost within: { offset ≤ length sheet.now },
    // a line takes a byte at least
    ghost counted: { read ≤ offset },
}

impl Lines<'_> {
    // How many lines have been handed out.
    pub fn read(&self) -> usize
        ensures { result ≡ self.now.read }
    {
        self.read
    }
}
