//! Whether a script ends in edits.
ghost use Rattle.std.specs.Prelude.{◌≡◌, ◌||◌, ◌==◌, fold};
ghost use Rattle.tree_real.specs.ScriptEnd.{is_edit, step};

/// How the part of a script that was read so far ends.
#[derive(Clone, Copy)]
pub(crate) struct ScriptEnd {
    /// Whether the last line has a word.
    in_line: bool,
    /// The first byte of the last command, or 0.
    command: u8,
}

impl ScriptEnd {
    ghost use Rattle.tree_real.specs.ScriptEnd.{begun};

    /// The end of an empty script.
    pub fn new() -> ScriptEnd
        ensures { result ≡ begun }
    {
        ScriptEnd {
            in_line: false,
            command: 0,
        }
    }

    /// The end after these further bytes.
    pub fn after(self, bytes: &[u8]) -> ScriptEnd
        ensures { result ≡ fold step self bytes.now }
    {
        bytes.iter().fold(self, |end, byte| end.step(*byte))
    }

    fn step(self, byte: u8) -> ScriptEnd
        ensures { result ≡ step self byte }
    {
        let (in_line, command) = match byte {
            b'\n' => (false, self.command),
            b' ' | b'\t' => (self.in_line, self.command),
            b'#' => (true, self.command),
            _ if self.in_line => (true, self.command),
            _ => (true, byte),
        };
        ScriptEnd { in_line, command }
    }

    /// Whether the last command of a script is `put` or `drop`.
    pub fn is_edit(self) -> bool
        ensures { result ≡ is_edit self }
    {
        self.command == b'p' || self.command == b'd'
    }
}
