use ufs_model::{Desc, Op};

/// How a path is opened.
#[derive(Clone, Copy)]
pub struct Mode {
    pub read: bool,
    pub write: bool,
    pub creat: bool,
    pub excl: bool,
    pub trunc: bool,
    pub append: bool,
}

impl Mode {
    ghost use Rattle.std.specs.Prelude.{◌≡◌};
    ghost use Rattle.std.specs.Option.{option_map};
    ghost use Rattle.ufs_model.specs.Descriptors as descriptors;
    ghost use Rattle.ufs_calls.specs.Modes.{mode_of, mode_asked};

    /// The mode of an `open`; no other request has one.
    pub fn of(op: &Op) -> Option<Mode>
        ensures { option_map mode_of result ≡ mode_asked op.now }
    {
        match op {
            Op::OpenFile {
                read,
                write,
                creat,
                excl,
                trunc,
                append,
                ..
            } => Some(Mode {
                read: *read,
                write: *write,
                creat: *creat,
                excl: *excl,
                trunc: *trunc,
                append: *append,
            }),
            _ => None,
        }
    }

    /// Whether the flags may stand together: `excl` goes with `creat`, and `trunc` with leave to write.
    pub fn is_allowed(self) -> bool
        ensures { result ≡ descriptors.is_mode (mode_of self) }
    {
        !(self.excl && !self.creat) && !(self.trunc && !self.write)
    }

    /// The descriptor that an `open` of the file gives.
    pub fn desc(self, file: Option<u32>) -> Desc
        ensures { result ≡ descriptors.desc_of (mode_of self) file }
    {
        Desc {
            file,
            at: 0,
            read: self.read,
            write: self.write,
            append: self.append,
        }
    }
}
