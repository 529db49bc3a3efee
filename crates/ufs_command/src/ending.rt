ghost use Rattle.std.specs.Prelude.{◌≡◌};
ghost use Rattle.ufs_command.specs.Texts.{bad_geometry_line};

use ufs_layout::BadGeometry;

/// How a command ends where the sink doesn't fail.
#[derive(Clone, Copy, Debug, PartialEq, Eq)]
pub enum Ending {
    /// All is done and written.
    Done,
    /// The words are no command.
    Usage,
    /// The three numbers are no geometry.
    BadGeometry { bad: BadGeometry },
    /// The command isn't built yet.
    NotBuilt,
    /// The text is no script.
    BadScript,
    /// The disk is too small.
    TooSmall,
    /// The image stands for no tree.
    NoTree,
    /// A call of the disk failed.
    DeviceFault,
    /// There was no memory.
    OutOfMemory,
    /// The source failed.
    SourceFault,
    /// Something is damaged in the image.
    Damaged,
    /// The text isn't that of a legal history.
    Illegal,
}

fn bad_geometry(bad: BadGeometry) -> &'static [u8]
    ensures { result.now ≡ bad_geometry_line bad }
{
    match bad {
        BadGeometry::Blocks => b"ufs: bad geometry 1\n",
        BadGeometry::Inodes => b"ufs: bad geometry 2\n",
        BadGeometry::Journal => b"ufs: bad geometry 3\n",
        BadGeometry::NoData => b"ufs: bad geometry 4\n",
    }
}

impl Ending {
    ghost use Rattle.std.specs.Prelude.{◌≡◌};
    ghost use Rattle.ufs_command.specs.Endings.{status_of, fixed_line_of};

    /// The status of the process.
    pub fn status(self) -> u8
        ensures { result ≡ status_of self }
    {
        match self {
            Ending::Done => 0,
            Ending::Usage => 1,
            Ending::BadGeometry { .. } => 1,
            Ending::NotBuilt => 2,
            Ending::BadScript => 2,
            Ending::TooSmall => 3,
            Ending::NoTree => 3,
            Ending::DeviceFault => 4,
            Ending::OutOfMemory => 5,
            Ending::SourceFault => 6,
            Ending::Damaged => 8,
            Ending::Illegal => 9,
        }
    }

    /// The line that is written last, with its line end, where it is always the same; none where the line
    /// has a number of the disk, of the image or of a script's line, or where there is no such line.
    pub fn fixed_line(self) -> &'static [u8]
        ensures { result.now ≡ fixed_line_of self }
    {
        match self {
            Ending::Done => b"",
            Ending::Usage => b"usage: ufs COMMAND [WORDS]\n",
            Ending::BadGeometry { bad } => bad_geometry(bad),
            Ending::NotBuilt => b"ufs: line 0: NotBuilt\n",
            Ending::BadScript => b"",
            Ending::TooSmall => b"ufs: image: BadGeometry 5\n",
            Ending::NoTree => b"",
            Ending::DeviceFault => b"",
            Ending::OutOfMemory => b"ufs: out of memory\n",
            Ending::SourceFault => b"ufs: source fault\n",
            Ending::Damaged => b"",
            Ending::Illegal => b"",
        }
    }
}
