/// The places from one on, below another.
#[derive(Clone, Copy)]
pub(crate) struct Span {
    pub(crate) from: usize,
    pub(crate) to: usize,
}

impl Span {
    ghost use Rattle.std.specs.Prelude.{◌≤◌};
    ghost use Rattle.ufs_file.specs.Span.{HasBelow, HasBoth};

    /// No place.
    pub(crate) const EMPTY: Span = Span { from: 0, to: 0 };

    /// The least span that has these places too.
    pub(crate) fn widened(self, from: usize, to: usize) -> Span
        requires ordered { self.from ≤ self.to }
        requires places { from ≤ to }
        ensures { HasBoth self from to result }
    {
        if from == to {
            return self;
        }
        if self.from == self.to {
            return Span { from, to };
        }
        Span {
            from: self.from.min(from),
            to: self.to.max(to),
        }
    }

    /// Its places below this one.
    pub(crate) fn below(self, end: usize) -> Span
        requires { self.from ≤ self.to }
        ensures { HasBelow self end result }
    {
        Span {
            from: self.from.min(end),
            to: self.to.min(end),
        }
    }
}
