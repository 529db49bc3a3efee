ghost use Rattle.std.specs.Prelude.{ℕ, List, ◌≡◌, ◌<◌, ◌≤◌, ◌+◌, [], length, IfOk};
ghost use Rattle.std.specs.List.{range_with_len};
ghost use Rattle.ufs_damage.specs.Marks.{AreMarks, all_more, one_more, with_holder};

use std::alloc::Global;
use ufs_base::Memory;

/// The first two that hold a number, by the order in which they came.
#[derive(Clone, Copy, Debug, PartialEq, Eq)]
pub(crate) struct Held {
    pub(crate) first: Option<u32>,
    pub(crate) second: Option<u32>,
}

fn with_holder(held: Held, holder: u32) -> Held
    ensures { result ≡ with_holder held holder }
{
    match (held.first, held.second) {
        (None, _) => Held {
            first: Some(holder),
            second: None,
        },
        (Some(_), None) => Held {
            first: held.first,
            second: Some(holder),
        },
        (Some(_), Some(_)) => held,
    }
}

// Marks of so many numbers, held by none.
pub(crate) fn no_marks(alloc: Global, count: usize) -> Result<Vec<Held>, Memory>
    ensures sized { IfOk result (λ marks. length marks.items ≡ count) }
    ensures none { IfOk result (λ marks. AreMarks marks.items (λ k. [])) }
{
    let mut marks = Vec::new(alloc);
    marks.resize(
        count,
        Held {
            first: None,
            second: None,
        },
    )?;
    Ok(marks)
}

// One more holds the number.
pub(crate) fn mark(marks: &mut [Held], at: usize, holder: u32)
    requires { at < length marks.old }
    ensures { (holders : ℕ → List ℕ) → AreMarks marks.old holders → AreMarks marks.new (one_more holders at holder) }
{
    marks[at] = with_holder(marks[at], holder);
}

// One more holds each of so many numbers.
pub(crate) fn mark_run(marks: &mut [Held], start: u32, count: u32, holder: u32)
    requires { start + count ≤ length marks.old }
    ensures { (holders : ℕ → List ℕ) → AreMarks marks.old holders → AreMarks marks.new (all_more holders holder (range_with_len start count)) }
{
    for k in 0..count as usize {
        mark(marks, start as usize + k, holder);
    }
}
