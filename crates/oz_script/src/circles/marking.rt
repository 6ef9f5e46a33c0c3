//! The lines to which a line leads are marked.

ghost use Rattle.std.specs.Prelude.{◌≡◌, ◌<◌, length, OnOk};
ghost use Rattle.std.specs.Option.{ForSome};
ghost use Rattle.oz_script.specs.circles.Marks.{IsClosed, MarksAll, MarksOne};
ghost use Rattle.oz_script.specs.circles.Waiting.{AreChained};

use crate::circles::waits::Waits;
use std::alloc::{AllocError, Global};

/// Marks all lines to which a line leads. Those that were marked lead only to marked ones, so none is gone to twice.
pub(crate) fn mark_all(
    alloc: Global,
    lines: &[Waits],
    marks: &mut [bool],
    line: usize,
) -> Result<(), AllocError>
    requires chained { AreChained lines.now }
    requires known { line < length lines.now }
    requires marks { length marks.old ≡ length lines.now }
    requires closed { IsClosed lines.now marks.old }
    ensures { OnOk result (MarksAll lines.now line marks.old marks.new) }
{
    let mut stack = Vec::new(alloc);
    stack.push(line)?;
    while let Some(top) = stack.pop() {
        let waits = lines[top];
        mark(marks, &mut stack, waits.before)?;
        mark(marks, &mut stack, waits.after)?;
    }
    Ok(())
}

/// Marks a line, if it is one, and puts it on the stack unless it was marked.
fn mark(marks: &mut [bool], stack: &mut Vec<usize>, line: Option<usize>) -> Result<(), AllocError>
    requires { ForSome line (λ place. place < length marks.old) }
    ensures { OnOk result (MarksOne line marks.old marks.new stack.old.items stack.new.items) }
{
    let Some(place) = line else {
        return Ok(());
    };
    if marks[place] {
        return Ok(());
    }
    stack.push(place)?;
    marks[place] = true;
    Ok(())
}
