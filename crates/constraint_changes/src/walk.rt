//! Which of a list's items are left out next, to find those that are needed.

/// Items that stand together in a list: from an index up to another that isn't among them.
#[derive(Clone, Copy)]
pub(crate) struct Run {
    pub(crate) start: usize,
    pub(crate) end: usize,
}

/// A walk over a list, from the last item on or from the first, of which runs are left out: longer
/// ones after one that could be, and shorter ones after one that couldn't.
#[derive(Clone, Copy)]
pub(crate) struct Walk {
    /// Where those that are left to try begin; from the last item on, where they end.
    at: usize,
    length: usize,
    from_last: bool,
}

impl Walk {
    /// A walk over a list of so many items.
    pub(crate) fn over(many: usize, from_last: bool) -> Walk {
        Walk {
            at: if from_last { many } else { 0 },
            length: (many / 2).max(1),
            from_last,
        }
    }

    /// The next run of a list of so many items; `None` where each was tried.
    pub(crate) fn next(&self, many: usize) -> Option<Run> {
        let run = if self.from_last {
            Run {
                start: self.at.saturating_sub(self.length),
                end: self.at,
            }
        } else {
            Run {
                start: self.at,
                end: self.at.saturating_add(self.length).min(many),
            }
        };
        if run.start < run.end { Some(run) } else { None }
    }

    /// Learns whether a run was left out.
    pub(crate) fn learn(&mut self, run: Run, is_left_out: bool) {
        let length = run.end.saturating_sub(run.start);
        if is_left_out {
            self.length = length.saturating_mul(2);
        } else {
            self.length = (length / 2).max(1);
        }
        if self.from_last && (is_left_out || length < 2) {
            self.at = run.start;
        } else if !is_left_out && length < 2 {
            self.at = run.end;
        }
    }
}
