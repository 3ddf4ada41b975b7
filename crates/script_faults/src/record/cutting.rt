//! Records with a list cut off, by which the item with a fault is found.

use crate::record::paths::{Path, extended};
use explanation_text::{Step, TextBuilder, value_at};
use record_reading::{Code, Fault, read_platform};
use serde_json::Value;
use std::alloc::{AllocError, Global};
use std::mem;
use sysmem_sanitise::read_constraints;

/// A path as a JSON pointer; a record's keys have no `/` and no `~`.
fn pointer_of(alloc: Global, path: &[Step<'_>]) -> TextBuilder {
    let mut words = TextBuilder::new(alloc);
    for step in path {
        match *step {
            Step::Key(key) => {
                words.put("/").put(key);
            }
            Step::Item(index) => {
                words.put("/").put_number(index);
            }
        }
    }
    words
}

/// A record with its first fault, whose lists are cut where the fault stays.
#[derive(Drop)]
pub(crate) struct Narrowing {
    alloc: Global,
    record: Value,
    fault: Fault,
    is_platform: bool,
}

impl Narrowing {
    pub(crate) fn new(
        alloc: Global,
        record: &Value,
        fault: Fault,
        is_platform: bool,
    ) -> Result<Narrowing, AllocError> {
        let record = record.clone()?;
        Ok(Narrowing {
            alloc,
            record,
            fault,
            is_platform,
        })
    }

    /// Whether the record has this fault as its first one.
    fn has_fault(&self) -> Result<bool, AllocError> {
        match self.first_fault() {
            Some(found) if matches!(found.code, Code::WantOfMemory) => Err(AllocError),
            Some(found) => Ok(found == self.fault),
            None => Ok(false),
        }
    }

    /// The first fault of the record.
    fn first_fault(&self) -> Option<Fault> {
        if self.is_platform {
            read_platform(self.alloc, &self.record).err()
        } else {
            read_constraints(self.alloc, &self.record).err()
        }
    }

    /// Puts copies of its first items, as many as are said, in the place of the list at a path, and
    /// gives the list; `None` where there is none.
    fn cut(&mut self, path: &[Step<'_>], most: usize) -> Result<Option<Vec<Value>>, AllocError> {
        let alloc = self.alloc;
        let pointer = pointer_of(alloc, path).done()?;
        let Some(Value::Array(list)) = self.record.pointer_mut(&pointer) else {
            return Ok(None);
        };
        let mut front = Vec::new(alloc);
        for item in list.iter().take(most) {
            front.push(item.clone()?)?;
        }
        Ok(Some(mem::replace(list, front)))
    }

    /// Puts a list back to where it was cut.
    fn restore(&mut self, path: &[Step<'_>], whole: Vec<Value>) -> Result<(), AllocError> {
        let pointer = pointer_of(self.alloc, path).done()?;
        if let Some(Value::Array(list)) = self.record.pointer_mut(&pointer) {
            *list = whole;
        }
        Ok(())
    }

    /// Whether the record has the fault where the list at a path has its first items alone, as many
    /// as are said.
    fn has_fault_within(&mut self, path: &[Step<'_>], most: usize) -> Result<bool, AllocError> {
        let Some(whole) = self.cut(path, most)? else {
            return self.has_fault();
        };
        let found = self.has_fault();
        self.restore(path, whole)?;
        found
    }

    /// How many items the list at a path has; 0 where there is none.
    fn len(&self, path: &[Step<'_>]) -> usize {
        match value_at(&self.record, path) {
            Some(Value::Array(list)) => list.len(),
            _ => 0,
        }
    }

    /// The index of the last item of the shortest front, of at least `least` items, with which the
    /// list at a path has the fault, and cuts the list after it; `None` where that front is empty,
    /// or the fault isn't there. Longer fronts have it too, so halving finds it.
    pub(crate) fn item(
        &mut self,
        path: &[Step<'_>],
        least: usize,
    ) -> Result<Option<usize>, AllocError> {
        let front = self.shortest_front(path, least)?;
        let whole = self.cut(path, front)?;
        if self.has_fault()? {
            return Ok(front.checked_sub(1));
        }
        if let Some(whole) = whole {
            self.restore(path, whole)?;
        }
        Ok(None)
    }

    /// The length of the shortest front, of at least `least` items, with which the list at a path
    /// has the fault, if any has it. Mostly an early item is faulty, so short fronts are tried first.
    fn shortest_front(&mut self, path: &[Step<'_>], least: usize) -> Result<usize, AllocError> {
        let mut low = least;
        let mut high = self.len(path);
        for _halving in 0..64 {
            if low >= high {
                break;
            }
            let middle = low.saturating_mul(2).min(low + (high - low) / 2);
            if self.has_fault_within(path, middle)? {
                high = middle;
            } else {
                low = middle.saturating_add(1);
            }
        }
        Ok(high)
    }

    /// The path of the faulty item of the list at a path, with the rest after it; or the path
    /// itself.
    pub(crate) fn in_list<'a>(
        &mut self,
        path: Path<'a>,
        rest: &[Step<'a>],
    ) -> Result<Path<'a>, AllocError> {
        if self.len(&path) == 0 {
            return Ok(path);
        }
        match self.item(&path, 1)? {
            Some(index) => extended(path, index, rest),
            None => Ok(path),
        }
    }
}
