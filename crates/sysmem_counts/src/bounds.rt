// What participants together need of the number of buffers.

ghost use Rattle.std.specs.Prelude.{◌≡◌, ◌↔◌, ◌+◌, ◌<◌, ◌^◌, ◌++◌, [], ◌∷◌, List, IfErr, IsTrue, MatchResult};
ghost use Rattle.sysmem_counts.specs.Bounds.{IsTallyOf};
ghost use Rattle.sysmem_counts.specs.Counts.{HasNoCount, IsCountFault, IsCountLine, IsCounted, IsFixedCountLine};
ghost use Rattle.sysmem_counts.specs.Counts.{IsLeastCount, needed};
ghost use Rattle.sysmem_counts.specs.Tally.{sum_of};
ghost use Rattle.sysmem_counts.specs.declared.constraints.CountConstraints.{CountConstraints as Asked};

use crate::constraints::CountConstraints;
use crate::field::Field;
use std::marker::Model;

/// The greatest number of buffers of one collection.
pub const BUFFER_COUNT_LIMIT: u32 = 128;

/// What the participants so far ask of the number of buffers, in one value of fixed size.
#[derive(Clone, Copy, Debug, PartialEq, Eq)]
pub struct CountBounds {
    own: u64,
    shared: u32,
    minimum: u32,
    maximum: u32,
}

impl Model for CountBounds {
    ghost use Rattle.std.specs.Prelude.{◌<◌, ◌^◌};
    ghost use Rattle.sysmem_counts.specs.Tally.{Tally};

    ghost Value = { Tally };

    ghost view = { λ b. record {
      own = b.own;
      shared = b.shared;
      minimum = b.minimum;
      maximum = b.maximum;
    } };

    ghost invariant = { λ b. b.own < 2 ^ 63 };

    ghost inverse = { λ t. record {
      own = t.own;
      shared = t.shared;
      minimum = t.minimum;
      maximum = t.maximum;
    } };
}

impl CountBounds {
    /// The bounds of no participant at all.
    pub fn new() -> CountBounds
        ensures stands { IsTallyOf result [] }
        ensures nothing { sum_of result ≡ 0 }
    {
        CountBounds {
            own: 0,
            shared: 0,
            minimum: 0,
            maximum: u32::MAX,
        }
    }

    /// Adds one more participant. The sum of camping and dedicated slack so far must be below 2^62;
    /// one participant raises it by less than 2^33.
    pub fn add(&mut self, asked: &CountConstraints)
        requires { sum_of self.old < 2 ^ 62 }
        ensures added { (ps : List Asked) → IsTallyOf self.old ps
            → IsTallyOf self.new (ps ++ asked.now ∷ []) }
        ensures grows { sum_of self.new < sum_of self.old + 2 ^ 33 }
    {
        self.own += u64::from(asked.min_buffer_count_for_camping)
            + u64::from(asked.min_buffer_count_for_dedicated_slack);
        self.shared = self.shared.max(asked.min_buffer_count_for_shared_slack);
        self.minimum = self.minimum.max(asked.min_buffer_count);
        self.maximum = self.maximum.min(asked.max_buffer_count);
    }

    /// Joins the bounds of more participants: they are those of both together. The two sums of
    /// camping and dedicated slack must be below 2^62 together.
    pub fn join(&mut self, more: &CountBounds)
        requires { sum_of self.old + sum_of more.now < 2 ^ 62 }
        ensures joined { (ps qs : List Asked) → IsTallyOf self.old ps → IsTallyOf more.now qs
            → IsTallyOf self.new (ps ++ qs) }
        ensures sum { sum_of self.new ≡ sum_of self.old + sum_of more.now }
    {
        self.own += more.own;
        self.shared = self.shared.max(more.shared);
        self.minimum = self.minimum.max(more.minimum);
        self.maximum = self.maximum.min(more.maximum);
    }

    /// The least number of buffers, 1 to 128, that suits all participants. Where none does,
    /// the field that says so: `MaxBufferCount` if they need more than one of their
    /// maximums, else `BufferCountLimit`.
    pub fn least_count(&self) -> Result<u32, Field>
        ensures cases { (ps : List Asked) → IsTallyOf self.now ps
            → MatchResult result (IsLeastCount ps) (IsCountFault ps) }
        ensures line { (ps : List Asked) → IsTallyOf self.now ps
            → IfErr result (λ field. IsCountLine field ps) }
        ensures none { (ps : List Asked) → IsTallyOf self.now ps
            → IfErr result (λ _. HasNoCount ps) }
    {
        let needed = self.needed();
        if needed > u64::from(self.maximum) {
            return Err(Field::MaxBufferCount);
        }
        if needed > u64::from(BUFFER_COUNT_LIMIT) {
            return Err(Field::BufferCountLimit);
        }
        Ok(needed as u32)
    }

    /// Whether a count line is true of the participants: `MaxBufferCount` where they
    /// need more than one of their maximums, `BufferCountLimit` where they need more
    /// than 128; no other field is one.
    pub fn is_line(&self, field: Field) -> bool
        ensures { (ps : List Asked) → IsTallyOf self.now ps → IsTrue result ↔ IsCountLine field ps }
    {
        match field {
            Field::MaxBufferCount => u64::from(self.maximum) < self.needed(),
            Field::BufferCountLimit => u64::from(BUFFER_COUNT_LIMIT) < self.needed(),
            _ => false,
        }
    }

    /// Whether a line is true of the participants where the count is fixed:
    /// `MinBufferCount` where they need more, `MaxBufferCount` where one of their maximums
    /// is below it; no other field is one.
    pub fn is_fixed_line(&self, count: u32, field: Field) -> bool
        ensures { (ps : List Asked) → IsTallyOf self.now ps → IsTrue result
            ↔ IsFixedCountLine count field ps }
    {
        match field {
            Field::MinBufferCount => u64::from(count) < self.needed(),
            Field::MaxBufferCount => self.maximum < count,
            _ => false,
        }
    }

    /// Whether a number of buffers suits all participants; none above 128 does.
    pub fn suits(&self, count: u32) -> bool
        ensures { (ps : List Asked) → IsTallyOf self.now ps → IsTrue result ↔ IsCounted ps count }
    {
        let most = self.maximum.min(BUFFER_COUNT_LIMIT);
        self.needed() <= u64::from(count) && count <= most
    }

    /// How many buffers the participants need, whatever their maximums and the limit are.
    fn needed(&self) -> u64
        ensures { (ps : List Asked) → IsTallyOf self.now ps → result ≡ needed ps }
    {
        let together = self.own + u64::from(self.shared);
        together.max(u64::from(self.minimum)).max(1)
    }
}
