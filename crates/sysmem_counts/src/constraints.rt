// What one participant asks of the number of buffers.

/// What one participant asks of the number of buffers. Each field is 0 to 4,294,967,295.
#[derive(Clone, Copy, Debug, PartialEq, Eq)]
pub struct CountConstraints {
    /// Buffers that the participant may hold at once; these add up.
    pub min_buffer_count_for_camping: u32,
    /// Further buffers for this participant alone; these add up.
    pub min_buffer_count_for_dedicated_slack: u32,
    /// Further buffers that participants share; the greatest counts.
    pub min_buffer_count_for_shared_slack: u32,
    /// The least number of buffers in all; the greatest counts.
    pub min_buffer_count: u32,
    /// The greatest number of buffers in all; the least counts.
    pub max_buffer_count: u32,
}

impl CountConstraints {
    /// What a participant asks that states none of the five fields.
    pub const ABSENT: CountConstraints = CountConstraints {
        min_buffer_count_for_camping: 0,
        min_buffer_count_for_dedicated_slack: 0,
        min_buffer_count_for_shared_slack: 0,
        min_buffer_count: 0,
        max_buffer_count: u32::MAX,
    };
}
