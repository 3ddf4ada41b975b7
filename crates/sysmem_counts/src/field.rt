// The names of fields and limits, as records, conflicts and certificates write them.

ghost use Rattle.std.specs.Prelude.{◌≡◌, ◌↔◌};

/// A field of the constraints, a limit, or a key of the platform, in the
/// order in which records are read.
#[derive(Clone, Copy, Debug, PartialEq, Eq)]
pub enum Field {
    /// What the buffers are used for.
    Usage,
    /// Buffers that a participant may hold at once.
    MinBufferCountForCamping,
    /// Further buffers for one participant alone.
    MinBufferCountForDedicatedSlack,
    /// Further buffers that the participants share.
    MinBufferCountForSharedSlack,
    /// The least number of buffers in all.
    MinBufferCount,
    /// The greatest number of buffers in all.
    MaxBufferCount,
    /// A participant's memory constraints.
    BufferMemoryConstraints,
    /// A participant's list of image entries.
    ImageFormatConstraints,
    /// The least size of a buffer, in bytes.
    MinSizeBytes,
    /// The greatest size of a buffer, in bytes.
    MaxSizeBytes,
    /// Whether the heap must be contiguous.
    PhysicallyContiguousRequired,
    /// Whether the heap must be secure.
    SecureRequired,
    /// Whether the coherency domain may be cpu.
    CpuDomainSupported,
    /// Whether the coherency domain may be ram.
    RamDomainSupported,
    /// Whether the coherency domain may be inaccessible.
    InaccessibleDomainSupported,
    /// The heaps that a participant permits.
    PermittedHeaps,
    /// The pixel format of an entry or a pair.
    PixelFormat,
    /// The modifier of an entry or a pair.
    PixelFormatModifier,
    /// Further pairs of format and modifier of an entry.
    PixelFormatAndModifiers,
    /// The colour spaces of an entry or of the platform.
    ColorSpaces,
    /// The least width and height, in pixels.
    MinSize,
    /// The greatest width and height, in pixels.
    MaxSize,
    /// What width and height are multiples of.
    SizeAlignment,
    /// The least bytes of a row.
    MinBytesPerRow,
    /// The greatest bytes of a row.
    MaxBytesPerRow,
    /// What the bytes of a row are a multiple of.
    BytesPerRowDivisor,
    /// What the image's start offset is a multiple of.
    StartOffsetDivisor,
    /// What the display rectangle's corners are multiples of.
    DisplayRectAlignment,
    /// The size down to which images must be allowed.
    RequiredMinSize,
    /// The size up to which images must be allowed.
    RequiredMaxSize,
    /// The greatest product of width and height.
    MaxWidthTimesHeight,
    /// Whether rows must end at a whole pixel.
    RequireBytesPerRowAtPixelBoundary,
    /// The limit of 128 buffers.
    BufferCountLimit,
    /// A pixel format that no participant names.
    UnnamedPixelFormat,
    /// A modifier that no participant names.
    UnnamedPixelFormatModifier,
    /// A colour space that no participant names.
    UnnamedColorSpace,
    /// The platform's heaps.
    Heaps,
    /// The platform's pairs of format and modifier.
    Pairs,
    /// A heap's type.
    HeapType,
    /// A heap's number among those of its type.
    Id,
    /// Whether the platform's heap is contiguous.
    Contiguous,
    /// Whether the platform's heap is secure.
    Secure,
    /// The coherency domains of the platform's heap.
    Domains,
}

/// What a record has at a field.
#[derive(Clone, Copy, Debug, PartialEq, Eq)]
pub enum Kind {
    /// `true` or `false`.
    Flag,
    /// A whole number.
    Number,
    /// An object with a width and a height.
    Sides,
    /// A name.
    Name,
    /// A list of names.
    Names,
    /// A list of objects.
    Objects,
    /// An object.
    Object,
    /// Nothing: it is the name of a limit.
    Limit,
}

impl Field {
    ghost use Rattle.sysmem_counts.specs.Field.{field_name};
    ghost use Rattle.sysmem_counts.specs.Field.{kind_of};
    ghost use Rattle.sysmem_counts.specs.declared.field.Field.{Field as Named};

    /// Each field, in the order in which records are read; the limits come before the platform's.
    pub const ALL: [Field; 43] = [
        Field::Usage,
        Field::MinBufferCountForCamping,
        Field::MinBufferCountForDedicatedSlack,
        Field::MinBufferCountForSharedSlack,
        Field::MinBufferCount,
        Field::MaxBufferCount,
        Field::BufferMemoryConstraints,
        Field::ImageFormatConstraints,
        Field::MinSizeBytes,
        Field::MaxSizeBytes,
        Field::PhysicallyContiguousRequired,
        Field::SecureRequired,
        Field::CpuDomainSupported,
        Field::RamDomainSupported,
        Field::InaccessibleDomainSupported,
        Field::PermittedHeaps,
        Field::PixelFormat,
        Field::PixelFormatModifier,
        Field::PixelFormatAndModifiers,
        Field::ColorSpaces,
        Field::MinSize,
        Field::MaxSize,
        Field::SizeAlignment,
        Field::MinBytesPerRow,
        Field::MaxBytesPerRow,
        Field::BytesPerRowDivisor,
        Field::StartOffsetDivisor,
        Field::DisplayRectAlignment,
        Field::RequiredMinSize,
        Field::RequiredMaxSize,
        Field::MaxWidthTimesHeight,
        Field::RequireBytesPerRowAtPixelBoundary,
        Field::BufferCountLimit,
        Field::UnnamedPixelFormat,
        Field::UnnamedPixelFormatModifier,
        Field::UnnamedColorSpace,
        Field::Heaps,
        Field::Pairs,
        Field::HeapType,
        Field::Id,
        Field::Contiguous,
        Field::Secure,
        Field::Domains,
    ];

    /// The field's name in a script, as `min_buffer_count`.
    pub fn name(self) -> &'static str
        ensures { result.now ≡ field_name self }
    {
        match self {
            Field::Usage => "usage",
            Field::MinBufferCountForCamping => "min_buffer_count_for_camping",
            Field::MinBufferCountForDedicatedSlack => "min_buffer_count_for_dedicated_slack",
            Field::MinBufferCountForSharedSlack => "min_buffer_count_for_shared_slack",
            Field::MinBufferCount => "min_buffer_count",
            Field::MaxBufferCount => "max_buffer_count",
            Field::BufferMemoryConstraints => "buffer_memory_constraints",
            Field::ImageFormatConstraints => "image_format_constraints",
            Field::MinSizeBytes => "min_size_bytes",
            Field::MaxSizeBytes => "max_size_bytes",
            Field::PhysicallyContiguousRequired => "physically_contiguous_required",
            Field::SecureRequired => "secure_required",
            Field::CpuDomainSupported => "cpu_domain_supported",
            Field::RamDomainSupported => "ram_domain_supported",
            Field::InaccessibleDomainSupported => "inaccessible_domain_supported",
            Field::PermittedHeaps => "permitted_heaps",
            Field::PixelFormat => "pixel_format",
            Field::PixelFormatModifier => "pixel_format_modifier",
            Field::PixelFormatAndModifiers => "pixel_format_and_modifiers",
            Field::ColorSpaces => "color_spaces",
            Field::MinSize => "min_size",
            Field::MaxSize => "max_size",
            Field::SizeAlignment => "size_alignment",
            Field::MinBytesPerRow => "min_bytes_per_row",
            Field::MaxBytesPerRow => "max_bytes_per_row",
            Field::BytesPerRowDivisor => "bytes_per_row_divisor",
            Field::StartOffsetDivisor => "start_offset_divisor",
            Field::DisplayRectAlignment => "display_rect_alignment",
            Field::RequiredMinSize => "required_min_size",
            Field::RequiredMaxSize => "required_max_size",
            Field::MaxWidthTimesHeight => "max_width_times_height",
            Field::RequireBytesPerRowAtPixelBoundary => "require_bytes_per_row_at_pixel_boundary",
            Field::BufferCountLimit => "buffer_count_limit",
            Field::UnnamedPixelFormat => "unnamed_pixel_format",
            Field::UnnamedPixelFormatModifier => "unnamed_pixel_format_modifier",
            Field::UnnamedColorSpace => "unnamed_color_space",
            Field::Heaps => "heaps",
            Field::Pairs => "pairs",
            Field::HeapType => "heap_type",
            Field::Id => "id",
            Field::Contiguous => "contiguous",
            Field::Secure => "secure",
            Field::Domains => "domains",
        }
    }

    /// What a record has at the field.
    pub fn kind(self) -> Kind
        ensures { result ≡ kind_of self }
    {
        match self {
            Field::PhysicallyContiguousRequired
            | Field::SecureRequired
            | Field::CpuDomainSupported
            | Field::RamDomainSupported
            | Field::InaccessibleDomainSupported
            | Field::RequireBytesPerRowAtPixelBoundary
            | Field::Contiguous
            | Field::Secure => Kind::Flag,
            Field::MinBufferCountForCamping
            | Field::MinBufferCountForDedicatedSlack
            | Field::MinBufferCountForSharedSlack
            | Field::MinBufferCount
            | Field::MaxBufferCount
            | Field::MinSizeBytes
            | Field::MaxSizeBytes
            | Field::MinBytesPerRow
            | Field::MaxBytesPerRow
            | Field::BytesPerRowDivisor
            | Field::StartOffsetDivisor
            | Field::MaxWidthTimesHeight
            | Field::Id => Kind::Number,
            Field::MinSize
            | Field::MaxSize
            | Field::SizeAlignment
            | Field::DisplayRectAlignment
            | Field::RequiredMinSize
            | Field::RequiredMaxSize => Kind::Sides,
            Field::PixelFormat | Field::PixelFormatModifier | Field::HeapType => Kind::Name,
            Field::Usage | Field::ColorSpaces | Field::Domains => Kind::Names,
            Field::ImageFormatConstraints
            | Field::PermittedHeaps
            | Field::PixelFormatAndModifiers
            | Field::Heaps
            | Field::Pairs => Kind::Objects,
            Field::BufferMemoryConstraints => Kind::Object,
            Field::BufferCountLimit
            | Field::UnnamedPixelFormat
            | Field::UnnamedPixelFormatModifier
            | Field::UnnamedColorSpace => Kind::Limit,
        }
    }

    /// The field of this name; `None` if no field has it.
    pub fn from_name(text: &str) -> Option<Field>
        ensures { (f : Named) → (result ≡ Some f) ↔ (text.now ≡ field_name f) }
    {
        Field::ALL
            .iter()
            .find(|field| field.name() == text)
            .copied()
    }
}
