/// The table of the fields of image bounds, one row a field, in the table's order.
///
/// `bounds_table!(callback!(arguments))` expands to `callback! { (arguments) row, row, .. }`. A row
/// is `name: shape rule Field absent range`:
///
/// - `name` of the field of `ImageBounds`, and in JSON;
/// - `shape`: a `number` of 32 bits, a `large` one of 64, or a `size` of two numbers;
/// - `rule` by which two are merged: `greatest`, `least` or `multiple`;
/// - `Field`, the name's variant of `sysmem_counts::Field`;
/// - `absent`, the value of a field that isn't given, of a size in both dimensions: `zero`,
///   `one`, `most` of its type, or `own_alignment` and `own_divisor`, which are 1 in an
///   entry and an offer's own without one;
/// - `range` of the values that are read: `any` of the shape; `some`, where 0 is read as 1;
///   `multiple`, from 1 to 65,536; `from_one`, which has no 0.
#[macro_export]
macro_rules! bounds_table {
    ($do:ident!($($args:tt)*)) => {
        $do! { ($($args)*)
            min_size: size greatest MinSize one some,
            max_size: size least MaxSize most any,
            size_alignment: size multiple SizeAlignment own_alignment multiple,
            min_bytes_per_row: number greatest MinBytesPerRow one some,
            max_bytes_per_row: number least MaxBytesPerRow most any,
            bytes_per_row_divisor: number multiple BytesPerRowDivisor own_divisor multiple,
            start_offset_divisor: number multiple StartOffsetDivisor one multiple,
            display_rect_alignment: size multiple DisplayRectAlignment one multiple,
            required_min_size: size least RequiredMinSize most some,
            required_max_size: size greatest RequiredMaxSize zero any,
            max_width_times_height: large least MaxWidthTimesHeight most from_one,
        }
    };
}

/// The fields of the table in the order of the bytes of their names, in which certificates have
/// them; the proof of their printer refuses any other list.
///
/// `bounds_by_name!(callback!(arguments))` expands to `callback! { (arguments) row, row, .. }`. A
/// row is `name: shape Field`, as in the table.
#[macro_export]
macro_rules! bounds_by_name {
    ($do:ident!($($args:tt)*)) => {
        $do! { ($($args)*)
            bytes_per_row_divisor: number BytesPerRowDivisor,
            display_rect_alignment: size DisplayRectAlignment,
            max_bytes_per_row: number MaxBytesPerRow,
            max_size: size MaxSize,
            max_width_times_height: large MaxWidthTimesHeight,
            min_bytes_per_row: number MinBytesPerRow,
            min_size: size MinSize,
            required_max_size: size RequiredMaxSize,
            required_min_size: size RequiredMinSize,
            size_alignment: size SizeAlignment,
            start_offset_divisor: number StartOffsetDivisor,
        }
    };
}

/// What a `number` or a `large` number that isn't given is, from the column `absent` of the table.
#[macro_export]
macro_rules! absent_bound {
    (number zero) => { 0 };
    (number most) => { u32::MAX };
    (large most) => { u64::MAX };
    (number $one:ident) => { 1 };
}

/// The fields that head lines of bounds in the conflict table, in its order: those of common
/// multiples, from the table above, and then the limits.
///
/// `bounds_table!(bounds_lines!(callback))` expands to `callback! { Field Field .. }`.
#[macro_export]
macro_rules! bounds_lines {
    (($do:ident $($line:ident)*) $name:ident: $shape:ident multiple $field:ident $absent:ident $range:ident, $($rows:tt)*) => {
        $crate::bounds_lines! { ($do $($line)* $field) $($rows)* }
    };
    (($do:ident $($line:ident)*) $name:ident: $shape:ident $rule:ident $field:ident $absent:ident $range:ident, $($rows:tt)*) => {
        $crate::bounds_lines! { ($do $($line)*) $($rows)* }
    };
    (($do:ident $($line:ident)*)) => {
        $do! { $($line)* RequiredMinSize MaxSize MaxWidthTimesHeight MaxBytesPerRow }
    };
}
