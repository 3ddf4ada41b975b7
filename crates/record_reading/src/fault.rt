//! What is wrong with a record that is read.

ghost use Rattle.std.specs.Prelude.{◌≡◌, Some};
ghost use Rattle.record_reading.specs.Faults.{code_name, place_name, fault_text, wrong};

use std::fmt;
use sysmem_counts::Field;

/// What kind of fault it is.
#[derive(Clone, Copy, Debug, PartialEq, Eq)]
pub enum Code {
    /// A value that isn't an object, where one is due.
    NotAnObject,
    /// An object with a field that it can't have.
    UnknownField,
    /// A value of the wrong kind or out of range, or a required field that is missing.
    WrongKind,
    /// A name that names nothing.
    UnknownName,
    /// A usage that is missing, empty, or none together with another.
    BadUsage,
    /// An entry without colour spaces.
    NoColourSpaces,
    /// An alignment or a divisor that isn't from 1 to 65,536.
    BadMultiple,
    /// A pair of format and modifier that the participant gives twice.
    RepeatedPair,
    /// More than 64 entries or heaps.
    TooMany,
    /// A permitted heap that is given twice.
    RepeatedHeap,
    /// A list of a platform that is empty, or has an item twice.
    BadPlatformList,
    /// A tiled modifier with a format that isn't of 4 bytes.
    TiledMisfit,
    /// Memory for the field was refused.
    WantOfMemory,
}

impl Code {
    /// The code as a report prints it: `S1` to `S13`.
    pub fn name(self) -> &'static str
        ensures { result.now ≡ code_name self }
    {
        match self {
            Code::NotAnObject => "S1",
            Code::UnknownField => "S2",
            Code::WrongKind => "S3",
            Code::UnknownName => "S4",
            Code::BadUsage => "S5",
            Code::NoColourSpaces => "S6",
            Code::BadMultiple => "S7",
            Code::RepeatedPair => "S8",
            Code::TooMany => "S9",
            Code::RepeatedHeap => "S10",
            Code::BadPlatformList => "S11",
            Code::TiledMisfit => "S12",
            Code::WantOfMemory => "S13",
        }
    }
}

/// Where in the record a fault is.
#[derive(Clone, Copy, Debug, PartialEq, Eq)]
pub enum FaultPlace {
    /// The record as a whole.
    Whole,
    /// A field, or the object that it holds.
    At(Field),
}

impl FaultPlace {
    /// The place as a report prints it: `whole`, or the field's name.
    pub fn name(self) -> &'static str
        ensures { result.now ≡ place_name self }
    {
        match self {
            FaultPlace::Whole => "whole",
            FaultPlace::At(field) => field.name(),
        }
    }
}

/// The first fault of a record, with its place.
#[derive(Clone, Copy, Debug, PartialEq, Eq)]
pub struct Fault {
    pub code: Code,
    pub at: FaultPlace,
}

impl Fault {
    /// What is wrong with a field.
    pub(crate) fn of(code: Code, field: Field) -> Fault
        ensures { result ≡ wrong code field }
    {
        Fault {
            code,
            at: FaultPlace::At(field),
        }
    }
}

/// The fault as a report prints it: `S3 id`.
impl fmt::Display for Fault {
    ghost output = { λ fault. Some (fault_text fault) };

    fn fmt<W: fmt::Write>(&self, f: &mut fmt::Formatter<W>) -> fmt::Result {
        write!(f, "{} {}", self.code.name(), self.at.name())
    }
}
