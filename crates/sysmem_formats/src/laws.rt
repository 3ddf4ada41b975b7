//! The lists of all that there is of a type leave nothing out, and have nothing twice.

ghost use Rattle.list_lemmas.specs.Each.{ListsEach};
ghost use Rattle.sysmem_formats.specs.Names.{colour_name, format_name, modifier_name};

use crate::colour_space::ColourSpace;
use crate::modifier::Modifier;
use crate::pixel_format::PixelFormat;

/// `PixelFormat::ALL` has each pixel format once.
pub fn all_formats()
    ensures { ListsEach format_name PixelFormat.ALL }
{}

/// `Modifier::ALL` has each modifier once.
pub fn all_modifiers()
    ensures { ListsEach modifier_name Modifier.ALL }
{}

/// `ColourSpace::ALL` has each colour space once.
pub fn all_colours()
    ensures { ListsEach colour_name ColourSpace.ALL }
{}
