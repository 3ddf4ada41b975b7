//! Lists of the names of families, coherency domains and colour spaces.

ghost use Rattle.std.specs.Prelude.{◌≡◌, [], IfOk, OnOk};
ghost use Rattle.serde_json.specs.Data.{array};
ghost use Rattle.serde_json.specs.View.{view, items_of};
ghost use Rattle.sysmem_formats.specs.Names.{colour_name};
ghost use Rattle.sysmem_image.specs.Colours.{lists};
ghost use Rattle.record_laws.specs.Sparse.{with_name, names_said, families_in, domains_in, colours_in};
ghost use Rattle.record_writing.specs.Growing.{names_in};

use bitflags::Flags;
use serde_json::Value;
use std::alloc::{AllocError, Global};
use sysmem_counts::Usage;
use sysmem_formats::ColourSpace;
use sysmem_image::ColourSet;
use sysmem_memory::{CoherencyDomain, CoherencyDomains};

/// A list of names that grows.
#[derive(Drop)]
pub(crate) struct Names {
    alloc: Global,
    list: Vec<Value>,
}

impl Names {
    fn new(alloc: Global) -> Names
        ensures { names_in result ≡ [] }
    {
        Names {
            alloc,
            list: Vec::new(alloc),
        }
    }

    fn into_value(self) -> Value
        ensures { view result ≡ array (items_of (names_in self)) }
    {
        Value::from(self.list)
    }

    /// Adds a name, if it is wanted.
    #[tactic(auto, unfolding(record_laws::specs::Sparse::with_name))]
    fn add(&mut self, is_wanted: bool, name: &str) -> Result<(), AllocError>
        ensures { OnOk result
            (names_in self.new ≡ with_name (names_in self.old) is_wanted name.now) }
    {
        if !is_wanted {
            return Ok(());
        }
        let value = Value::try_from_str(self.alloc, name)?;
        self.list.push(value)?;
        Ok(())
    }

    /// Adds the name of a colour space, if a set lists it.
    fn add_colour(&mut self, set: &ColourSet, colour: ColourSpace) -> Result<(), AllocError>
        ensures { OnOk result (names_in self.new
            ≡ with_name (names_in self.old) (lists set.now colour) (colour_name colour)) }
    {
        Ok(self.add(set.lists(colour), colour.name())?)
    }
}

/// The names of a usage's families.
pub(crate) fn families_value(alloc: Global, usage: Usage) -> Result<Value, AllocError>
    ensures { IfOk result (λ value. view value ≡ names_said (families_in usage)) }
{
    let mut names = Names::new(alloc);
    names.add(usage.contains(Usage::NONE), "none")?;
    names.add(usage.contains(Usage::CPU), "cpu")?;
    names.add(usage.contains(Usage::VULKAN), "vulkan")?;
    names.add(usage.contains(Usage::DISPLAY), "display")?;
    names.add(usage.contains(Usage::VIDEO), "video")?;
    Ok(names.into_value())
}

/// The names of the domains of a set.
pub(crate) fn domains_value(alloc: Global, domains: CoherencyDomains) -> Result<Value, AllocError>
    ensures { IfOk result (λ value. view value ≡ names_said (domains_in domains)) }
{
    let mut names = Names::new(alloc);
    names.add(domains.cpu, CoherencyDomain::Cpu.name())?;
    names.add(domains.ram, CoherencyDomain::Ram.name())?;
    names.add(domains.inaccessible, CoherencyDomain::Inaccessible.name())?;
    Ok(names.into_value())
}

/// The names of the colour spaces that a set lists, `DO_NOT_CARE` among them.
pub(crate) fn colours_value(alloc: Global, set: &ColourSet) -> Result<Value, AllocError>
    ensures { IfOk result (λ value. view value ≡ names_said (colours_in set.now)) }
{
    let mut names = Names::new(alloc);
    names.add(set.lists_any(), "DO_NOT_CARE")?;
    names.add_colour(set, ColourSpace::Srgb)?;
    names.add_colour(set, ColourSpace::Rec601Ntsc)?;
    names.add_colour(set, ColourSpace::Rec601NtscFullRange)?;
    names.add_colour(set, ColourSpace::Rec601Pal)?;
    names.add_colour(set, ColourSpace::Rec601PalFullRange)?;
    names.add_colour(set, ColourSpace::Rec709)?;
    names.add_colour(set, ColourSpace::Rec2020)?;
    names.add_colour(set, ColourSpace::Rec2100)?;
    Ok(names.into_value())
}
