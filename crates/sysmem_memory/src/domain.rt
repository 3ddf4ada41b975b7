//! Coherency domains and sets of them.

ghost use Rattle.std.specs.Prelude.{◌≡◌, ◌↔◌, Some, false, IfSome, IfNone};
ghost use Rattle.sysmem_memory.specs.Domain.{domain_name, has_domain, IsFirstDomain};
ghost use Rattle.sysmem_memory.specs.declared.domain.CoherencyDomain.{CoherencyDomain as Domain};

/// How the CPU sees a buffer's memory: through its caches, in main memory, or not at all.
#[derive(Clone, Copy, Debug, PartialEq, Eq)]
pub enum CoherencyDomain {
    Cpu,
    Ram,
    Inaccessible,
}

impl CoherencyDomain {
    /// Each coherency domain, in the order in which they are tried.
    pub const ALL: [CoherencyDomain; 3] = [
        CoherencyDomain::Cpu,
        CoherencyDomain::Ram,
        CoherencyDomain::Inaccessible,
    ];

    /// The domain's name in a script and in a report.
    pub fn name(self) -> &'static str
        ensures { result.now ≡ domain_name self }
    {
        match self {
            CoherencyDomain::Cpu => "cpu",
            CoherencyDomain::Ram => "ram",
            CoherencyDomain::Inaccessible => "inaccessible",
        }
    }

    /// The domain of that name, or `None` where there is none.
    pub fn from_name(name: &str) -> Option<CoherencyDomain>
        ensures { (d : Domain) → (result ≡ Some d) ↔ (name.now ≡ domain_name d) }
    {
        CoherencyDomain::ALL
            .iter()
            .find(|one| one.name() == name)
            .copied()
    }
}

/// A set of coherency domains.
#[derive(Clone, Copy, Debug, PartialEq, Eq)]
pub struct CoherencyDomains {
    pub cpu: bool,
    pub ram: bool,
    pub inaccessible: bool,
}

impl CoherencyDomains {
    /// No domain.
    pub const NONE: CoherencyDomains = CoherencyDomains {
        cpu: false,
        ram: false,
        inaccessible: false,
    };

    /// Whether the set has the domain.
    pub fn has(self, domain: CoherencyDomain) -> bool
        ensures { result ≡ has_domain self domain }
    {
        match domain {
            CoherencyDomain::Cpu => self.cpu,
            CoherencyDomain::Ram => self.ram,
            CoherencyDomain::Inaccessible => self.inaccessible,
        }
    }

    /// The set's first domain in the order cpu, ram, inaccessible, or `None` where it is empty.
    pub fn first(self) -> Option<CoherencyDomain>
        ensures first { IfSome result (IsFirstDomain self) }
        ensures none { IfNone result ((d : Domain) → has_domain self d ≡ false) }
    {
        if self.cpu {
            Some(CoherencyDomain::Cpu)
        } else if self.ram {
            Some(CoherencyDomain::Ram)
        } else if self.inaccessible {
            Some(CoherencyDomain::Inaccessible)
        } else {
            None
        }
    }
}
