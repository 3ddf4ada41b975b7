//! Decisions of the domains of a tree.

ghost use Rattle.std.specs.Prelude.{◌≡◌, option_map};
ghost use Rattle.sysmem_tree.specs.History.{IsDecidable};
ghost use Rattle.sysmem_tree.specs.Tree.{decided};

use crate::domain::Decision;
use crate::id::DomainId;
use crate::members::members;
use crate::standing::{decide, leave_out};
use crate::tree::Tree;

impl Tree {
    /// Enters the decision of a domain of the tree that is ready and undecided: for the selection
    /// that these choices make, and then the nodes of the domain that are no members are left out;
    /// or for none. It takes no memory.
    pub fn decide(&mut self, domain: DomainId, choices: Option<&[u8]>)
        requires { IsDecidable self.old domain (option_map (λ chosen. chosen.now) choices) }
        ensures { self.new
            ≡ decided self.old domain (option_map (λ chosen. chosen.now) choices.entry) }
    {
        let Some(chosen) = choices else {
            decide(&mut self.domains, domain.0, Decision::NoneChosen);
            return;
        };
        let members = members(&self.nodes, domain.0, chosen);
        leave_out(&mut self.nodes, domain.0, &members);
        decide(&mut self.domains, domain.0, Decision::Chosen);
    }
}
