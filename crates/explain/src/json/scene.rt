//! What is known of the script whose explanation is told.

use crate::json::object::Object;
use explanation_text::ListBuilder;
use negotiation_inputs::Platform;
use script_faults::Document;
use script_reading::Call;
use script_story::{Domain, Story, refused_calls};
use serde_json::Value;
use std::alloc::{AllocError, Global};

/// A script's calls, and what they did on its platform.
#[derive(Clone, Copy)]
pub(crate) struct PlayedScript<'a, 'b> {
    pub(crate) story: &'b Story<'a>,
    pub(crate) platform: &'b Platform,
    pub(crate) calls: &'b [Call<'a>],
}

/// A script's text, and what its calls did, if it isn't refused.
#[derive(Clone, Copy)]
pub(crate) struct Scene<'a, 'b> {
    pub(crate) document: Document<'a>,
    pub(crate) played: Option<PlayedScript<'a, 'b>>,
}

impl Scene<'_, '_> {
    /// How many calls there are.
    pub(crate) fn calls(&self) -> usize {
        match self.played {
            Some(played) => played.story.calls.len(),
            None => 0,
        }
    }

    /// How many of them were refused.
    pub(crate) fn refused(&self) -> usize {
        match self.played {
            Some(played) => refused_calls(played.story),
            None => 0,
        }
    }

    /// Puts a node's name and path into an object, the path at this key.
    pub(crate) fn put_node(
        &self,
        object: &mut Object,
        key: &str,
        node: usize,
    ) -> Result<(), AllocError> {
        let Some(played) = self.played else {
            return Ok(());
        };
        object.say("name", played.story.name(node))?;
        object.say(key, played.story.path(node))
    }

    /// A node's name and path.
    pub(crate) fn node_value(&self, alloc: Global, node: usize) -> Result<Value, AllocError> {
        let mut object = Object::new(alloc);
        self.put_node(&mut object, "path", node)?;
        Ok(object.into_value())
    }

    /// What became of each domain: `{"domain":"/","name":"root","verdict":"empty"}`.
    pub(crate) fn domains(&self, alloc: Global) -> Result<Vec<Value>, AllocError> {
        let Some(played) = self.played else {
            return Ok(Vec::new(alloc));
        };
        let mut values = ListBuilder::new(alloc);
        for domain in &played.story.domains {
            values.add(self.domain_value(alloc, domain)?);
        }
        values.done()
    }

    fn domain_value(&self, alloc: Global, domain: &Domain) -> Result<Value, AllocError> {
        let mut object = Object::new(alloc);
        self.put_node(&mut object, "domain", domain.root)?;
        object.say("verdict", domain.became.word())?;
        Ok(object.into_value())
    }
}
