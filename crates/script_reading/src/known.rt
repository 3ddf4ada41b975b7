//! What the calls so far made known: the names of tokens, and the actors.
ghost use Rattle.std.specs.Prelude.{◌≡◌, IfOk, IfErr, Some, None, bytes_eq, option_map, position, if◌then◌else◌};
ghost use Rattle.serde_json.specs.View.{view};
ghost use Rattle.script_reading.specs.Faults.{Gives};
ghost use Rattle.script_reading.specs.Known.{known_seen, texts};
ghost use Rattle.script_reading.specs.Script.{actor_number, actors_after, names_after, names_found, call_of, nothing_known};
ghost use Rattle.script_reading.specs.Seen.{call_seen, form_seen};

use crate::call::Call;
use crate::fault::{ParseFault, ScriptFault};
use crate::form::{Form, form_of};
use crate::names::{ROOT, is_name};
use indexmap::IndexSet;
use serde_json::Value;
use std::alloc::{AllocFailed, Global};

const MOST_ACTORS: usize = 16;

/// The names that the calls so far made, in order, and the actors that made the calls.
#[derive(Drop)]
pub(crate) struct KnownNames<'a> {
    names: IndexSet<&'a str>,
    actors: IndexSet<&'a str>,
}

/// The place of a name among those that were made.
#[tactic(auto, using(crate::proofs::TextsLemmas::texts_rules))]
fn place_of(names: &IndexSet<&str>, name: &str) -> Option<usize>
    ensures { result ≡ position (bytes_eq name.now) (texts names.now.keys) }
{
    names.get_index_of(name)
}

/// Adds the name that a call makes, if it makes one. False: the name is bad or there already.
#[tactic(auto, using(crate::proofs::TextsLemmas::texts_rules))]
fn add<'a>(
    names: &mut IndexSet<&'a str>,
    made: Option<&'a str>,
) -> Result<bool, AllocFailed<&'a str>>
    ensures { IfOk result (λ added. (if added then Some (texts names.new.keys) else None)
        ≡ names_after (option_map (λ name. name.now) made.entry) (texts names.old.keys)) }
{
    match made {
        Some(name) => {
            if !is_name(name) {
                return Ok(false);
            }
            names.insert(name)
        }
        None => Ok(true),
    }
}

/// Looks up the name that a call is made on, and adds the name that it makes.
///
/// None: a name is bad, is not there or is there already.
fn find<'a>(
    names: &mut IndexSet<&'a str>,
    form: &Form<'a>,
) -> Result<Option<usize>, AllocFailed<&'a str>>
    ensures { IfOk result (λ place. option_map (λ place. (place, texts names.new.keys)) place
        ≡ names_found (texts names.old.keys) (form_seen form.now)) }
{
    if !is_name(form.actor) {
        return Ok(None);
    }
    let Some(place) = place_of(names, form.on) else {
        return Ok(None);
    };
    if !add(names, form.act.name_made())? {
        return Ok(None);
    }
    Ok(Some(place))
}

/// The number of an actor among those who made calls, or of the next one.
fn number_of(actors: &IndexSet<&str>, actor: &str) -> usize
    ensures { result ≡ actor_number actor.now (texts actors.now.keys) }
{
    place_of(actors, actor).unwrap_or(actors.len())
}

/// Adds the actor of a call, and says whether there are few enough.
fn join<'a>(actors: &mut IndexSet<&'a str>, actor: &'a str) -> Result<bool, AllocFailed<&'a str>>
    ensures { IfOk result (λ few. (if few then Some (texts actors.new.keys) else None)
        ≡ actors_after actor.now (texts actors.old.keys)) }
{
    actors.insert(actor)?;
    Ok(actors.len() <= MOST_ACTORS)
}

impl<'a> KnownNames<'a> {
    /// The root's name, and no actor.
    pub(crate) fn new(alloc: Global) -> Result<KnownNames<'a>, ParseFault>
        ensures known { IfOk result (λ known. known_seen known ≡ nothing_known) }
        ensures memory { IfErr result (λ fault. fault ≡ ParseFault.NoMemory) }
    {
        let mut names = IndexSet::new(alloc);
        names.insert(ROOT)?;
        let actors = IndexSet::new(alloc);
        Ok(KnownNames { names, actors })
    }

    /// Reads the call of this number, from 1. After a fault nothing is known any more.
    pub(crate) fn read_call(
        &mut self,
        number: usize,
        call: &'a Value,
    ) -> Result<Call<'a>, ParseFault>
        ensures { Gives (λ call. (call_seen call, known_seen self.new)) result
            (call_of number (known_seen self.old) (view call.now)) }
    {
        let Some(form) = form_of(call) else {
            return Err(ParseFault::Refused(ScriptFault::CallMisshapen(number)));
        };
        let Some(place) = find(&mut self.names, &form)? else {
            return Err(ParseFault::Refused(ScriptFault::BadName(number)));
        };
        let actor = number_of(&self.actors, form.actor);
        if !join(&mut self.actors, form.actor)? {
            return Err(ParseFault::Refused(ScriptFault::TooManyActors(number)));
        }
        Ok(Call {
            act: form.act,
            on: form.on,
            place,
            actor,
        })
    }
}
