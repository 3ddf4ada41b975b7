//! What a script's text means.

ghost use Rattle.std.specs.Prelude.{IfOk, IfSome, IsSome, IsTrue};
ghost use Rattle.std.specs.String.{string_bytes};
ghost use Rattle.explain.specs.Lines.{IsToldBy, item_texts};
ghost use Rattle.explain.specs.Wanted.{AreThere};

use crate::broken::corrected_json;
use crate::corrected::{
    FARTHEST, add_called_otherwise, add_too_long, corrected, is_too_long, no_story,
};
use crate::domains::add_domains;
use crate::drafts::spelled;
use crate::json::{PlayedScript, Scene, objects_of};
use crate::lines::with_lines;
use crate::page::page_of_scene;
use crate::too_great::{add_too_great, is_too_great};
use domain_reasons::answer_of;
use explanation_text::{
    Item, Items, Kind, Label, Span, Standing, TextBuilder, column_of, line_of, repeated_keys,
    text_of,
};
use script_faults::{Document, Whole, add_fault, add_no_json};
use script_reading::{
    ParseFault, Script, ScriptFault, parse_script, read_records, read_script, shared_calls,
};
use script_story::{Became, Effort, Scenario, Story, list_refused, refused_calls, story_of};
use serde_json::Value;
use std::alloc::{AllocError, Global};

/// How many keys that are given twice are shown.
const MOST_KEYS: usize = 6;

/// How a script's run ends, as far as its text says.
#[derive(Clone, Copy, PartialEq, Eq)]
pub enum Outcome {
    /// No call was refused, and each domain has settings.
    Fine,
    /// A call was refused, or a domain has no settings.
    Faulty,
    /// The script is refused.
    Refused,
    /// It isn't known, since to read the script takes too much memory.
    Untold,
}

/// What is wanted of an explanation.
#[derive(Clone, Copy)]
pub struct Outputs {
    pub text: bool,
    /// A line of JSON for each item.
    pub objects: bool,
    pub page: bool,
}

/// What a script means, as it is wanted.
#[derive(Drop)]
pub struct Explanation {
    pub outcome: Outcome,
    /// What is told, in order.
    pub items: Vec<Item>,
    pub text: Option<String>,
    pub objects: Option<String>,
    pub page: Option<String>,
}

/// Explains a script: where it has a fault, or what its report means, in the forms that are wanted.
/// It is read once and its calls are made once, and once more with their certificate for a page.
/// The file's name, as it was given, stands before lines and columns. A script whose value takes more
/// than some 120 MB isn't read: that is all that is told of it. `AllocError` where memory is refused,
/// also where it is within the run.
pub fn explain(
    alloc: Global,
    file: &str,
    bytes: &[u8],
    wanted: Outputs,
) -> Result<Explanation, AllocError>
    ensures objects { IfOk result (λ told. IfSome told.objects
        (λ text. IsToldBy (item_texts told.items.items) (string_bytes text))) }
    ensures wanted { IfOk result (AreThere wanted) }
{
    if is_too_great(bytes) {
        return untold(alloc, file, bytes, wanted);
    }
    match parse_script(alloc, bytes) {
        Ok(value) => explain_value(alloc, file, bytes, &value, wanted),
        Err(ParseFault::NoMemory) => Err(AllocError),
        Err(ParseFault::Refused(fault)) => {
            let document = Document {
                file,
                bytes,
                value: &Value::Null,
                whole: Whole::Script,
            };
            let items = if fault == ScriptFault::NotJson {
                broken_items(alloc, &document)?
            } else {
                fault_items(alloc, &document, fault)?
            };
            unplayed(alloc, document, Outcome::Refused, items, wanted)
        }
    }
}

/// That a script isn't explained, printed.
fn untold(
    alloc: Global,
    file: &str,
    bytes: &[u8],
    wanted: Outputs,
) -> Result<Explanation, AllocError>
    ensures objects { IfOk result (λ told. IfSome told.objects
        (λ text. IsToldBy (item_texts told.items.items) (string_bytes text))) }
    ensures wanted { IfOk result (AreThere wanted) }
{
    let document = Document {
        file,
        bytes,
        value: &Value::Null,
        whole: Whole::Script,
    };
    let mut items = Items::new(alloc);
    add_too_great(&mut items);
    unplayed(alloc, document, Outcome::Untold, items, wanted)
}

/// What is told of a script whose calls aren't made, printed.
fn unplayed(
    alloc: Global,
    document: Document<'_>,
    outcome: Outcome,
    items: Items,
    wanted: Outputs,
) -> Result<Explanation, AllocError>
    ensures objects { IfOk result (λ told. IfSome told.objects
        (λ text. IsToldBy (item_texts told.items.items) (string_bytes text))) }
    ensures wanted { IfOk result (AreThere wanted) }
{
    let scene = Scene {
        document,
        played: None,
    };
    let items = items.into_list()?;
    printed(alloc, scene, outcome, items, wanted)
}

/// What is told, in the forms that are wanted.
fn printed(
    alloc: Global,
    scene: Scene<'_, '_>,
    outcome: Outcome,
    items: Vec<Item>,
    wanted: Outputs,
) -> Result<Explanation, AllocError>
    ensures objects { IfOk result (λ told. IfSome told.objects
        (λ text. IsToldBy (item_texts told.items.items) (string_bytes text))) }
    ensures wanted { IfOk result (AreThere wanted) }
{
    let text = text_if(alloc, &items, wanted.text)?;
    let page = page_if(alloc, scene, &items, wanted.page)?;
    let objects = objects_if(alloc, scene, outcome, &items, wanted.objects)?;
    Ok(Explanation {
        outcome,
        items,
        text,
        objects,
        page,
    })
}

/// The text of items, if it is wanted.
fn text_if(alloc: Global, items: &[Item], is_wanted: bool) -> Result<Option<String>, AllocError>
    ensures { IfOk result (λ text. IsTrue is_wanted → IsSome text) }
{
    if !is_wanted {
        return Ok(None);
    }
    Ok(Some(text_of(alloc, items)?))
}

/// Their page, if it is wanted.
fn page_if(
    alloc: Global,
    scene: Scene<'_, '_>,
    items: &[Item],
    is_wanted: bool,
) -> Result<Option<String>, AllocError>
    ensures { IfOk result (λ page. IsTrue is_wanted → IsSome page) }
{
    if !is_wanted {
        return Ok(None);
    }
    Ok(Some(page_of_scene(alloc, scene, items)?))
}

/// Their objects, if they are wanted.
fn objects_if(
    alloc: Global,
    scene: Scene<'_, '_>,
    outcome: Outcome,
    items: &[Item],
    is_wanted: bool,
) -> Result<Option<String>, AllocError>
    ensures told { IfOk result (λ objects. IfSome objects
        (λ text. IsToldBy (item_texts items.now) (string_bytes text))) }
    ensures there { IfOk result (λ objects. IsTrue is_wanted → IsSome objects) }
{
    if !is_wanted {
        return Ok(None);
    }
    Ok(Some(objects_of(alloc, scene, outcome, items)?))
}

/// Explains the script that a value stands for.
fn explain_value(
    alloc: Global,
    file: &str,
    bytes: &[u8],
    value: &Value,
    wanted: Outputs,
) -> Result<Explanation, AllocError>
    ensures objects { IfOk result (λ told. IfSome told.objects
        (λ text. IsToldBy (item_texts told.items.items) (string_bytes text))) }
    ensures wanted { IfOk result (AreThere wanted) }
{
    let document = Document {
        file,
        bytes,
        value,
        whole: Whole::Script,
    };
    match read_script(alloc, value) {
        Ok(script) => explain_read(alloc, document, script, wanted),
        Err(ParseFault::NoMemory) => Err(AllocError),
        Err(ParseFault::Refused(fault)) => {
            let items = fault_items(alloc, &document, fault)?;
            unplayed(alloc, document, Outcome::Refused, items, wanted)
        }
    }
}

/// What is told of a script that is refused.
fn fault_items(
    alloc: Global,
    document: &Document<'_>,
    fault: ScriptFault,
) -> Result<Items, AllocError> {
    let mut told = Items::new(alloc);
    add_fault(&mut told, document, fault)?;
    let told = told.into_list()?;
    let after = corrected(alloc, document, &told, None, &no_story(alloc))?;
    let mut items = with_repeats(alloc, document, told)?;
    items.append(after);
    Ok(items)
}

/// What is told of a script that is no JSON.
fn broken_items(alloc: Global, document: &Document<'_>) -> Result<Items, AllocError> {
    let mut items = Items::new(alloc);
    add_no_json(&mut items, document.file, document.bytes)?;
    items.append(corrected_json(alloc, document)?);
    Ok(items)
}

/// What is told of a fault, with the keys that are given twice before where it stands: one of them
/// may be what is meant.
fn with_repeats(
    alloc: Global,
    document: &Document<'_>,
    told: Vec<Item>,
) -> Result<Items, AllocError> {
    let mut items = Items::new(alloc);
    for item in told {
        let is_answer = item.kind == Kind::Answer;
        items.add(item);
        if is_answer {
            add_repeats_first(&mut items, document)?;
        }
    }
    Ok(items)
}

/// Tells the keys that an object has twice, before where the script is refused.
fn add_repeats_first(items: &mut Items, document: &Document<'_>) -> Result<(), AllocError> {
    add_repeats(items, document)?;
    if items.len() > 1 {
        items.title("where the script is refused", Standing::Bad);
    }
    Ok(())
}

/// Explains what a script's calls do, whose records are read once.
fn explain_read(
    alloc: Global,
    document: Document<'_>,
    script: Script<'_>,
    wanted: Outputs,
) -> Result<Explanation, AllocError>
    ensures objects { IfOk result (λ told. IfSome told.objects
        (λ text. IsToldBy (item_texts told.items.items) (string_bytes text))) }
    ensures wanted { IfOk result (AreThere wanted) }
{
    let Script { platform, calls } = script;
    let read = read_records(alloc, &calls)?;
    let shared = shared_calls(alloc, &read)?;
    let script = Script {
        platform,
        calls: shared,
    };
    explain_script(alloc, document, &script, wanted)
}

/// Explains what a script's calls do.
fn explain_script<'a>(
    alloc: Global,
    document: Document<'a>,
    script: &Script<'a>,
    wanted: Outputs,
) -> Result<Explanation, AllocError>
    ensures objects { IfOk result (λ told. IfSome told.objects
        (λ text. IsToldBy (item_texts told.items.items) (string_bytes text))) }
    ensures wanted { IfOk result (AreThere wanted) }
{
    let effort = Effort::new(alloc, &script.platform, &script.calls)?;
    let scenario = Scenario {
        platform: &script.platform,
        calls: &script.calls,
        effort: &effort,
    };
    let told = scenario.tell(alloc, &script.calls)?;
    if told.report.starved {
        return Err(AllocError);
    }
    let story = story_of(alloc, document.value, &script.calls, &told)?;
    let items = story_items(alloc, &document, &scenario, &story)?;
    let played = Some(PlayedScript {
        story: &story,
        platform: &script.platform,
        calls: &script.calls,
    });
    let scene = Scene { document, played };
    printed(alloc, scene, outcome_of(&story), items, wanted)
}

/// What is told of what calls did.
fn story_items(
    alloc: Global,
    document: &Document<'_>,
    scenario: &Scenario<'_>,
    story: &Story<'_>,
) -> Result<Vec<Item>, AllocError> {
    let mut items = Items::new(alloc);
    add_story(&mut items, document, scenario, story)?;
    with_lines(alloc, document, story, items.into_list()?)
}

/// Tells what calls did.
fn add_story(
    items: &mut Items,
    document: &Document<'_>,
    scenario: &Scenario<'_>,
    story: &Story<'_>,
) -> Result<(), AllocError> {
    items.push(
        Kind::Answer,
        0,
        Label::Plain,
        answer_of(items.alloc(), story),
    );
    add_repeats(items, document)?;
    add_calls(items, document, story, scenario.effort)?;
    let _is_told = add_called_otherwise(
        items,
        &spelled(*document),
        scenario,
        story,
        Some(story),
        FARTHEST,
    )?;
    add_domains(items, document, scenario, story)?;
    add_untold(items, document, scenario, story);
    Ok(())
}

/// Tells that not all was tried, where that would take long, or memory.
fn add_untold(
    items: &mut Items,
    document: &Document<'_>,
    scenario: &Scenario<'_>,
    story: &Story<'_>,
) {
    let is_spent = scenario.effort.is_spent();
    let is_long = is_too_long(document) && refused_calls(story) > 0;
    if is_spent || is_long {
        items.title("note: what isn't told", Standing::Open);
    }
    if is_spent {
        items.list_text(
            1,
            Label::Note,
            "more changes, and more that would be decided otherwise: to try more would take long",
        );
    }
    if is_long {
        add_too_long(items, "what comes once refused calls are made otherwise");
    }
}

/// Tells which calls were refused, and what comes once all in them is corrected, if of each it is
/// known what may be meant.
fn add_calls(
    items: &mut Items,
    document: &Document<'_>,
    story: &Story<'_>,
    effort: &Effort,
) -> Result<(), AllocError> {
    let mut refused = Items::new(items.alloc());
    list_refused(&mut refused, document, story)?;
    let refused = refused.into_list()?;
    let after = corrected(items.alloc(), document, &refused, Some(effort), story)?;
    for item in refused {
        items.add(item);
    }
    items.append(after);
    Ok(())
}

fn outcome_of(story: &Story<'_>) -> Outcome {
    for domain in &story.domains {
        if domain.became != Became::Chosen {
            return Outcome::Faulty;
        }
    }
    if refused_calls(story) == 0 {
        Outcome::Fine
    } else {
        Outcome::Faulty
    }
}

/// Tells the keys that an object has twice.
fn add_repeats(items: &mut Items, document: &Document<'_>) -> Result<(), AllocError> {
    let alloc = items.alloc();
    let repeats = repeated_keys(alloc, document.bytes, document.value, MOST_KEYS)?;
    if repeats.is_empty() {
        return Ok(());
    }
    items.title("note: keys that are given twice", Standing::Open);
    for (first, again) in &repeats {
        add_repeat(items, document, *first, *again);
    }
    Ok(())
}

fn add_repeat(items: &mut Items, document: &Document<'_>, first: Span, again: Span) {
    let at = first.start.min(document.bytes.len());
    let mut words = TextBuilder::of(items.alloc(), "given twice; the first (line ");
    words.put_number(line_of(document.bytes, at));
    words
        .put(", column ")
        .put_number(column_of(document.bytes, at))
        .put(") is ignored");
    match words.done() {
        Ok(note) => {
            document.show(items, 1, again, "", &note, &[]);
            document.show(items, 1, first, "", "ignored", &[])
        }
        Err(AllocError) => items.refuse(),
    }
}
